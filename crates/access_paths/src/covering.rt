//! Which indexes cover an item, so that its table isn't read.
ghost use Rattle.std.specs.Prelude.{◌≡◌, map};
ghost use Rattle.sql_meaning.specs.Statements.{has_number, all_in};
ghost use Rattle.schema_model.specs.PlainSchemas.{plain_index_column};

use schema_model::IndexColumn;

fn has_column(columns: &[IndexColumn], column: u32) -> bool
    ensures { result
        ≡ has_number column (map (λ c. c.column) (map plain_index_column columns.now)) }
{
    for own in columns {
        if column == own.column {
            return true;
        }
    }
    false
}

/// Whether each column that is needed is one of the index.
pub(crate) fn has_columns(columns: &[IndexColumn], needs: &[u32]) -> bool
    ensures { result
        ≡ all_in needs.now (map (λ c. c.column) (map plain_index_column columns.now)) }
{
    for column in needs {
        if !has_column(columns, *column) {
            return false;
        }
    }
    true
}
