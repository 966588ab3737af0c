//! Look-ups by name. The name that is looked for has its letters made lower.
ghost use Rattle.std.specs.Prelude.{◌≡◌, ◌≤◌, length};
ghost use Rattle.schema_model.specs.Schemas.{column_limit, is_taken, found_table, found_column};
ghost use Rattle.schema_model.specs.Schemas.{found_index};

use crate::schema::Schema;
use crate::tables::{Found, Table};

/// The table of a name, by at most two hashes. Takes no memory.
pub fn find_table(schema: &Schema, folded: &[u8]) -> Found
    ensures { result ≡ found_table schema.now folded.now }
{
    match schema.table_names.find(folded) {
        Some(number) => Found::Read(number as u32),
        None => {
            if schema.unread_names.has(folded) {
                Found::Unread
            } else {
                Found::Missing
            }
        }
    }
}

/// The number of the index of a name, by one hash. Takes no memory.
pub fn find_index(schema: &Schema, folded: &[u8]) -> Option<u32>
    ensures { result ≡ found_index schema.now folded.now }
{
    match schema.index_names.find(folded) {
        Some(number) => Some(number as u32),
        None => None,
    }
}

/// The number of a table's column of a name, by one hash. Takes no memory.
pub fn find_column(table: &Table, folded: &[u8]) -> Option<u32>
    requires { length table.now.columns ≤ column_limit }
    ensures { result ≡ found_column table.now folded.now }
{
    match table.columns.find(folded) {
        Some(number) => Some(number as u32),
        None => None,
    }
}

/// Whether a table, an unread table or an index has the name, by at most three hashes. Takes no
/// memory.
pub fn name_taken(schema: &Schema, folded: &[u8]) -> bool
    ensures { result ≡ is_taken schema.now folded.now }
{
    schema.table_names.has(folded)
        || schema.unread_names.has(folded)
        || schema.index_names.has(folded)
}
