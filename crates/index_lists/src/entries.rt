//! The entries of an index, in its order.
ghost use Rattle.std.specs.Prelude.{◌≡◌, map, IfOk};
ghost use Rattle.sql_meaning.specs.IndexLists.{entry_cmp, index_entries};
ghost use Rattle.schema_model.specs.PlainSchemas.{plain_row};
ghost use Rattle.index_lists.specs.Lent.{lent_rows};
ghost use Rattle.index_lists.specs.SortColumns.{sort_column_of};

use crate::columns::compare_directed;
use schema_model::{IndexColumn, Row};
use sql_value::Memory;
use std::cmp::Ordering;

/// The order of two rows in an index of these columns: the first column in which they differ
/// decides, and the rowid where there is none. Takes no memory.
pub fn compare_entries(columns: &[IndexColumn], left: &Row, right: &Row) -> Ordering
    ensures { result ≡ entry_cmp (map sort_column_of columns.now) (plain_row left.now)
        (plain_row right.now) }
{
    for column in columns {
        let order = compare_directed(column, left, right);
        if order != Ordering::Equal {
            return order;
        }
    }
    left.rowid.cmp(&right.rowid)
}

/// The rows as an index of these columns lists them: one sort, which makes no keys.
pub fn sorted_entries<'r>(
    columns: &[IndexColumn],
    mut rows: Vec<&'r Row>,
) -> Result<Vec<&'r Row>, Memory>
    ensures { IfOk result (λ list. lent_rows list.items
        ≡ index_entries (map sort_column_of columns.now) (lent_rows rows.entry.items)) }
{
    rows.sort_by(|left, right| compare_entries(columns, left, right))?;
    Ok(rows)
}
