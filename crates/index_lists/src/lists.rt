//! The list of an index of a schema.
ghost use Rattle.std.specs.Prelude.{◌≡◌, ◌<◌, length, IfOk};
ghost use Rattle.sql_meaning.specs.IndexLists.{index_entries, sort_columns};
ghost use Rattle.schema_model.specs.PlainSchemas.{plain_rows, plain_schema};
ghost use Rattle.index_lists.specs.Lent.{lent_rows};

use crate::entries::sorted_entries;
use schema_model::{Row, Schema};
use sql_value::{Memory, push};
use std::alloc::Global;

/// Rows, each lent by itself, so that a sort moves no values.
fn lent<'r>(alloc: Global, rows: &'r [Row]) -> Result<Vec<&'r Row>, Memory>
    ensures { IfOk result (λ list. lent_rows list.items ≡ plain_rows rows.now) }
{
    let mut list = Vec::new(alloc);
    for row in rows {
        push(&mut list, row)?;
    }
    Ok(list)
}

/// The rows of an index's table as the index lists them.
pub fn index_list<'r>(
    alloc: Global,
    schema: &Schema,
    index: u32,
    rows: &'r [Row],
) -> Result<Vec<&'r Row>, Memory>
    requires { index < length schema.now.indexes }
    ensures { IfOk result (λ list. lent_rows list.items
        ≡ index_entries (sort_columns (plain_schema schema.now) index) (plain_rows rows.now)) }
{
    let list = lent(alloc, rows)?;
    let sorted = sorted_entries(schema.index(index).columns.as_slice(), list)?;
    Ok(sorted)
}
