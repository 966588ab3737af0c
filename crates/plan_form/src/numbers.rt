//! The numbers of rows in their table, found by their rowids.
ghost use Rattle.std.specs.Prelude.{◌≡◌, ◌<◌, ◌^◌, Some, map, length, IfOk, slice_get};
ghost use Rattle.std.specs.List.{AllByRecursion};
ghost use Rattle.std.specs.Ordering.{int_cmp, is_lt};
ghost use Rattle.sql_meaning.specs.Schemas.{RisingRows};
ghost use Rattle.schema_model.specs.PlainSchemas.{plain_row, plain_rows};
ghost use Rattle.index_lists.specs.Lent.{lent_rows};
ghost use Rattle.plan_form.specs.LoopRows.{IsRowIn};

use schema_model::Row;
use sql_value::{Memory, push};
use std::alloc::Global;
use std::cmp::Ordering;

fn is_before(row: &Row, rowid: i64) -> bool
    ensures { result ≡ is_lt (int_cmp row.now.rowid rowid) }
{
    row.rowid.cmp(&rowid) == Ordering::Less
}

/// The number of a row in its table, by halving.
fn row_number(table: &[Row], row: &Row) -> u32
    requires rising { RisingRows (plain_rows table.now) }
    requires few { length table.now < 2 ^ 32 }
    requires member { IsRowIn (plain_rows table.now) (plain_row row.now) }
    ensures { slice_get (plain_rows table.now) result ≡ Some (plain_row row.now) }
{
    let rowid = row.rowid;
    table.partition_point(|other| is_before(other, rowid)) as u32
}

/// The number of each row in its table.
pub(crate) fn row_numbers(alloc: Global, table: &[Row], rows: &[&Row]) -> Result<Vec<u32>, Memory>
    requires rising { RisingRows (plain_rows table.now) }
    requires few { length table.now < 2 ^ 32 }
    requires members { AllByRecursion (IsRowIn (plain_rows table.now)) (lent_rows rows.now) }
    ensures within { IfOk result (λ numbers. AllByRecursion (λ number. number < length table.now)
        numbers.items) }
    ensures rows { IfOk result (λ numbers.
        map (slice_get (plain_rows table.now)) numbers.items ≡ map Some (lent_rows rows.now)) }
{
    let mut numbers = Vec::new(alloc);
    for row in rows {
        push(&mut numbers, row_number(table, row))?;
    }
    Ok(numbers)
}
