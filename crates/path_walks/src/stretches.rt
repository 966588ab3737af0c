//! Stretches of a sorted list, found by halving: what stands before is skipped, and the first row
//! past ends it.
ghost use Rattle.std.specs.Prelude.{◌≡◌, not};
ghost use Rattle.list_laws.specs.Stretch as lists;
ghost use Rattle.sql_meaning.specs.Walks as walks;
ghost use Rattle.sql_meaning.specs.Rows.{site_value};
ghost use Rattle.sql_value.specs.View.{plain_collation};
ghost use Rattle.schema_model.specs.PlainSchemas.{plain_row};
ghost use Rattle.index_lists.specs.Lent.{lent_rows};
ghost use Rattle.path_walks.specs.Columns.{site_of};
ghost use Rattle.path_walks.specs.Ends.{plain_end};
ghost use Rattle.path_walks.specs.Sides as sides;

use crate::columns::{SortColumn, compare_to_key, compare_to_key_directed, is_null_at};
use crate::ends::End;
use schema_model::Row;
use sql_value::Value;
use std::cmp::Ordering;

/// A side of a key, or of a range, in a column. As data and not as a closure, so that one loop
/// skips and one takes for all of them.
#[derive(Clone, Copy)]
pub(crate) enum Side<'k> {
    /// What stands before the key, in the column's direction.
    Before(SortColumn, &'k Value),
    /// What stands after the key, in the column's direction.
    After(SortColumn, &'k Value),
    /// NULLs, and what is below the lower end.
    Below(SortColumn, Option<&'k End>),
    /// What is above the upper end.
    Above(SortColumn, Option<&'k End>),
}

fn is_below(column: SortColumn, low: Option<&End>, row: &Row) -> bool
    ensures { result ≡ walks.is_below (plain_collation column.coll) (plain_end low.entry)
        (site_value (site_of column.column) (plain_row row.now)) }
{
    if is_null_at(column, row) {
        return true;
    }
    let Some(end) = low else {
        return false;
    };
    match compare_to_key(column, row, &end.key) {
        Ordering::Less => true,
        Ordering::Equal => !end.inclusive,
        Ordering::Greater => false,
    }
}

fn is_above(column: SortColumn, high: Option<&End>, row: &Row) -> bool
    ensures { result ≡ walks.is_above (plain_collation column.coll) (plain_end high.entry)
        (site_value (site_of column.column) (plain_row row.now)) }
{
    let Some(end) = high else {
        return false;
    };
    match compare_to_key(column, row, &end.key) {
        Ordering::Less => false,
        Ordering::Equal => !end.inclusive,
        Ordering::Greater => true,
    }
}

fn stands_on(side: Side, row: &Row) -> bool
    ensures { result ≡ sides.stands_on side.entry (plain_row row.now) }
{
    match side {
        Side::Before(column, key) => { compare_to_key_directed(column, row, key) == Ordering::Less }
        Side::After(column, key) => {
            compare_to_key_directed(column, row, key) == Ordering::Greater
        }
        Side::Below(column, low) => is_below(column, low, row),
        Side::Above(column, high) => is_above(column, high, row),
    }
}

/// The rows from the first on that doesn't stand on the side.
fn drop_while<'s, 't>(side: Side, rows: &'s [&'t Row]) -> &'s [&'t Row]
    requires { lists.Rises (λ row. not (sides.stands_on side row)) (lent_rows rows.now) }
    ensures { lent_rows result.now
        ≡ lists.drop_while (sides.stands_on side.entry) (lent_rows rows.now) }
{
    &rows[rows.partition_point(|row| stands_on(side, row))..]
}

/// The rows up to the first that stands on the side.
fn take_until<'s, 't>(side: Side, rows: &'s [&'t Row]) -> &'s [&'t Row]
    requires { lists.Rises (sides.stands_on side) (lent_rows rows.now) }
    ensures { lent_rows result.now
        ≡ lists.take_until (sides.stands_on side.entry) (lent_rows rows.now) }
{
    &rows[..rows.partition_point(|row| !stands_on(side, row))]
}

/// Skips the rows that stand before, and takes rows until one is past.
pub(crate) fn stretch<'s, 't>(before: Side, past: Side, rows: &'s [&'t Row]) -> &'s [&'t Row]
    requires before { lists.Rises (λ row. not (sides.stands_on before row))
        (lent_rows rows.now) }
    requires past { lists.Rises (sides.stands_on past) (lent_rows rows.now) }
    ensures { lent_rows result.now
        ≡ lists.stretch (sides.stands_on before.entry) (sides.stands_on past.entry)
        (lent_rows rows.now) }
{
    take_until(past, drop_while(before, rows))
}
