//! What rows have in a column, and its order.
//!
//! A row that has no such column stands as NULL there, as in `sql_meaning`, so that these need
//! nothing of a row: a comparison that a sort calls may not.
ghost use Rattle.std.specs.Prelude.{◌≡◌};
ghost use Rattle.sql_meaning.specs.IndexLists.{column_cmp};
ghost use Rattle.sql_meaning.specs.Rows.{AtColumn, site_value};
ghost use Rattle.sql_meaning.specs.Values.{value_cmp};
ghost use Rattle.sql_value.specs.View.{plain_value, plain_collation};
ghost use Rattle.schema_model.specs.PlainSchemas.{plain_row};
ghost use Rattle.index_lists.specs.Lent.{value_or_null};
ghost use Rattle.index_lists.specs.SortColumns.{sort_column_of};

use schema_model::{IndexColumn, Row};
use sql_value::{Collation, Value, compare};
use std::cmp::Ordering;

/// What a row has in a column of its table.
pub fn value_at(row: &Row, column: u32) -> Option<&Value>
    ensures { value_or_null result ≡ site_value (AtColumn column) (plain_row row.now) }
{
    row.values.as_slice().get(column as usize)
}

/// The order of two values, either of which is NULL where it isn't there. Takes no memory.
pub fn compare_or_null(
    collation: Collation,
    left: Option<&Value>,
    right: Option<&Value>,
) -> Ordering
    ensures { result ≡ value_cmp (plain_collation collation) (value_or_null left.entry)
        (value_or_null right.entry) }
{
    match (left, right) {
        (Some(left), Some(right)) => compare(collation, left, right),
        (Some(left), None) => compare(collation, left, &Value::Null),
        (None, Some(right)) => compare(collation, &Value::Null, right),
        (None, None) => Ordering::Equal,
    }
}

/// The order of two rows in a column of an index, without its direction. Takes no memory.
pub fn compare_in_column(column: &IndexColumn, left: &Row, right: &Row) -> Ordering
    ensures { result ≡ value_cmp (plain_collation column.now.coll)
        (site_value (AtColumn column.now.column) (plain_row left.now))
        (site_value (AtColumn column.now.column) (plain_row right.now)) }
{
    compare_or_null(
        column.coll,
        value_at(left, column.column),
        value_at(right, column.column),
    )
}

/// The order of two rows in a column of an index, in its direction: a falling one turns it.
pub(crate) fn compare_directed(column: &IndexColumn, left: &Row, right: &Row) -> Ordering
    ensures { result ≡ column_cmp (sort_column_of column.now)
        (site_value (AtColumn column.now.column) (plain_row left.now))
        (site_value (AtColumn column.now.column) (plain_row right.now)) }
{
    if column.desc {
        compare_in_column(column, right, left)
    } else {
        compare_in_column(column, left, right)
    }
}
