//! What a list is sorted by, and how a row stands to a key in it.
ghost use Rattle.std.specs.Prelude.{◌≡◌, ◌<◌, length, map, slice_get, Option, Some, option_map};
ghost use Rattle.sql_meaning.specs.IndexLists.{column_cmp};
ghost use Rattle.sql_meaning.specs.Rows.{site_value};
ghost use Rattle.sql_meaning.specs.Values.{value_cmp, is_null};
ghost use Rattle.sql_value.specs.View.{plain_value, plain_collation};
ghost use Rattle.schema_model.specs.PlainSchemas.{plain_row};
ghost use Rattle.path_walks.specs.Columns.{first_of, plain_sort_column, site_of};

use index_lists::{compare_or_null, value_at};
use schema_model::Row;
use sql_value::{Collation, Value, compare};
use std::cmp::Ordering;

/// A column that a list is sorted by, or the rowid where there is none.
#[derive(Clone, Copy)]
pub struct SortColumn {
    pub column: Option<u32>,
    pub coll: Collation,
    /// Whether it falls.
    pub desc: bool,
}

pub(crate) fn is_null(value: &Value) -> bool
    ensures { result ≡ is_null (plain_value value.now) }
{
    matches!(value, Value::Null)
}

/// Whether a row has NULL in a column.
pub(crate) fn is_null_at(column: SortColumn, row: &Row) -> bool
    ensures { result ≡ is_null (site_value (site_of column.column) (plain_row row.now)) }
{
    let Some(number) = column.column else {
        return false;
    };
    match value_at(row, number) {
        Some(value) => is_null(value),
        None => true,
    }
}

/// The order of what a row has in a column and a key, without the column's direction.
pub(crate) fn compare_to_key(column: SortColumn, row: &Row, key: &Value) -> Ordering
    ensures { result ≡ value_cmp (plain_collation column.coll)
        (site_value (site_of column.column) (plain_row row.now)) (plain_value key.now) }
{
    match column.column {
        None => compare(column.coll, &Value::Int(row.rowid), key),
        Some(number) => compare_or_null(column.coll, value_at(row, number), Some(key)),
    }
}

/// The order of what a row has in a column and a key, in the column's direction.
pub(crate) fn compare_to_key_directed(column: SortColumn, row: &Row, key: &Value) -> Ordering
    ensures { result ≡ column_cmp (plain_sort_column column)
        (site_value (site_of column.column) (plain_row row.now)) (plain_value key.now) }
{
    let order = compare_to_key(column, row, key);
    if column.desc { order.reverse() } else { order }
}

pub(crate) fn column_at(columns: &[SortColumn], number: usize) -> SortColumn
    requires { number < length columns.now }
    ensures { slice_get (map plain_sort_column columns.now) number
        ≡ Some (plain_sort_column result) }
{
    columns[number]
}

pub(crate) fn first_column(columns: &[SortColumn]) -> Option<SortColumn>
    ensures { option_map plain_sort_column result
        ≡ first_of (map plain_sort_column columns.now) }
{
    match columns {
        [column, ..] => Some(*column),
        [] => None,
    }
}
