//! The keys of an IN, as a seek takes them: in the column's order and each once, so that rows come
//! in the list's order and none comes twice.
ghost use Rattle.std.specs.Prelude.{◌≡◌, [], ◌∷◌, not, map, IfOk};
ghost use Rattle.std.specs.List.{filter};
ghost use Rattle.std.specs.Ordering.{eq_by_cmp};
ghost use Rattle.list_laws.specs.FirstComing.{keep_first, dedup_behind};
ghost use Rattle.list_laws.specs.Order.{Ascends, sort_by};
ghost use Rattle.sql_meaning.specs.IndexLists.{column_cmp};
ghost use Rattle.sql_meaning.specs.Values.{is_null};
ghost use Rattle.sql_meaning.specs.Walks as walks;
ghost use Rattle.sql_value.specs.View.{plain_value};
ghost use Rattle.path_walks.specs.Columns.{plain_sort_column};
ghost use Rattle.path_walks.specs.Keys.{lent_values};

use crate::columns::{SortColumn, is_null};
use sql_value::{Memory, Value, compare, push};
use std::alloc::Global;
use std::cmp::Ordering;

/// The order of two keys of a column, in its direction.
fn compare_keys(column: SortColumn, left: &Value, right: &Value) -> Ordering
    ensures { result ≡ column_cmp (plain_sort_column column) (plain_value left.now)
        (plain_value right.now) }
{
    if column.desc {
        compare(column.coll, right, left)
    } else {
        compare(column.coll, left, right)
    }
}

/// The keys that aren't NULL: no value is equal to NULL.
fn non_null_keys<'k>(alloc: Global, keys: &'k [Value]) -> Result<Vec<&'k Value>, Memory>
    ensures { IfOk result (λ kept. lent_values kept.items
        ≡ filter (λ key. not (is_null key)) (map plain_value keys.now)) }
{
    let mut kept = Vec::new(alloc);
    for key in keys {
        if !is_null(key) {
            push(&mut kept, key)?;
        }
    }
    Ok(kept)
}

fn sorted_keys<'k>(column: SortColumn, mut keys: Vec<&'k Value>) -> Result<Vec<&'k Value>, Memory>
    ensures { IfOk result (λ sorted. lent_values sorted.items
        ≡ sort_by (column_cmp (plain_sort_column column)) (lent_values keys.entry.items)) }
{
    keys.sort_by(|left, right| compare_keys(column, left, right))?;
    Ok(keys)
}

fn is_same_key(column: SortColumn, left: &Value, right: &Value) -> bool
    ensures { result ≡ eq_by_cmp (column_cmp (plain_sort_column column)) (plain_value left.now)
        (plain_value right.now) }
{
    compare_keys(column, left, right) == Ordering::Equal
}

/// A key, and of those behind it each that differs from the one before.
fn dedup<'k>(
    alloc: Global,
    column: SortColumn,
    first: &'k Value,
    rest: &[&'k Value],
) -> Result<Vec<&'k Value>, Memory>
    ensures { IfOk result (λ kept. lent_values kept.items
        ≡ plain_value first.now ∷ dedup_behind (eq_by_cmp (column_cmp (plain_sort_column column)))
        (plain_value first.now) (lent_values rest.now)) }
{
    let mut kept = Vec::new(alloc);
    push(&mut kept, first)?;
    let mut last = first;
    for key in rest {
        if !is_same_key(column, last, key) {
            push(&mut kept, *key)?;
        }
        last = *key;
    }
    Ok(kept)
}

/// Of keys in order, the first of those that are the same in the column.
fn distinct_keys<'k>(
    alloc: Global,
    column: SortColumn,
    keys: &[&'k Value],
) -> Result<Vec<&'k Value>, Memory>
    ensures { IfOk result (λ kept. Ascends (column_cmp (plain_sort_column column))
        (lent_values keys.now) → lent_values kept.items
        ≡ keep_first (eq_by_cmp (column_cmp (plain_sort_column column))) []
        (lent_values keys.now)) }
{
    let [first, rest @ ..] = keys else {
        return Ok(Vec::new(alloc));
    };
    let kept = dedup(alloc, column, *first, rest)?;
    Ok(kept)
}

/// The keys of an IN whose stretches a seek takes, in turn.
pub(crate) fn walked_keys<'k>(
    alloc: Global,
    column: SortColumn,
    keys: &'k [Value],
) -> Result<Vec<&'k Value>, Memory>
    ensures { IfOk result (λ walked. lent_values walked.items
        ≡ walks.walked_keys (plain_sort_column column) (map plain_value keys.now)) }
{
    let sorted = sorted_keys(column, non_null_keys(alloc, keys)?)?;
    let walked = distinct_keys(alloc, column, sorted.as_slice())?;
    Ok(walked)
}
