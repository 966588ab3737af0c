//! Where the values of an index's first columns change along its list.
ghost use Rattle.std.specs.Prelude.{◌≡◌, ◌+◌, ◌<◌, ◌≤◌, ◌^◌, ◌∷◌, ℕ, suc, nat_le, map, length};
ghost use Rattle.std.specs.Prelude.{IfOk, cond, slice_index, take};
ghost use Rattle.index_lists.specs.Lent.{lent_rows};
ghost use Rattle.plan_choice.specs.Figures.{agree};
ghost use Rattle.schema_model.specs.PlainSchemas.{plain_index_column, plain_row};
ghost use Rattle.stat_figures.specs.Changes.{begins, shared_columns};

use index_lists::compare_in_column;
use schema_model::{IndexColumn, Row};
use sql_value::Memory;
use std::alloc::Global;
use std::cmp::Ordering;

/// In how many columns of an index, from the first on, two rows agree.
fn shared(columns: &[IndexColumn], left: &Row, right: &Row) -> usize
    ensures told { result ≡ shared_columns (map plain_index_column columns.now)
        (plain_row left.now) (plain_row right.now) }
    ensures within { result ≤ length columns.now }
{
    for (number, column) in columns.iter().enumerate() {
        if compare_in_column(column, left, right) != Ordering::Equal {
            return number;
        }
    }
    columns.len()
}

/// Adds one to each count behind a place.
fn raise_behind(counts: &mut Vec<u64>, place: usize)
    requires room { (k : ℕ) → k < length counts.old.items
        → slice_index counts.old.items k + 1 < 2 ^ 64 }
    requires place { place < length counts.old.items }
    ensures len { length counts.new.items ≡ length counts.old.items }
    ensures raised { (k : ℕ) → k < length counts.old.items → slice_index counts.new.items k
        ≡ slice_index counts.old.items k + cond (nat_le (suc place) k) 1 0 }
{
    for k in place + 1..counts.len() {
        counts[k] += 1;
    }
}

/// For each number of leading columns, from none on, how many values they have: how often rows of
/// an index's list begin new ones.
pub(crate) fn count_values(
    alloc: Global,
    columns: &[IndexColumn],
    first: &Row,
    rest: &[&Row],
) -> Result<Vec<u64>, Memory>
    ensures len { IfOk result (λ counts. length counts.items ≡ suc (length columns.now)) }
    ensures counts { IfOk result (λ counts. (k : ℕ) → k < suc (length columns.now)
        → slice_index counts.items k
        ≡ begins (agree (take k (map plain_index_column columns.now)))
        (plain_row first.now ∷ lent_rows rest.now)) }
{
    let mut counts = vec![in alloc; 1; columns.len() + 1]?;
    let mut last = first;
    for row in rest {
        let place = shared(columns, last, row);
        raise_behind(&mut counts, place);
        last = row;
    }
    Ok(counts)
}
