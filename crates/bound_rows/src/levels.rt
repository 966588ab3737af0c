//! What is tested where an item is placed.
ghost use Rattle.std.specs.Prelude.{◌≡◌, ◌<◌, ◌≤◌, ℕ, List, length, IfOk, IsSomeAnd, slice_get};
ghost use Rattle.std.specs.Prelude.{Some, slice_index_or, false, true};
ghost use Rattle.sql_bound.specs.Naming.{IsPlaced};
ghost use Rattle.sql_bound.specs.Statements.{bound_of, conjunct_of};
ghost use Rattle.bound_rows.specs.Levels as meant;
ghost use Rattle.bound_rows.specs.Levels.{Marks};
ghost use Rattle.bound_rows.specs.Readable.{lent_exprs};

use crate::places::push_if;
use sql_bound::{BExpr, Bound, Conjunct, first_at};
use sql_value::Memory;
use std::alloc::Global;

/// An item that is placed, and what is tested there.
#[derive(Drop)]
pub struct Level<'p> {
    pub bound: &'p Bound<'p>,
    pub item: u32,
    /// The conjuncts that it owns.
    pub owned: Vec<&'p BExpr<'p>>,
    /// The common conjuncts that are first known with it.
    pub common: Vec<&'p BExpr<'p>>,
}

/// Whether a list of marks has the number marked.
fn is_marked(marks: &[bool], number: usize) -> bool
    ensures { result ≡ slice_index_or marks.now number false }
{
    match marks.get(number) {
        Some(mark) => *mark,
        None => false,
    }
}

/// Whether the item owns the conjunct, or else whether it is common.
fn is_chosen(owned: bool, item: u32, conjunct: &Conjunct) -> bool
    ensures { result ≡ meant.chosen_by owned item (conjunct_of conjunct.now) }
{
    if owned {
        conjunct.owner == Some(item)
    } else {
        conjunct.owner.is_none()
    }
}

fn conjunct_at<'p>(bound: &Bound<'p>, number: usize) -> Conjunct<'p>
    requires { number < length bound.now.conjuncts.now }
    ensures { slice_get (bound_of bound.now).conjuncts number ≡ Some (conjunct_of result) }
{
    bound.conjuncts[number]
}

/// Whether a conjunct is tested where the item is placed.
fn is_due(
    bound: &Bound,
    owned: bool,
    consumed: &[bool],
    placed: u64,
    item: u32,
    number: u32,
) -> bool
    requires conjunct { number < length bound.now.conjuncts.now }
    requires item { item < length bound.now.items.now }
    ensures { (items numbers : List ℕ) → IsPlaced placed items → Marks consumed.now numbers
        → IsSomeAnd (slice_get (bound_of bound.now).conjuncts number)
        (λ c. result ≡ meant.is_due owned numbers items item number c) }
{
    is_chosen(owned, item, &conjunct_at(bound, number as usize))
        && first_at(bound, number, placed, item)
        && !is_marked(consumed, number as usize)
}

/// The conjuncts that are tested where the item is placed, of those that it owns or of the common
/// ones.
fn due_exprs<'p>(
    alloc: Global,
    bound: &Bound<'p>,
    owned: bool,
    consumed: &[bool],
    placed: u64,
    item: u32,
) -> Result<Vec<&'p BExpr<'p>>, Memory>
    requires few { length bound.now.conjuncts.now ≤ 256 }
    requires item { item < length bound.now.items.now }
    ensures { IfOk result (λ due. (items numbers : List ℕ) → IsPlaced placed items
        → Marks consumed.now numbers → lent_exprs due.items
        ≡ meant.due_exprs owned numbers items item 0 (bound_of bound.now).conjuncts) }
{
    let mut due = Vec::new(alloc);
    for number in 0..bound.conjuncts.len() {
        let wanted = is_due(bound, owned, consumed, placed, item, number as u32);
        push_if(&mut due, wanted, conjunct_at(bound, number).expr)?;
    }
    Ok(due)
}

/// What is tested where the item is placed after the items whose bits are set in `placed`. A mark
/// in `consumed` says that a path has made the conjunct of that number true.
pub fn level_of<'p>(
    alloc: Global,
    bound: &'p Bound<'p>,
    consumed: &[bool],
    placed: u64,
    item: u32,
) -> Result<Level<'p>, Memory>
    requires few { length bound.now.conjuncts.now ≤ 256 }
    requires item { item < length bound.now.items.now }
    ensures bound { IfOk result (λ level. level.bound.now ≡ bound.now) }
    ensures item { IfOk result (λ level. level.item ≡ item) }
    ensures owned { IfOk result (λ level. (items numbers : List ℕ) → IsPlaced placed items
        → Marks consumed.now numbers → lent_exprs level.owned.items
        ≡ meant.due_exprs true numbers items item 0 (bound_of bound.now).conjuncts) }
    ensures common { IfOk result (λ level. (items numbers : List ℕ) → IsPlaced placed items
        → Marks consumed.now numbers → lent_exprs level.common.items
        ≡ meant.due_exprs false numbers items item 0 (bound_of bound.now).conjuncts) }
{
    let owned = due_exprs(alloc, bound, true, consumed, placed, item)?;
    let common = due_exprs(alloc, bound, false, consumed, placed, item)?;
    Ok(Level {
        bound,
        item,
        owned,
        common,
    })
}
