//! Which conjuncts can first be evaluated with an item.
ghost use Rattle.std.specs.Prelude.{◌≡◌, ◌<◌, ◌++◌, ◌∷◌, [], ℕ, List, cond, length, IfOk, OnOk};
ghost use Rattle.sql_bound.specs.Naming.{IsPlaced};
ghost use Rattle.sql_bound.specs.Statements.{bound_of};
ghost use Rattle.path_costs.specs.Due.{due_from};

use sql_bound::{Bound, first_at};
use sql_value::{Items, Memory};
use std::alloc::Global;

/// Appends a number, if it is wanted.
fn push_if(list: &mut Items<u32>, wanted: bool, number: u32) -> Result<(), Memory>
    ensures { OnOk result (list.new ≡ cond wanted (list.old ++ number ∷ []) list.old) }
{
    if wanted {
        list.push(number)?;
    }
    Ok(())
}

/// Those of so many conjuncts, which are all.
fn due_of_all(
    alloc: Global,
    bound: &Bound,
    placed: u64,
    item: u32,
    count: u32,
) -> Result<Items<u32>, Memory>
    requires count { count ≡ length bound.now.conjuncts.now }
    requires item { item < length bound.now.items.now }
    ensures { IfOk result (λ due. (items : List ℕ) → IsPlaced placed items
        → due ≡ due_from items item 0 (bound_of bound.now).conjuncts) }
{
    let mut due = Items::new(alloc);
    for number in 0..count {
        let wanted = first_at(bound, number, placed, item);
        push_if(&mut due, wanted, number)?;
    }
    Ok(due)
}

/// The numbers, rising, of the conjuncts that can first be evaluated with the item once others are
/// placed, where bit k of `placed` stands for item k. More conjuncts than 32 bits number are
/// answered as want of memory.
pub fn due_conjuncts(
    alloc: Global,
    bound: &Bound,
    placed: u64,
    item: u32,
) -> Result<Items<u32>, Memory>
    requires { item < length bound.now.items.now }
    ensures { IfOk result (λ due. (items : List ℕ) → IsPlaced placed items
        → due ≡ due_from items item 0 (bound_of bound.now).conjuncts) }
{
    match u32::try_from(bound.conjuncts.len()) {
        Ok(count) => due_of_all(alloc, bound, placed, item, count),
        Err(_) => Err(Memory),
    }
}
