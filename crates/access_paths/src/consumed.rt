//! The conjuncts that a path makes true.
ghost use Rattle.std.specs.Prelude.{◌≡◌, ◌++◌, [], IfOk, OnOk};
ghost use Rattle.std.specs.List.{flat_map};
ghost use Rattle.std.specs.Ordering.{nat_cmp, eq_by_cmp};
ghost use Rattle.list_laws.specs.Order.{sort_by};
ghost use Rattle.list_laws.specs.FirstComing.{keep_first};
ghost use Rattle.sql_meaning.specs.Choices as meant;
ghost use Rattle.access_paths.specs.Supplies.{lent_terms};

use bumpalo::Bump;
use sql_tree::place_slice;
use sql_value::{Memory, push};
use std::alloc::Global;
use where_terms::Term;

fn push_number(numbers: &mut Vec<u32>, number: Option<u32>) -> Result<(), Memory>
    ensures { OnOk result (numbers.new.items ≡ numbers.old.items ++ meant.number_list number) }
{
    match number {
        Some(number) => push(numbers, number),
        None => Ok(()),
    }
}

/// The conjuncts of the terms, in the terms' order.
fn conjuncts_of(alloc: Global, terms: &[&Term]) -> Result<Vec<u32>, Memory>
    ensures { IfOk result (λ numbers. numbers.items
        ≡ flat_map (λ t. meant.number_list t.conjunct) (lent_terms terms.now)) }
{
    let mut numbers: Vec<u32> = Vec::new(alloc);
    for term in terms {
        push_number(&mut numbers, term.conjunct)?;
    }
    Ok(numbers)
}

/// The numbers in order, each once.
fn in_order(mut numbers: Vec<u32>) -> Result<Vec<u32>, Memory>
    ensures { IfOk result (λ ordered. ordered.items
        ≡ keep_first (eq_by_cmp nat_cmp) [] (sort_by nat_cmp numbers.items)) }
{
    numbers.sort()?;
    numbers.dedup();
    Ok(numbers)
}

/// The conjuncts whose terms are used, rising and each once.
pub(crate) fn consumed_by<'p>(
    alloc: Global,
    arena: &'p Bump,
    terms: &[&Term],
) -> Result<&'p [u32], Memory>
    ensures { IfOk result (λ consumed. consumed.now ≡ meant.consumed_of (lent_terms terms.now)) }
{
    let numbers = conjuncts_of(alloc, terms)?;
    let ordered = in_order(numbers)?;
    let consumed = place_slice(arena, ordered.as_slice())?;
    Ok(consumed)
}
