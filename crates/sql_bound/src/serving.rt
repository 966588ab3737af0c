//! Which conjunct may serve which item, and where a conjunct is known.
ghost use Rattle.std.specs.Prelude.{◌≡◌, ◌<◌, ℕ, List, length, slice_get, IsSomeAnd};
ghost use Rattle.sql_meaning.specs.Conjuncts as meant;
ghost use Rattle.sql_meaning.specs.Expressions.{names, all_names};
ghost use Rattle.sql_bound.specs.Expressions.{expr_of, members_of};
ghost use Rattle.sql_bound.specs.Statements.{bound_of};
ghost use Rattle.sql_bound.specs.Naming.{IsPlaced, farther_of, known_by};
ghost use Rattle.sql_bound.specs.Naming.{standing_of, standing_all};

use crate::placed::is_placed;
use crate::{BExpr, BExprs, Bound};

/// Whether a walk of the item may be narrowed by the conjunct. An item of a LEFT JOIN is served by
/// the conjuncts of its own ON alone, and every other item by the common ones alone. Takes no
/// memory.
pub fn may_serve(bound: &Bound, conjunct: u32, item: u32) -> bool
    requires conjunct { conjunct < length bound.now.conjuncts.now }
    requires item { item < length bound.now.items.now }
    ensures { IsSomeAnd (slice_get (bound_of bound.now).conjuncts conjunct)
        (λ c. result ≡ meant.may_serve (bound_of bound.now) item c) }
{
    let owner = bound.conjuncts[conjunct as usize].owner;
    if bound.items[item as usize].left {
        owner == Some(item)
    } else {
        owner.is_none()
    }
}

/// Whether equalities for the item may be derived from the conjunct: it is common, and the item
/// isn't of a LEFT JOIN. Takes no memory.
pub fn may_derive(bound: &Bound, conjunct: u32, item: u32) -> bool
    requires conjunct { conjunct < length bound.now.conjuncts.now }
    requires item { item < length bound.now.items.now }
    ensures { IsSomeAnd (slice_get (bound_of bound.now).conjuncts conjunct)
        (λ c. result ≡ meant.may_derive (bound_of bound.now) item c) }
{
    bound.conjuncts[conjunct as usize].owner.is_none() && !bound.items[item as usize].left
}

/// Whether the conjunct is first known in the loop of the item, which stands inside those of the
/// placed items. Bit k of `placed` stands for item k. A common conjunct is first known in the loop
/// of the last item that it names, or in the first loop where it names none; that of a LEFT JOIN's
/// ON, in the loop of its item. Takes no memory.
pub fn first_at(bound: &Bound, conjunct: u32, placed: u64, item: u32) -> bool
    requires conjunct { conjunct < length bound.now.conjuncts.now }
    requires item { item < length bound.now.items.now }
    ensures { (items : List ℕ) → IsPlaced placed items
        → IsSomeAnd (slice_get (bound_of bound.now).conjuncts conjunct)
        (λ c. result ≡ meant.first_at items item c) }
{
    let tested = &bound.conjuncts[conjunct as usize];
    match tested.owner {
        Some(owner) => owner == item,
        None => is_known(expr_standing(tested.expr, placed, item), placed == 0),
    }
}

/// What an expression names.
#[derive(Clone, Copy)]
pub(crate) enum Standing {
    /// No item.
    Free,
    /// Placed items alone.
    Placed,
    /// The item of the loop, and besides it placed items alone.
    Here,
    /// An item that isn't placed, nor is it that of the loop.
    Open,
}

/// What two expressions name together.
fn farther(left: Standing, right: Standing) -> Standing
    ensures { result ≡ farther_of left right }
{
    match (left, right) {
        (Standing::Free, other) => other,
        (other, Standing::Free) => other,
        (Standing::Open, _) => Standing::Open,
        (_, Standing::Open) => Standing::Open,
        (Standing::Here, _) => Standing::Here,
        (_, Standing::Here) => Standing::Here,
        (Standing::Placed, Standing::Placed) => Standing::Placed,
    }
}

/// Whether a common conjunct is first known; `first` says that nothing is placed.
fn is_known(standing: Standing, first: bool) -> bool
    ensures { result ≡ known_by first standing }
{
    match standing {
        Standing::Free => first,
        Standing::Placed => false,
        Standing::Here => true,
        Standing::Open => false,
    }
}

fn item_standing(named: u32, placed: u64, item: u32) -> Standing
    ensures { result ≡ standing_of placed item named }
{
    if named == item {
        Standing::Here
    } else if is_placed(placed, named) {
        Standing::Placed
    } else {
        Standing::Open
    }
}

#[cycle(expr_standing)]
#[tactic(auto, using(crate::proofs::Members::seen_lists))]
fn expr_standing(expr: &BExpr, placed: u64, item: u32) -> Standing
    ensures { result ≡ standing_all placed item (names (expr_of expr.now)) }
{
    match expr {
        BExpr::Lit(_) => Standing::Free,
        BExpr::Param(_) => Standing::Free,
        BExpr::Column { item: named, .. } => item_standing(*named, placed, item),
        BExpr::Rowid { item: named } => item_standing(*named, placed, item),
        BExpr::Plus(inner) => expr_standing(inner, placed, item),
        BExpr::Collate(inner, _) => expr_standing(inner, placed, item),
        BExpr::Cmp { left, right, .. } => {
            farther(
                expr_standing(left, placed, item),
                expr_standing(right, placed, item),
            )
        }
        BExpr::OneOf { left, entries, .. } => {
            farther(
                expr_standing(left, placed, item),
                list_standing(entries, placed, item),
            )
        }
        BExpr::Like(_, left, pattern) => {
            farther(
                expr_standing(left, placed, item),
                expr_standing(pattern, placed, item),
            )
        }
        BExpr::IsNull(_, inner) => expr_standing(inner, placed, item),
        BExpr::Not(inner) => expr_standing(inner, placed, item),
        BExpr::All(members) => list_standing(members, placed, item),
        BExpr::Any(members) => list_standing(members, placed, item),
    }
}

#[cycle(expr_standing)]
fn list_standing(list: &BExprs, placed: u64, item: u32) -> Standing
    ensures { result ≡ standing_all placed item (all_names (members_of list.now)) }
{
    let mut all = Standing::Free;
    for member in list.members {
        all = farther(all, expr_standing(member, placed, item));
    }
    all
}
