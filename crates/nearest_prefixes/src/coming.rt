//! Which items may come next in a join order.
ghost use Rattle.std.specs.Prelude.{◌≡◌, ◌<◌, ◌≤◌, ◌||◌, ℕ, List, length, not, slice_get};
ghost use Rattle.std.specs.List.{filter};
ghost use Rattle.sql_meaning.specs.Statements.{all_in, is_left, numbers_from};
ghost use Rattle.plan_choice.specs.Prefixes as meant;
ghost use Rattle.sql_bound.specs.Naming.{IsPlaced, has_item};
ghost use Rattle.sql_bound.specs.Statements.{bound_of};

use sql_bound::Bound;

/// Whether the item is placed.
fn is_placed(placed: u64, item: u32) -> bool
    ensures { result ≡ has_item placed item }
{
    item < u64::BITS && (placed >> item) & 1 == 1
}

/// Whether all items to the left are placed.
fn all_placed(placed: u64, item: u32) -> bool
    ensures { (items : List ℕ) → IsPlaced placed items
        → result ≡ all_in (numbers_from 0 item) items }
{
    for other in 0..item {
        if !is_placed(placed, other) {
            return false;
        }
    }
    true
}

/// Whether the item is placed, if it is a LEFT one.
fn is_settled(bound: &Bound, placed: u64, item: u32) -> bool
    requires item { item < length (bound_of bound.now).items }
    ensures { result ≡ (not (is_left (bound_of bound.now) item) || has_item placed item) }
{
    !bound.items[item as usize].left || is_placed(placed, item)
}

/// Whether all LEFT items to the left are placed.
fn left_placed(bound: &Bound, placed: u64, item: u32) -> bool
    requires item { item ≤ length (bound_of bound.now).items }
    ensures { (items : List ℕ) → IsPlaced placed items
        → result ≡ all_in (filter (is_left (bound_of bound.now)) (numbers_from 0 item)) items }
{
    for other in 0..item {
        if !is_settled(bound, placed, other) {
            return false;
        }
    }
    true
}

/// Whether the item comes after CROSS JOIN or LEFT JOIN.
fn stays_right(bound: &Bound, item: u32) -> bool
    requires item { item < length (bound_of bound.now).items }
    ensures { result ≡ meant.stays_right (slice_get (bound_of bound.now).items item) }
{
    let own = &bound.items[item as usize];
    own.cross || own.left
}

/// Whether the item may come next, once others are placed, where bit k of `placed` stands for item
/// k. It isn't placed; all LEFT items to its left are; and if it comes after CROSS JOIN or LEFT
/// JOIN, so are all items to its left. Takes no memory.
pub fn may_come(bound: &Bound, placed: u64, item: u32) -> bool
    requires item { item < length (bound_of bound.now).items }
    ensures { (items : List ℕ) → IsPlaced placed items
        → result ≡ meant.may_come (bound_of bound.now) items item }
{
    !is_placed(placed, item)
        && (!stays_right(bound, item) || all_placed(placed, item))
        && left_placed(bound, placed, item)
}
