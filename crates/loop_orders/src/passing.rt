//! The step at a column that a walk goes along.
ghost use Rattle.std.specs.Prelude.{◌≡◌, map};
ghost use Rattle.sql_meaning.specs.OrderState as meant;
ghost use Rattle.sql_meaning.specs.Orders as orders;
ghost use Rattle.sql_meaning.specs.Expressions as expressions;
ghost use Rattle.sql_bound.specs.Statements.{sort_key_of};
ghost use Rattle.loop_orders.specs.Walks.{ties_along, passing_of, leaves, position_of};

use crate::columns::{is_column, is_of_item};
use crate::held::{IndexWalk, without_ties};
use sql_bound::BKey;
use sql_value::Collation;

/// A column that a path walks in order; none is the rowid.
#[derive(Clone, Copy)]
pub(crate) struct Position {
    pub column: Option<u32>,
    pub coll: Collation,
    pub desc: bool,
    /// Whether one key holds it, so that it doesn't vary.
    pub held: bool,
}

/// The keys that a walk has not given so far, and the direction that it has to take, once a key
/// fixed one: true for backward.
#[derive(Clone, Copy)]
pub(crate) struct Passing<'k> {
    pub keys: &'k [BKey<'k>],
    pub direction: Option<bool>,
}

/// Whether the walk may take the direction.
fn agrees(direction: Option<bool>, needed: bool) -> bool
    ensures { result ≡ meant.agrees direction needed }
{
    match direction {
        Some(direction) => direction == needed,
        None => true,
    }
}

/// Whether the key is the column of the position.
fn matches(item: u32, position: Position, key: &BKey) -> bool
    ensures { result ≡ meant.key_matches item (position_of position) (sort_key_of key.now) }
{
    is_column(key, item, position.column, position.coll)
}

/// Whether the position goes the key's way only in a walk that is reversed.
fn needs_backward(position: Position, key: &BKey) -> bool
    ensures { result ≡ meant.needs_backward (position_of position) (sort_key_of key.now) }
{
    key.desc != position.desc
}

/// A held position is passed; another one gives the next key, if that is its column and goes along.
/// None where the order is lost.
pub(crate) fn pass_next<'k>(
    item: u32,
    position: Position,
    passing: Passing<'k>,
) -> Option<Passing<'k>>
    ensures { passing_of result ≡ meant.pass_next item (position_of position)
        passing.entry.direction (map sort_key_of passing.entry.keys.now) }
{
    let (key, rest) = match passing.keys {
        [] => return Some(passing),
        [key, rest @ ..] => (key, rest),
    };
    if position.held {
        return Some(passing);
    }
    let needed = needs_backward(position, key);
    if matches(item, position, key) && agrees(passing.direction, needed) {
        Some(Passing {
            keys: rest,
            direction: Some(needed),
        })
    } else {
        None
    }
}

/// The step at a position: keys by which all rows tie are passed, and then at most one more.
pub(crate) fn pass_position<'k>(
    walk: &IndexWalk,
    position: Position,
    passing: Passing<'k>,
) -> Option<Passing<'k>>
    ensures { passing_of result ≡ meant.pass_position walk.now.item (ties_along walk.now)
        (leaves passing.entry) (position_of position) }
{
    let left = Passing {
        keys: without_ties(walk, passing.keys),
        direction: passing.direction,
    };
    pass_next(walk.item, position, left)
}

/// The keys without the first ones that are columns of the item.
pub(crate) fn without_item<'k>(item: u32, keys: &'k [BKey<'k>]) -> &'k [BKey<'k>]
    ensures { map sort_key_of result.now ≡ meant.drop_held
        (λ k. meant.on_item item (expressions.bare_column k.expr)) (map sort_key_of keys.now) }
{
    for (number, key) in keys.iter().enumerate() {
        if !is_of_item(key, item) {
            return &keys[number..];
        }
    }
    &[]
}
