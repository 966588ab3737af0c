//! Keys by which all rows of a walk tie.
ghost use Rattle.std.specs.Prelude.{◌≡◌, map, slice_get};
ghost use Rattle.sql_meaning.specs.OrderState as meant;
ghost use Rattle.sql_value.specs.View.{plain_collation};
ghost use Rattle.schema_model.specs.PlainSchemas.{plain_index_column};
ghost use Rattle.sql_bound.specs.Columns.{site_of};
ghost use Rattle.sql_bound.specs.Statements.{sort_key_of};
ghost use Rattle.plan_form.specs.Paths.{part_of};
ghost use Rattle.loop_orders.specs.Walks.{held_by, plain_columns, plain_parts, ties_along};

use plan_form::EqPart;
use schema_model::IndexColumn;
use sql_bound::{BKey, bare_column, is_same_column};
use sql_value::{Collation, is_same_collation};

/// The walk of an item along an index, some of whose first columns equality parts hold.
#[derive(Clone, Copy)]
pub(crate) struct IndexWalk<'p> {
    pub item: u32,
    /// The column of the item's table that is its rowid.
    pub alias: Option<u32>,
    pub columns: &'p [IndexColumn],
    pub parts: &'p [&'p EqPart<'p>],
}

/// Whether the part holds one key, so that its column doesn't vary.
pub(crate) fn is_one_key(part: &EqPart) -> bool
    ensures { result ≡ meant.is_one_key (part_of part.now) }
{
    match part {
        EqPart::One(_) => true,
        EqPart::Many(_) => false,
        EqPart::Null => true,
    }
}

/// A column of a table, or its rowid where the column is the alias of that.
pub(crate) fn column_or_rowid(alias: Option<u32>, column: u32) -> Option<u32>
    ensures { site_of result ≡ meant.column_site alias column }
{
    match alias {
        Some(alias) if alias == column => None,
        _ => Some(column),
    }
}

/// Whether the part of a number holds this column under this collation.
fn part_holds(walk: &IndexWalk, number: usize, column: Option<u32>, coll: Collation) -> bool
    ensures { result ≡ held_by walk.now.alias (slice_get (plain_columns walk.now) number)
        (slice_get (plain_parts walk.now) number) (site_of column) (plain_collation coll) }
{
    match (walk.columns.get(number), walk.parts.get(number)) {
        (Some(own), Some(part)) => {
            is_one_key(part)
                && is_same_column(column_or_rowid(walk.alias, own.column), column)
                && is_same_collation(own.coll, coll)
        }
        _ => false,
    }
}

/// Whether one key, or IS NULL, holds this column under this collation.
fn is_held(walk: &IndexWalk, column: Option<u32>, coll: Collation) -> bool
    ensures { result ≡ meant.part_held walk.now.alias (plain_columns walk.now)
        (plain_parts walk.now) (site_of column) (plain_collation coll) }
{
    for number in 0..walk.parts.len() {
        if part_holds(walk, number, column, coll) {
            return true;
        }
    }
    false
}

/// Whether all rows of the walk tie by the key.
fn ties(walk: &IndexWalk, key: &BKey) -> bool
    ensures { result ≡ ties_along walk.now (sort_key_of key.now) }
{
    match bare_column(key.expr) {
        Some(found) => found.item == walk.item && is_held(walk, found.column, key.coll),
        None => false,
    }
}

/// The keys without the first ones by which all rows of the walk tie.
pub(crate) fn without_ties<'k>(walk: &IndexWalk, keys: &'k [BKey<'k>]) -> &'k [BKey<'k>]
    ensures { map sort_key_of result.now ≡ meant.drop_held (ties_along walk.now)
        (map sort_key_of keys.now) }
{
    for (number, key) in keys.iter().enumerate() {
        if !ties(walk, key) {
            return &keys[number..];
        }
    }
    &[]
}
