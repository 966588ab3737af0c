//! The columns that a path walks in order.
ghost use Rattle.std.specs.Prelude.{◌≡◌, ◌<◌, map, length, slice_get, Some, None, [], false, fold};
ghost use Rattle.sql_meaning.specs.OrderState as meant;
ghost use Rattle.sql_bound.specs.Statements.{sort_key_of};
ghost use Rattle.loop_orders.specs.Walks.{ties_along, passing_of, leaves, position_of};
ghost use Rattle.loop_orders.specs.Walks.{plain_columns, plain_parts, pass_all};
ghost use Rattle.loop_orders.specs.Walks.{ties_by, column_position, is_held_by};
ghost use Rattle.schema_model.specs.PlainSchemas.{plain_index_column};
ghost use Rattle.plan_form.specs.Paths.{part_of};

use crate::held::{IndexWalk, column_or_rowid, is_one_key};
use crate::passing::{Passing, Position, pass_position};
use plan_form::EqPart;
use schema_model::IndexColumn;
use sql_value::Collation;

/// The rowid, which rises along a table, and among entries of an index that tie.
pub(crate) fn rowid_position(held: bool) -> Position
    ensures { position_of result ≡ meant.rowid_position held }
{
    Position {
        column: None,
        coll: Collation::Binary,
        desc: false,
        held,
    }
}

/// Whether a part holds the column of a number.
fn is_held_at(walk: &IndexWalk, number: usize) -> bool
    ensures { result ≡ is_held_by (slice_get (plain_parts walk.now) number) }
{
    match walk.parts.get(number) {
        Some(part) => is_one_key(part),
        None => false,
    }
}

fn column_at(walk: &IndexWalk, number: usize) -> IndexColumn
    requires { number < length walk.now.columns.now }
    ensures { slice_get (plain_columns walk.now) number ≡ Some (plain_index_column result) }
{
    walk.columns[number]
}

/// The position of an index's column.
fn position_of_column(alias: Option<u32>, column: IndexColumn, held: bool) -> Position
    ensures { position_of result ≡ column_position alias (plain_index_column column) held }
{
    Position {
        column: column_or_rowid(alias, column.column),
        coll: column.coll,
        desc: column.desc,
        held,
    }
}

/// The step at a position, unless the order is lost already.
fn pass_unless_lost<'k>(
    walk: &IndexWalk,
    position: Position,
    passing: Option<Passing<'k>>,
) -> Option<Passing<'k>>
    ensures { passing_of result ≡ meant.pass_position walk.now.item (ties_along walk.now)
        (passing_of passing.entry) (position_of position) }
{
    match passing {
        Some(passing) => pass_position(walk, position, passing),
        None => None,
    }
}

fn is_alias(alias: Option<u32>, column: u32) -> bool
    ensures { result ≡ meant.is_alias alias column }
{
    match alias {
        Some(alias) => alias == column,
        None => false,
    }
}

/// The steps along a walk: its columns up to the alias of the rowid, behind which nothing varies,
/// and else the rowid.
fn pass_along<'k>(walk: &IndexWalk, passing: Passing<'k>) -> Option<Passing<'k>>
    ensures { passing_of result ≡ pass_all walk.now (leaves passing.entry)
        (meant.index_positions walk.now.alias (plain_columns walk.now) (plain_parts walk.now)) }
{
    let mut left = Some(passing);
    for number in 0..walk.columns.len() {
        let column = column_at(walk, number);
        let position = position_of_column(walk.alias, column, is_held_at(walk, number));
        left = pass_unless_lost(walk, position, left);
        if is_alias(walk.alias, column.column) {
            return left;
        }
    }
    pass_unless_lost(walk, rowid_position(false), left)
}

/// The steps along an index, some of whose first columns parts hold.
pub(crate) fn pass_index<'k>(
    item: u32,
    alias: Option<u32>,
    columns: &[IndexColumn],
    parts: &[&EqPart],
    passing: Passing<'k>,
) -> Option<Passing<'k>>
    ensures { passing_of result ≡ fold (meant.pass_position item (ties_by item alias
        (map plain_index_column columns.now) (map (λ part. part_of part.now) parts.now)))
        (leaves passing.entry)
        (meant.index_positions alias (map plain_index_column columns.now)
        (map (λ part. part_of part.now) parts.now)) }
{
    let walk = IndexWalk {
        item,
        alias,
        columns,
        parts,
    };
    pass_along(&walk, passing)
}

/// The step along the rowid of a table.
pub(crate) fn pass_rowid<'k>(item: u32, passing: Passing<'k>) -> Option<Passing<'k>>
    ensures { passing_of result ≡ meant.pass_position item (ties_by item None [] [])
        (leaves passing.entry) (meant.rowid_position false) }
{
    let walk = IndexWalk {
        item,
        alias: None,
        columns: &[],
        parts: &[],
    };
    pass_position(&walk, rowid_position(false), passing)
}
