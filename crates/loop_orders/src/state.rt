//! The order state of nested loops.
ghost use Rattle.std.specs.Prelude.{◌≡◌, ◌<◌, map, length, slice_get, None, [], false, fold};
ghost use Rattle.std.specs.List.{AllByRecursion};
ghost use Rattle.sql_meaning.specs.Fitting.{PathFits};
ghost use Rattle.sql_meaning.specs.OrderState as meant;
ghost use Rattle.schema_model.specs.PlainSchemas.{plain_schema};
ghost use Rattle.sql_bound.specs.Statements.{bound_of, sort_key_of};
ghost use Rattle.plan_form.specs.Paths.{path_of, part_of};
ghost use Rattle.loop_orders.specs.Walks.{passing_of, state_of, loop_by, ties_by, rowids_pass};
ghost use Rattle.sql_meaning.specs.Schemas.{alias_of};
ghost use Rattle.sql_meaning.specs.Statements as meant_statements;
ghost use Rattle.schema_model.specs.PlainSchemas.{plain_index_column};

use crate::held::is_one_key;
use crate::passing::{Passing, without_item};
use crate::positions::{pass_index, pass_rowid};
use plan_form::{EqPart, Path};
use schema_model::{IndexColumn, Schema};
use sql_bound::{BItem, BKey, Bound};

/// How far the loops so far give the order of ORDER BY.
#[derive(Clone, Copy)]
pub enum OrderState<'k> {
    /// The rows come in order, whatever the loops inside do.
    Done,
    /// The plan must sort.
    Lost,
    /// Each loop so far gives no two rows that tie, and these keys are left, one at least.
    Open(&'k [BKey<'k>]),
}

/// The state where these keys are left.
fn open_for<'k>(keys: &'k [BKey<'k>]) -> OrderState<'k>
    ensures { state_of result ≡ meant.open_for (map sort_key_of keys.now) }
{
    match keys {
        [] => OrderState::Done,
        _ => OrderState::Open(keys),
    }
}

/// The state before the first loop. Takes no memory.
pub fn first_state<'k>(bound: &Bound<'k>) -> OrderState<'k>
    ensures { state_of result ≡ meant.open_for (bound_of bound.now).keys }
{
    open_for(bound.keys)
}

fn table_alias(schema: &Schema, item: &BItem) -> Option<u32>
    requires { item.now.table < length schema.now.tables }
    ensures { result ≡ alias_of (slice_get (plain_schema schema.now).tables item.now.table) }
{
    schema.table(item.table).alias
}

/// The column of the item's table that is its rowid.
fn item_alias(schema: &Schema, bound: &Bound, item: u32) -> Option<u32>
    requires tables { AllByRecursion (λ i. i.table < length schema.now.tables)
        (bound_of bound.now).items }
    requires item { item < length (bound_of bound.now).items }
    ensures { result ≡ meant_statements.item_alias (plain_schema schema.now) (bound_of bound.now)
        item }
{
    table_alias(schema, &bound.items[item as usize])
}

fn index_columns(schema: &Schema, index: u32) -> &[IndexColumn]
    requires { index < length schema.now.indexes }
    ensures { map plain_index_column result.now
        ≡ meant.columns_at (slice_get (plain_schema schema.now).indexes index) }
{
    schema.index(index).columns.as_slice()
}

/// What a walk along an index makes of keys.
fn scan_passes<'k>(
    schema: &Schema,
    item: u32,
    alias: Option<u32>,
    index: u32,
    parts: &[&EqPart],
    keys: &'k [BKey<'k>],
) -> Option<Passing<'k>>
    requires { index < length schema.now.indexes }
    ensures { passing_of result ≡ fold (meant.pass_position item (ties_by item alias
        (meant.columns_at (slice_get (plain_schema schema.now).indexes index))
        (map (λ part. part_of part.now) parts.now)))
        (meant.Leaves (map sort_key_of keys.now) None)
        (meant.index_positions alias
        (meant.columns_at (slice_get (plain_schema schema.now).indexes index))
        (map (λ part. part_of part.now) parts.now)) }
{
    let passing = Passing {
        keys,
        direction: None,
    };
    pass_index(item, alias, index_columns(schema, index), parts, passing)
}

/// What a walk along the rowid makes of keys.
fn rowid_passes<'k>(item: u32, keys: &'k [BKey<'k>]) -> Option<Passing<'k>>
    ensures { passing_of result ≡ meant.pass_position item (ties_by item None [] [])
        (meant.Leaves (map sort_key_of keys.now) None) (meant.rowid_position false) }
{
    let passing = Passing {
        keys,
        direction: None,
    };
    pass_rowid(item, passing)
}

/// What a seek of rowids makes of keys: of one rowid, it gives one row at most.
fn seek_passes<'k>(item: u32, part: &EqPart, keys: &'k [BKey<'k>]) -> Option<Passing<'k>>
    ensures { passing_of result ≡ rowids_pass item (part_of part.now) (map sort_key_of keys.now) }
{
    if !is_one_key(part) {
        return rowid_passes(item, keys);
    }
    Some(Passing {
        keys: without_item(item, keys),
        direction: None,
    })
}

/// What a walk of the item by the path makes of these keys. None where the order is lost.
fn path_passes<'k>(
    schema: &Schema,
    bound: &Bound,
    item: u32,
    path: &Path,
    keys: &'k [BKey<'k>],
) -> Option<Passing<'k>>
    requires tables { AllByRecursion (λ i. i.table < length schema.now.tables)
        (bound_of bound.now).items }
    requires item { item < length (bound_of bound.now).items }
    requires fits { PathFits (plain_schema schema.now) (bound_of bound.now) item
        (path_of path.now) }
    ensures { passing_of result ≡ meant.loop_passes (plain_schema schema.now)
        (bound_of bound.now) (loop_by item (path_of path.now)) (map sort_key_of keys.now) }
{
    let alias = item_alias(schema, bound, item);
    match path {
        Path::TableScan => rowid_passes(item, keys),
        Path::RowidEq(part) => seek_passes(item, part, keys),
        Path::RowidRange(..) => rowid_passes(item, keys),
        Path::IndexScan { index, .. } => scan_passes(schema, item, alias, *index, &[], keys),
        Path::IndexSeek { index, eqs, .. } => {
            scan_passes(schema, item, alias, *index, eqs.parts, keys)
        }
        Path::Union(_) => None,
    }
}

/// The state after one loop more, inside those so far. Takes no memory.
pub fn pass_loop<'k>(
    schema: &Schema,
    bound: &Bound,
    state: OrderState<'k>,
    item: u32,
    path: &Path,
) -> OrderState<'k>
    requires tables { AllByRecursion (λ i. i.table < length schema.now.tables)
        (bound_of bound.now).items }
    requires item { item < length (bound_of bound.now).items }
    requires fits { PathFits (plain_schema schema.now) (bound_of bound.now) item
        (path_of path.now) }
    ensures { state_of result ≡ meant.pass_loop (plain_schema schema.now)
        (bound_of bound.now) (state_of state.entry) (loop_by item (path_of path.now)) }
{
    match state {
        OrderState::Done => OrderState::Done,
        OrderState::Lost => OrderState::Lost,
        OrderState::Open(keys) => match path_passes(schema, bound, item, path, keys) {
            Some(passing) => open_for(passing.keys),
            None => OrderState::Lost,
        },
    }
}

/// Whether a loop that comes in this state walks backward, where the order is given by the loops.
/// Takes no memory.
pub fn walks_backward(
    schema: &Schema,
    bound: &Bound,
    state: OrderState,
    item: u32,
    path: &Path,
) -> bool
    requires tables { AllByRecursion (λ i. i.table < length schema.now.tables)
        (bound_of bound.now).items }
    requires item { item < length (bound_of bound.now).items }
    requires fits { PathFits (plain_schema schema.now) (bound_of bound.now) item
        (path_of path.now) }
    ensures { result ≡ meant.direction (plain_schema schema.now) (bound_of bound.now)
        (state_of state.entry) (loop_by item (path_of path.now)) }
{
    match state {
        OrderState::Done => false,
        OrderState::Lost => false,
        OrderState::Open(keys) => match path_passes(schema, bound, item, path, keys) {
            Some(passing) => passing.direction == Some(true),
            None => false,
        },
    }
}

/// Done 0, lost 1, and open 2 more than the number of keys that are passed. Takes no memory.
pub fn order_number(bound: &Bound, state: OrderState) -> u64
    ensures { result ≡ meant.state_number (bound_of bound.now).keys (state_of state.entry) }
{
    match state {
        OrderState::Done => 0,
        OrderState::Lost => 1,
        OrderState::Open(left) => 2 + bound.keys.len().saturating_sub(left.len()) as u64,
    }
}
