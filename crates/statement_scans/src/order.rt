//! The columns of ORDER BY.
ghost use Rattle.std.specs.Prelude.{◌≡◌, IfOk, Some, map, option_map};
ghost use Rattle.plan_choice.specs.Scans as meant;
ghost use Rattle.schema_model.specs.PlainSchemas.{plain_index_column};
ghost use Rattle.sql_bound.specs.Statements.{bound_of, sort_key_of};
ghost use Rattle.statement_scans.specs.Orders.{asked_list, key_step, joined, list_if};

use crate::columns::each_once;
use schema_model::{IndexColumn, IndexColumns};
use sql_bound::{BKey, Bound, bare_column};
use sql_value::{Items, Memory};
use std::alloc::Global;

/// What a key asks of an item's index.
#[derive(Clone, Copy)]
pub(crate) enum KeyColumn {
    /// This column.
    Column(IndexColumn),
    /// Nothing, since entries that tie rise by rowid.
    Given,
    /// What no index of the item gives.
    Foreign,
}

/// What a key asks, which may be the last one.
fn key_column(key: &BKey, item: u32, is_last: bool) -> KeyColumn
    ensures { asked_list result ≡ key_step item (sort_key_of key.now) is_last }
{
    let Some(c) = bare_column(key.expr) else {
        return KeyColumn::Foreign;
    };
    if c.item != item {
        return KeyColumn::Foreign;
    }
    match c.column {
        Some(column) => KeyColumn::Column(IndexColumn {
            column,
            coll: key.coll,
            desc: key.desc,
        }),
        None => {
            if is_last && !key.desc {
                KeyColumn::Given
            } else {
                KeyColumn::Foreign
            }
        }
    }
}

/// Appends the column that a key asks, if it asks one; whether an index of the item may give it.
fn push_key(list: &mut IndexColumns, asked: KeyColumn) -> Result<bool, Memory>
    ensures { IfOk result (λ given. list_if given (map plain_index_column list.new)
        ≡ joined (Some (map plain_index_column list.old)) (asked_list asked)) }
{
    match asked {
        KeyColumn::Column(column) => {
            list.push(column)?;
            Ok(true)
        }
        KeyColumn::Given => Ok(true),
        KeyColumn::Foreign => Ok(false),
    }
}

/// The columns of all keys; none where an index of the item can't give them.
fn key_columns(alloc: Global, keys: &[BKey], item: u32) -> Result<Option<IndexColumns>, Memory>
    ensures { IfOk result (λ list. option_map (map plain_index_column) list
        ≡ meant.key_columns item (map sort_key_of keys.now)) }
{
    let mut list = Items::new(alloc);
    for place in 0..keys.len() {
        let asked = key_column(&keys[place], item, place + 1 == keys.len());
        if !push_key(&mut list, asked)? {
            return Ok(None);
        }
    }
    Ok(Some(list))
}

/// The columns that ORDER BY asks of an item, where all its keys are columns of it. A last key that
/// is the rowid and rises asks nothing.
pub(crate) fn order_columns(alloc: Global, bound: &Bound, item: u32) -> Result<IndexColumns, Memory>
    ensures { IfOk result (λ list. map plain_index_column list
        ≡ meant.order_columns (bound_of bound.now) item) }
{
    match key_columns(alloc, bound.keys, item)? {
        Some(list) => each_once(alloc, list.as_slice()),
        None => Ok(Items::new(alloc)),
    }
}
