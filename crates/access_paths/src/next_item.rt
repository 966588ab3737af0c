//! An item that may come next in a join order, and what is looked up for it.
ghost use Rattle.std.specs.Prelude.{◌≡◌, ◌<◌, IfOk, IfSome, length, map, option_map, slice_get};
ghost use Rattle.std.specs.Prelude.{slice_index_or, [], false};
ghost use Rattle.sql_meaning.specs.Choices as choices;
ghost use Rattle.sql_meaning.specs.OrderState.{columns_at};
ghost use Rattle.schema_model.specs.PlainSchemas.{plain_index_column, plain_schema};
ghost use Rattle.where_terms.specs.Views.{column_terms_of, item_terms_of};
ghost use Rattle.plan_choice.specs.Offers as meant;
ghost use Rattle.plan_choice.specs.Settings as meant_settings;
ghost use Rattle.path_costs.specs.Due.{due_from};
ghost use Rattle.sql_bound.specs.Statements.{bound_of};
ghost use Rattle.sql_meaning.specs.Schemas.{alias_of};
ghost use Rattle.sql_meaning.specs.Statements as meant_statements;
ghost use Rattle.access_paths.specs.Settings.{setting_of, IsReady};
ghost use Rattle.access_paths.specs.Placed.{items_in};
ghost use Rattle.access_paths.specs.Supplies.{AreReady, ItemIsReady};
ghost use Rattle.access_paths.specs.Seeks.{seen_seek, told_seek, IsPlain};
ghost use Rattle.access_paths.specs.NextItems.{setting_for, IsNext};

use crate::Setting;
use crate::covering::has_columns;
use crate::found::Found;
use crate::seeks::{index_seek, rowid_seek};
use crate::supply::Supply;
use bumpalo::Bump;
use schema_model::{IndexColumn, Schema};
use sql_bound::Bound;
use sql_value::Memory;
use std::alloc::Global;
use where_terms::{ColumnTerms, ItemTerms};

/// An item that may come next, once others are placed.
#[derive(Clone, Copy)]
pub(crate) struct NextItem<'d, 's, 'p> {
    pub setting: Setting<'s, 'p>,
    pub item: u32,
    /// Bit k stands for item k.
    pub placed: u64,
    /// The number of its table.
    pub table: u32,
    /// The column of the table that is its rowid.
    pub alias: Option<u32>,
    /// The table's usable indexes.
    pub indexes: &'s [u32],
    /// The conjuncts that can first be evaluated with the item.
    pub due: &'d [u32],
}

fn index_columns(schema: &Schema, index: u32) -> &[IndexColumn]
    requires { index < length schema.now.indexes }
    ensures { map plain_index_column result.now
        ≡ columns_at (slice_get (plain_schema schema.now).indexes index) }
{
    schema.index(index).columns.as_slice()
}

fn needs<'p>(next: &NextItem<'_, '_, 'p>) -> &'p [u32]
    ensures { result.now ≡ slice_index_or (setting_for next.now).needs next.now.item [] }
{
    match next.setting.bound.needs.get(next.item as usize) {
        Some(columns) => columns,
        None => &[],
    }
}

/// Whether the index has all columns that the statement needs of the item.
pub(crate) fn is_covering(next: &NextItem, index: u32) -> bool
    requires { index < length next.now.setting.schema.now.indexes }
    ensures { result ≡ meant.covers (setting_for next.now) next.now.item index }
{
    has_columns(index_columns(next.setting.schema, index), needs(next))
}

/// The seek in an index by these terms.
pub(crate) fn seek_in<'p>(
    alloc: Global,
    arena: &'p Bump,
    next: &NextItem<'_, '_, 'p>,
    columns: &'p [ColumnTerms<'p>],
    index: u32,
    covering: bool,
) -> Result<Option<Found<'p>>, Memory>
    requires next { IsNext next.now }
    requires index { index < length next.now.setting.schema.now.indexes }
    requires columns { AreReady columns.now }
    ensures told { IfOk result (λ found. option_map seen_seek found
        ≡ option_map (told_seek covering) (meant.seek_by (setting_for next.now)
        (items_in next.now.placed) next.now.item (map column_terms_of columns.now) index)) }
    ensures plain { IfOk result (λ found. IfSome found (IsPlain covering)) }
{
    let supply = Supply {
        columns,
        placed: next.placed,
        alias: next.alias,
        unordered: next.setting.figures.unordered(index),
    };
    let own = index_columns(next.setting.schema, index);
    let found = index_seek(alloc, arena, &supply, own, index, covering)?;
    Ok(found)
}

/// The seek by rowid by these terms.
pub(crate) fn seek_rowid<'p>(
    alloc: Global,
    arena: &'p Bump,
    next: &NextItem<'_, '_, 'p>,
    columns: &'p [ColumnTerms<'p>],
) -> Result<Option<Found<'p>>, Memory>
    requires columns { AreReady columns.now }
    ensures told { IfOk result (λ found. option_map seen_seek found ≡ option_map (told_seek false)
        (choices.rowid_offer (items_in next.now.placed) (map column_terms_of columns.now))) }
    ensures plain { IfOk result (λ found. IfSome found (IsPlain false)) }
{
    let supply = Supply {
        columns,
        placed: next.placed,
        alias: next.alias,
        unordered: false,
    };
    let found = rowid_seek(alloc, arena, &supply)?;
    Ok(found)
}

fn table_alias(schema: &Schema, table: u32) -> Option<u32>
    requires { table < length schema.now.tables }
    ensures { result ≡ alias_of (slice_get (plain_schema schema.now).tables table) }
{
    schema.table(table).alias
}

fn table_of(bound: &Bound, item: u32) -> u32
    requires { item < length bound.now.items.now }
    ensures { result ≡ meant_statements.table_of (slice_get (bound_of bound.now).items item) }
{
    bound.items[item as usize].table
}

/// An item with what is looked up for it.
pub(crate) fn next_item<'d, 's, 'p>(
    setting: &Setting<'s, 'p>,
    item: u32,
    placed: u64,
    due: &'d [u32],
) -> NextItem<'d, 's, 'p>
    requires ready { IsReady setting.now }
    requires item { item < length (bound_of setting.now.bound.now).items }
    requires due { due.now
        ≡ due_from (items_in placed) item 0 (bound_of setting.now.bound.now).conjuncts }
    ensures next { IsNext result }
    ensures setting { result.setting ≡ setting.now }
    ensures item { result.item ≡ item }
    ensures placed { result.placed ≡ placed }
{
    let table = table_of(setting.bound, item);
    NextItem {
        setting: *setting,
        item,
        placed,
        table,
        alias: table_alias(setting.schema, table),
        indexes: setting.indexes.on(table),
        due,
    }
}

/// The terms of an item.
pub(crate) fn terms_of_item<'p>(setting: &Setting<'_, 'p>, item: u32) -> ItemTerms<'p>
    requires ready { IsReady setting.now }
    requires item { item < length (bound_of setting.now.bound.now).items }
    ensures terms { item_terms_of result ≡ meant_settings.terms_for (setting_of setting.now) item }
    ensures ready { ItemIsReady result }
{
    setting.terms.items[item as usize]
}
