//! The offers of an item, one by one.
ghost use Rattle.std.specs.Prelude.{◌≡◌, ◌<◌, ◌||◌, IfOk, false, length, map};
ghost use Rattle.std.specs.List.{AllByRecursion};
ghost use Rattle.sql_meaning.specs.Choices as choices;
ghost use Rattle.sql_meaning.specs.Paths as plain;
ghost use Rattle.sql_bound.specs.Statements.{sort_key_of};
ghost use Rattle.plan_choice.specs.Offers as meant;
ghost use Rattle.plan_form.specs.Paths.{path_of, branches_of as seen_branches};
ghost use Rattle.plan_form.specs.Plans.{covers};
ghost use Rattle.where_terms.specs.Views.{branches_of, column_terms_of};
ghost use Rattle.access_paths.specs.Placed.{items_in};
ghost use Rattle.access_paths.specs.Supplies.{AreReady};
ghost use Rattle.access_paths.specs.NextItems.{setting_for, IsNext};
ghost use Rattle.access_paths.specs.Offers.{seen_offer, told_offer};
ghost use Rattle.access_paths.specs.Listed.{seen_one, told_offers};

use crate::Offer;
use crate::branches::branch_paths;
use crate::next_item::{NextItem, is_covering, seek_in, seek_rowid};
use crate::offer::priced;
use bumpalo::Bump;
use plan_form::{Path, Paths};
use sql_bound::{BKey, bare_column};
use sql_tree::place;
use sql_value::Memory;
use std::alloc::Global;
use where_terms::ColumnTerms;

/// The scan of the table.
pub(crate) fn table_scan<'p>(
    arena: &'p Bump,
    next: &NextItem<'_, '_, 'p>,
) -> Result<Offer<'p>, Memory>
    requires { IsNext next.now }
    ensures { IfOk result (λ offer. seen_offer offer ≡ told_offer (meant.scan_by
        (setting_for next.now) (items_in next.now.placed) next.now.item plain.TableScan false)) }
{
    let path = place(arena, Path::TableScan)?;
    Ok(priced(next, path, &[]))
}

/// The seek by rowid, where a term may be used.
pub(crate) fn rowid_seek_offer<'p>(
    alloc: Global,
    arena: &'p Bump,
    next: &NextItem<'_, '_, 'p>,
    columns: &'p [ColumnTerms<'p>],
) -> Result<Option<Offer<'p>>, Memory>
    requires next { IsNext next.now }
    requires columns { AreReady columns.now }
    ensures { IfOk result (λ offer. seen_one offer ≡ told_offers (meant.rowid_offers
        (setting_for next.now) (items_in next.now.placed) next.now.item
        (choices.rowid_offer (items_in next.now.placed) (map column_terms_of columns.now)))) }
{
    let found = seek_rowid(alloc, arena, next, columns)?;
    match found {
        Some(seek) => Ok(Some(priced(next, seek.path, seek.consumed))),
        None => Ok(None),
    }
}

/// Whether ORDER BY begins with a column of the item.
fn is_first_key(item: u32, keys: &[BKey]) -> bool
    ensures { result ≡ meant.is_first_key item (map sort_key_of keys.now) }
{
    match keys {
        [] => false,
        [first, ..] => match bare_column(first.expr) {
            Some(found) => found.item == item,
            None => false,
        },
    }
}

/// The scan of an index, where that saves the table or a sort.
fn index_scan<'p>(
    arena: &'p Bump,
    next: &NextItem<'_, '_, 'p>,
    index: u32,
    covering: bool,
) -> Result<Option<Offer<'p>>, Memory>
    requires { IsNext next.now }
    ensures { IfOk result (λ offer. seen_one offer ≡ told_offers (meant.index_scans
        (setting_for next.now) (items_in next.now.placed) next.now.item index covering
        (covering || meant.is_first_key next.now.item (setting_for next.now).bound.keys))) }
{
    if !covering && !is_first_key(next.item, next.setting.bound.keys) {
        return Ok(None);
    }
    let path = place(arena, Path::IndexScan { index, covering })?;
    Ok(Some(priced(next, path, &[])))
}

/// The seek in an index, or its scan where no term may be used.
pub(crate) fn index_offer<'p>(
    alloc: Global,
    arena: &'p Bump,
    next: &NextItem<'_, '_, 'p>,
    columns: &'p [ColumnTerms<'p>],
    index: u32,
) -> Result<Option<Offer<'p>>, Memory>
    requires next { IsNext next.now }
    requires index { index < length next.now.setting.schema.now.indexes }
    requires columns { AreReady columns.now }
    ensures { IfOk result (λ offer. seen_one offer ≡ told_offers (meant.seek_or_scan
        (setting_for next.now) (items_in next.now.placed) next.now.item index
        (meant.covers (setting_for next.now) next.now.item index)
        (meant.seek_by (setting_for next.now) (items_in next.now.placed) next.now.item
        (map column_terms_of columns.now) index))) }
{
    let covering = is_covering(next, index);
    let found = seek_in(alloc, arena, next, columns, index, covering)?;
    match found {
        Some(seek) => Ok(Some(priced(next, seek.path, seek.consumed))),
        None => index_scan(arena, next, index, covering),
    }
}

#[tactic(auto, using(plan_form::proofs::PathViews::seen_paths))]
fn place_union<'p>(arena: &'p Bump, paths: Paths<'p>) -> Result<&'p Path<'p>, Memory>
    ensures path { IfOk result (λ path. path_of path.now ≡ plain.Union (seen_branches paths.entry)) }
    ensures covering { IfOk result (λ path. covers path.now ≡ false) }
{
    let path = place(arena, Path::Union(paths))?;
    Ok(path)
}

/// The union of a seek for each branch of an OR, where each has one. It consumes nothing.
pub(crate) fn union_offer<'p>(
    alloc: Global,
    arena: &'p Bump,
    next: &NextItem<'_, '_, 'p>,
    branches: &'p [&'p [ColumnTerms<'p>]],
) -> Result<Option<Offer<'p>>, Memory>
    requires next { IsNext next.now }
    requires branches { AllByRecursion (λ columns. AreReady columns.now) branches.now }
    ensures { IfOk result (λ offer. seen_one offer ≡ told_offers (meant.union_offers
        (setting_for next.now) (items_in next.now.placed) next.now.item
        (meant.union_seeks (setting_for next.now) (items_in next.now.placed) next.now.item
        (branches_of branches.now)))) }
{
    let found = branch_paths(alloc, arena, next, branches)?;
    let Some(paths) = found else {
        return Ok(None);
    };
    let path = place_union(arena, paths)?;
    Ok(Some(priced(next, path, &[])))
}
