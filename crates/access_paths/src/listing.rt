//! The offers of an item.
ghost use Rattle.std.specs.Prelude.{◌≡◌, ◌<◌, ◌++◌, ◌∷◌, IfOk, OnOk, false, map, length, List, ℕ};
ghost use Rattle.sql_meaning.specs.Choices.{rowid_offer};
ghost use Rattle.sql_meaning.specs.Paths.{TableScan};
ghost use Rattle.std.specs.List.{AllByRecursion, flat_map};
ghost use Rattle.plan_choice.specs.Offers as meant;
ghost use Rattle.plan_choice.specs.Settings as meant_settings;
ghost use Rattle.path_costs.specs.Due.{due_from};
ghost use Rattle.sql_bound.specs.Naming.{IsPlaced};
ghost use Rattle.sql_bound.specs.Statements.{bound_of};
ghost use Rattle.where_terms.specs.Views.{column_terms_of, item_terms_of, or_term_of};
ghost use Rattle.access_paths.specs.Placed.{items_in};
ghost use Rattle.access_paths.specs.Supplies.{AreReady, ItemIsReady, OrIsReady};
ghost use Rattle.access_paths.specs.Settings.{setting_of, IsReady};
ghost use Rattle.access_paths.specs.NextItems.{setting_for, IsNext};
ghost use Rattle.access_paths.specs.Offers.{seen_offer, told_offer};
ghost use Rattle.access_paths.specs.Listed.{seen_one, told_offers, told_index, told_union};

use crate::item_offers::{index_offer, rowid_seek_offer, table_scan, union_offer};
use crate::next_item::{NextItem, next_item, terms_of_item};
use crate::{Offer, Setting};
use bumpalo::Bump;
use bumpalo::collections::into_bump_slice;
use path_costs::due_conjuncts;
use sql_value::{Memory, push};
use std::alloc::Global;
use where_terms::{ColumnTerms, ItemTerms, OrTerm};

fn push_offer<'p>(
    made: &mut Vec<Offer<'p>, &'p Bump>,
    offer: Option<Offer<'p>>,
) -> Result<(), Memory>
    ensures { OnOk result (map seen_offer made.new.items
        ≡ map seen_offer made.old.items ++ seen_one offer.entry) }
{
    match offer {
        Some(offer) => push(made, offer),
        None => Ok(()),
    }
}

/// The scan of the table, and the seek by rowid.
fn offers_by_rowid<'p>(
    alloc: Global,
    arena: &'p Bump,
    next: &NextItem<'_, '_, 'p>,
    columns: &'p [ColumnTerms<'p>],
) -> Result<Vec<Offer<'p>, &'p Bump>, Memory>
    requires next { IsNext next.now }
    requires columns { AreReady columns.now }
    ensures { IfOk result (λ made. map seen_offer made.items
        ≡ told_offer (meant.scan_by (setting_for next.now) (items_in next.now.placed)
        next.now.item TableScan false)
        ∷ told_offers (meant.rowid_offers (setting_for next.now) (items_in next.now.placed)
        next.now.item (rowid_offer (items_in next.now.placed)
        (map column_terms_of columns.now)))) }
{
    let mut made: Vec<Offer<'p>, &'p Bump> = Vec::new(arena);
    let scan = table_scan(arena, next)?;
    push_offer(&mut made, Some(scan))?;
    let seek = rowid_seek_offer(alloc, arena, next, columns)?;
    push_offer(&mut made, seek)?;
    Ok(made)
}

/// Appends the offer of each usable index of the table.
fn push_indexes<'p>(
    alloc: Global,
    arena: &'p Bump,
    next: &NextItem<'_, '_, 'p>,
    columns: &'p [ColumnTerms<'p>],
    made: &mut Vec<Offer<'p>, &'p Bump>,
) -> Result<(), Memory>
    requires next { IsNext next.now }
    requires columns { AreReady columns.now }
    ensures { OnOk result (map seen_offer made.new.items ≡ map seen_offer made.old.items
        ++ flat_map (told_index (setting_for next.now) (items_in next.now.placed) next.now.item
        (map column_terms_of columns.now)) next.now.indexes.now) }
{
    for index in next.indexes {
        let offer = index_offer(alloc, arena, next, columns, *index)?;
        push_offer(made, offer)?;
    }
    Ok(())
}

/// Appends the union of each OR term.
fn push_unions<'p>(
    alloc: Global,
    arena: &'p Bump,
    next: &NextItem<'_, '_, 'p>,
    ors: &'p [OrTerm<'p>],
    made: &mut Vec<Offer<'p>, &'p Bump>,
) -> Result<(), Memory>
    requires next { IsNext next.now }
    requires ors { AllByRecursion OrIsReady ors.now }
    ensures { OnOk result (map seen_offer made.new.items ≡ map seen_offer made.old.items
        ++ flat_map (told_union (setting_for next.now) (items_in next.now.placed) next.now.item)
        (map or_term_of ors.now)) }
{
    for term in ors {
        let offer = union_offer(alloc, arena, next, term.branches)?;
        push_offer(made, offer)?;
    }
    Ok(())
}

/// The offers by these terms of the item.
fn offers_by<'p>(
    alloc: Global,
    arena: &'p Bump,
    next: &NextItem<'_, '_, 'p>,
    terms: ItemTerms<'p>,
) -> Result<&'p [Offer<'p>], Memory>
    requires next { IsNext next.now }
    requires ready { ItemIsReady terms }
    requires terms { item_terms_of terms
        ≡ meant_settings.terms_for (setting_for next.now) next.now.item }
    ensures { IfOk result (λ made. map seen_offer made.now ≡ told_offers (meant.offers
        (setting_for next.now) (items_in next.now.placed) next.now.item)) }
{
    let mut made = offers_by_rowid(alloc, arena, next, terms.columns)?;
    push_indexes(alloc, arena, next, terms.columns, &mut made)?;
    push_unions(alloc, arena, next, terms.ors, &mut made)?;
    Ok(into_bump_slice(made))
}

/// The offers of an item once others are placed, where bit k of `placed` stands for item k. In this
/// order: the table scan; the seek by rowid; for each usable index of the table a seek, or a scan
/// where that saves the table or a sort; for each OR term a union of a seek for each branch.
pub fn offers<'p>(
    alloc: Global,
    arena: &'p Bump,
    setting: &Setting<'_, 'p>,
    item: u32,
    placed: u64,
) -> Result<&'p [Offer<'p>], Memory>
    requires ready { IsReady setting.now }
    requires item { item < length (bound_of setting.now.bound.now).items }
    ensures { IfOk result (λ made. (items : List ℕ) → IsPlaced placed items
        → map seen_offer made.now
        ≡ map told_offer (meant.offers (setting_of setting.now) items item)) }
{
    let due = due_conjuncts(alloc, setting.bound, placed, item)?;
    let next = next_item(setting, item, placed, due.as_slice());
    let made = offers_by(alloc, arena, &next, terms_of_item(setting, item))?;
    Ok(made)
}
