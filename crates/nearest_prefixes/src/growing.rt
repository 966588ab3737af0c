//! To enter all extensions of prefixes, one by one.
ghost use Rattle.std.specs.Prelude.{◌≡◌, ◌≤◌, ◌<◌, ◌^◌, ℕ, suc, List, OnOk, length};
ghost use Rattle.std.specs.List.{flat_map};
ghost use Rattle.plan_choice.specs.Prefixes as meant;
ghost use Rattle.sql_bound.specs.Statements.{bound_of};
ghost use Rattle.access_paths.specs.Settings.{setting_of, IsReady};
ghost use Rattle.nearest_prefixes.specs.Growing.{Begins, AllShow};
ghost use Rattle.nearest_prefixes.specs.Searching.{AreShown, ComesBy, kept_with};
ghost use Rattle.nearest_prefixes.specs.Searching.{by_item, by_offers};

use crate::entering::enter;
use crate::outside::outer_loops;
use crate::{Prefix, extended, may_come, offers_behind};
use access_paths::{Offer, Setting};
use bumpalo::Bump;
use sql_value::Memory;
use std::alloc::Global;

/// Enters the prefix with a loop of the item, by each of these offers of it.
fn enter_offers<'p>(
    arena: &'p Bump,
    setting: &Setting<'_, 'p>,
    most: usize,
    before: Option<&'p Prefix<'p>>,
    item: u32,
    offers: &'p [Offer<'p>],
    kept: &mut Vec<&'p Prefix<'p>, &'p Bump>,
) -> Result<(), Memory>
    requires ready { IsReady setting.now }
    requires few { length kept.old.items ≤ most }
    requires numbers { length offers.now < 2 ^ 32 }
    requires comes { (p : meant.Prefix)
        × ComesBy (setting_of setting.now) p before item offers.now }
    ensures few { OnOk result (length kept.new.items ≤ most) }
    ensures told { OnOk result ((count : ℕ) (ps : List meant.Prefix) (p : meant.Prefix)
        → AreShown (setting_of setting.now) count ps kept.old.items
        → ComesBy (setting_of setting.now) p before.entry item offers.now
        → suc (length p.loops) ≡ count
        → AreShown (setting_of setting.now) count
        (kept_with (setting_of setting.now) most ps (by_offers (setting_of setting.now) p item))
        kept.new.items) }
{
    for (number, offer) in offers.iter().enumerate() {
        let made = extended(setting, before, item, number as u32, offer);
        enter(arena, setting, most, kept, made)?;
    }
    Ok(())
}

/// Enters the prefix with a loop of the item, by each of its offers, if the item may come next.
fn enter_item<'p>(
    alloc: Global,
    arena: &'p Bump,
    setting: &Setting<'_, 'p>,
    most: usize,
    before: Option<&'p Prefix<'p>>,
    item: u32,
    kept: &mut Vec<&'p Prefix<'p>, &'p Bump>,
) -> Result<(), Memory>
    requires ready { IsReady setting.now }
    requires few { length kept.old.items ≤ most }
    requires item { item < length (bound_of setting.now.bound.now).items }
    requires begins { (p : meant.Prefix) × Begins (setting_of setting.now) p before }
    ensures few { OnOk result (length kept.new.items ≤ most) }
    ensures told { OnOk result ((count : ℕ) (ps : List meant.Prefix) (p : meant.Prefix)
        → AreShown (setting_of setting.now) count ps kept.old.items
        → Begins (setting_of setting.now) p before.entry → suc (length p.loops) ≡ count
        → AreShown (setting_of setting.now) count
        (kept_with (setting_of setting.now) most ps (by_item (setting_of setting.now) p item))
        kept.new.items) }
{
    let placed = outer_loops(setting, before).placed;
    if !may_come(setting.bound, placed, item) {
        return Ok(());
    }
    let offers = offers_behind(alloc, arena, setting, before, item)?;
    enter_offers(arena, setting, most, before, item, offers, kept)
}

/// Enters the prefix, or the empty one, with one loop more, by each offer of each item that may
/// come next.
pub(crate) fn enter_behind<'p>(
    alloc: Global,
    arena: &'p Bump,
    setting: &Setting<'_, 'p>,
    most: usize,
    before: Option<&'p Prefix<'p>>,
    kept: &mut Vec<&'p Prefix<'p>, &'p Bump>,
) -> Result<(), Memory>
    requires ready { IsReady setting.now }
    requires few { length kept.old.items ≤ most }
    requires begins { (p : meant.Prefix) × Begins (setting_of setting.now) p before }
    ensures few { OnOk result (length kept.new.items ≤ most) }
    ensures told { OnOk result ((count : ℕ) (ps : List meant.Prefix) (p : meant.Prefix)
        → AreShown (setting_of setting.now) count ps kept.old.items
        → Begins (setting_of setting.now) p before.entry → suc (length p.loops) ≡ count
        → AreShown (setting_of setting.now) count
        (kept_with (setting_of setting.now) most ps (meant.extensions (setting_of setting.now) p))
        kept.new.items) }
{
    for item in 0..setting.bound.items.len() {
        enter_item(alloc, arena, setting, most, before, item as u32, kept)?;
    }
    Ok(())
}

/// Enters all extensions of these prefixes.
pub(crate) fn enter_all<'p>(
    alloc: Global,
    arena: &'p Bump,
    setting: &Setting<'_, 'p>,
    most: usize,
    outer: &'p [&'p Prefix<'p>],
    kept: &mut Vec<&'p Prefix<'p>, &'p Bump>,
) -> Result<(), Memory>
    requires ready { IsReady setting.now }
    requires few { length kept.old.items ≤ most }
    requires shown { (ps : List meant.Prefix) × AllShow (setting_of setting.now) ps outer.now }
    ensures few { OnOk result (length kept.new.items ≤ most) }
    ensures told { OnOk result ((count : ℕ) (ps outside : List meant.Prefix)
        → AreShown (setting_of setting.now) (suc count) ps kept.old.items
        → AreShown (setting_of setting.now) count outside outer.now
        → AreShown (setting_of setting.now) (suc count)
        (kept_with (setting_of setting.now) most ps
        (flat_map (meant.extensions (setting_of setting.now)) outside)) kept.new.items) }
{
    for prefix in outer {
        enter_behind(alloc, arena, setting, most, Some(*prefix), kept)?;
    }
    Ok(())
}
