//! The plan that takes the items as they are written.
ghost use Rattle.std.specs.Prelude.{◌≡◌, ◌<◌, ◌^◌, ℕ, true, List, Some, IfOk, cond, nat_lt, pos, map};
ghost use Rattle.std.specs.Prelude.{length, option_map};
ghost use Rattle.plan_choice.specs.Prefixes as meant;
ghost use Rattle.plan_choice.specs.Offers.{lightest};
ghost use Rattle.plan_choice.specs.Choice as choice;
ghost use Rattle.access_paths.specs.Settings.{setting_of, IsReady};
ghost use Rattle.nearest_prefixes.specs.Prefixes.{seen_loop, seen_loops, told_loop};
ghost use Rattle.nearest_prefixes.specs.Growing.{Begins, Shows};
ghost use Rattle.nearest_prefixes.specs.Written.{Comes};

use crate::{Prefix, extended, offers_behind};
use access_paths::{Offer, Setting};
use bumpalo::Bump;
use sql_tree::place;
use sql_value::Memory;
use std::alloc::Global;

/// An offer, with its number among those of its item.
#[derive(Clone, Copy)]
struct Numbered<'p> {
    number: u32,
    offer: &'p Offer<'p>,
}

/// The offer that is cheaper to run, the first of two that cost the same.
fn cheaper<'p>(best: Numbered<'p>, next: Numbered<'p>) -> Numbered<'p>
    ensures { (m n : ℕ) → best.entry.offer.now.cost.run ≡ pos m
        → next.entry.offer.now.cost.run ≡ pos n
        → result ≡ cond (nat_lt n m) next.entry best.entry }
{
    if next.offer.cost.run < best.offer.cost.run {
        next
    } else {
        best
    }
}

/// Of some offers the one that is cheapest to run, the first of equals.
fn cheapest<'p>(offers: &'p [Offer<'p>]) -> Numbered<'p>
    requires some { 0 < length offers.now }
    requires few { length offers.now < 2 ^ 32 }
    ensures { (item : ℕ) (ts : List meant.OfferedLoop)
        → seen_loops item offers.now ≡ map told_loop ts
        → Some (seen_loop item result.number result.offer.now)
        ≡ option_map told_loop (lightest (λ t. t.offer.cost.run) ts) }
{
    let mut best = Numbered {
        number: 0,
        offer: &offers[0],
    };
    for number in 1..offers.len() {
        let next = Numbered {
            number: number as u32,
            offer: &offers[number],
        };
        best = cheaper(best, next);
    }
    best
}

/// The loop of the item by its offer that is cheapest to run, inside those before.
fn written_step<'p>(
    alloc: Global,
    arena: &'p Bump,
    setting: &Setting<'_, 'p>,
    before: Option<&'p Prefix<'p>>,
    item: u32,
) -> Result<&'p Prefix<'p>, Memory>
    requires ready { IsReady setting.now }
    requires comes { Comes (setting_of setting.now) before item }
    ensures { IfOk result (λ made. (p : meant.Prefix)
        → Begins (setting_of setting.now) p before.entry
        → meant.may_come (setting_of setting.now).bound (meant.placed_in p) item ≡ true
        → Shows (setting_of setting.now) (choice.written_step (setting_of setting.now) p item)
        made.now) }
{
    let offers = offers_behind(alloc, arena, setting, before, item)?;
    let best = cheapest(offers);
    let made = extended(setting, before, item, best.number, best.offer);
    let placed = place(arena, made)?;
    Ok(placed)
}

/// A loop for each item, in the order in which FROM names them, each by the item's offer that is
/// cheapest to run, the first of equals.
pub fn written_prefix<'p>(
    alloc: Global,
    arena: &'p Bump,
    setting: &Setting<'_, 'p>,
) -> Result<&'p Prefix<'p>, Memory>
    requires ready { IsReady setting.now }
    ensures { IfOk result (λ made. Shows (setting_of setting.now)
        (choice.written (setting_of setting.now)) made.now) }
{
    let mut made = written_step(alloc, arena, setting, None, 0)?;
    for item in 1..setting.bound.items.len() {
        made = written_step(alloc, arena, setting, Some(made), item as u32)?;
    }
    Ok(made)
}
