//! The offers of an item behind a prefix.
ghost use Rattle.std.specs.Prelude.{◌≡◌, ◌<◌, ◌^◌, IfOk, length, map};
ghost use Rattle.plan_choice.specs.Prefixes as meant;
ghost use Rattle.sql_bound.specs.Statements.{bound_of};
ghost use Rattle.access_paths.specs.Settings.{setting_of, IsReady};
ghost use Rattle.nearest_prefixes.specs.Prefixes.{seen_loops, told_loop};
ghost use Rattle.nearest_prefixes.specs.Growing.{Begins};

use crate::Prefix;
use crate::outside::outer_loops;
use access_paths::{Offer, Setting, offers};
use bumpalo::Bump;
use sql_value::Memory;
use std::alloc::Global;

/// The offers, unless there are more than 32 bits number.
fn few<'p>(made: &'p [Offer<'p>]) -> Result<&'p [Offer<'p>], Memory>
    ensures made { IfOk result (λ few. few.now ≡ made.now) }
    ensures few { IfOk result (λ few. length few.now < 2 ^ 32) }
{
    match u32::try_from(made.len()) {
        Ok(_) => Ok(made),
        Err(_) => Err(Memory),
    }
}

/// The offers of an item inside the loops of a prefix, or inside none. Each is that of a loop of
/// the item, whose number is its place here; more offers than 32 bits number are answered as want
/// of memory.
pub fn offers_behind<'p>(
    alloc: Global,
    arena: &'p Bump,
    setting: &Setting<'_, 'p>,
    before: Option<&'p Prefix<'p>>,
    item: u32,
) -> Result<&'p [Offer<'p>], Memory>
    requires ready { IsReady setting.now }
    requires item { item < length (bound_of setting.now.bound.now).items }
    ensures few { IfOk result (λ made. length made.now < 2 ^ 32) }
    ensures told { IfOk result (λ made. (p : meant.Prefix)
        → Begins (setting_of setting.now) p before.entry
        → seen_loops item made.now
        ≡ map told_loop (meant.offered_loops (setting_of setting.now) (meant.placed_in p) item)) }
{
    let outer = outer_loops(setting, before);
    let all = offers(alloc, arena, setting, item, outer.placed)?;
    let made = few(all)?;
    Ok(made)
}
