//! Levels: the nearest prefixes of each length.
ghost use Rattle.std.specs.Prelude.{◌≡◌, IfOk, ℕ, suc, List, length, [], ◌∷◌};
ghost use Rattle.plan_choice.specs.Prefixes as meant;
ghost use Rattle.plan_choice.specs.Choice as choice;
ghost use Rattle.access_paths.specs.Settings.{setting_of, IsReady};
ghost use Rattle.nearest_prefixes.specs.Growing.{IsLevel, StandsIn};

use crate::Prefix;
use crate::growing::{enter_all, enter_behind};
use access_paths::Setting;
use bumpalo::Bump;
use bumpalo::collections::into_bump_slice;
use sql_value::Memory;
use std::alloc::Global;

/// The prefixes of one length that the search goes on with.
#[derive(Clone, Copy)]
pub struct Level<'p> {
    /// At most twelve, the nearest first.
    pub kept: &'p [&'p Prefix<'p>],
}

const FOR_ONE_ITEM: usize = 1;

const FOR_TWO_ITEMS: usize = 5;

const FOR_MORE_ITEMS: usize = 12;

/// How many prefixes of each length are kept.
fn neighbor_count(items: usize) -> usize
    ensures { result ≡ choice.neighbor_count items }
{
    match items {
        1 => FOR_ONE_ITEM,
        2 => FOR_TWO_ITEMS,
        _ => FOR_MORE_ITEMS,
    }
}

/// The prefixes of one loop.
pub fn first_level<'p>(
    alloc: Global,
    arena: &'p Bump,
    setting: &Setting<'_, 'p>,
) -> Result<Level<'p>, Memory>
    requires ready { IsReady setting.now }
    ensures { IfOk result (λ level. IsLevel (setting_of setting.now) 1 level
        (choice.next_level (setting_of setting.now)
        (meant.empty_prefix (setting_of setting.now) ∷ []))) }
{
    let most = neighbor_count(setting.bound.items.len());
    let mut kept: Vec<&'p Prefix<'p>, &'p Bump> = Vec::new(arena);
    enter_behind(alloc, arena, setting, most, None, &mut kept)?;
    Ok(Level {
        kept: into_bump_slice(kept),
    })
}

/// The prefixes that are one loop longer.
pub fn next_level<'p>(
    alloc: Global,
    arena: &'p Bump,
    setting: &Setting<'_, 'p>,
    level: Level<'p>,
) -> Result<Level<'p>, Memory>
    requires ready { IsReady setting.now }
    requires level { StandsIn (setting_of setting.now) level }
    ensures { IfOk result (λ next. (count : ℕ) (kept : List meant.Prefix)
        → IsLevel (setting_of setting.now) count level.entry kept
        → IsLevel (setting_of setting.now) (suc count) next
        (choice.next_level (setting_of setting.now) kept)) }
{
    let most = neighbor_count(setting.bound.items.len());
    let mut kept: Vec<&'p Prefix<'p>, &'p Bump> = Vec::new(arena);
    enter_all(alloc, arena, setting, most, level.kept, &mut kept)?;
    Ok(Level {
        kept: into_bump_slice(kept),
    })
}

/// The prefixes that have a loop for each item.
pub fn nearest<'p>(
    alloc: Global,
    arena: &'p Bump,
    setting: &Setting<'_, 'p>,
) -> Result<Level<'p>, Memory>
    requires ready { IsReady setting.now }
    ensures { IfOk result (λ level. IsLevel (setting_of setting.now)
        (length (setting_of setting.now).bound.items) level
        (choice.last_level (setting_of setting.now))) }
{
    let mut level = first_level(alloc, arena, setting)?;
    for _ in 1..setting.bound.items.len() {
        level = next_level(alloc, arena, setting, level)?;
    }
    Ok(level)
}
