//! The best prefix, and its plan.
ghost use Rattle.std.specs.Prelude.{◌≡◌, ℕ, IfOk, nat_lt, pos};
ghost use Rattle.sql_meaning.specs.OrderState.{is_done};
ghost use Rattle.plan_choice.specs.Choice as meant;
ghost use Rattle.plan_choice.specs.Settings as settings;
ghost use Rattle.loop_orders.specs.Walks.{state_of};
ghost use Rattle.plan_form.specs.Plans.{covering_of, plan_of};
ghost use Rattle.access_paths.specs.Settings.{setting_of, IsReady};
ghost use Rattle.nearest_prefixes.specs.Growing.{AllShow, Shows};
ghost use Rattle.nearest_prefixes.specs.declared.prefix.Prefix.{out-Prefix};

use crate::steps::push_loops;
use access_paths::Setting;
use bumpalo::Bump;
use bumpalo::collections::into_bump_slice;
use loop_orders::OrderState;
use nearest_prefixes::{Level, Prefix, nearest};
use plan_form::{Loop, Plan};
use sql_value::Memory;
use std::alloc::Global;

/// Whether a prefix weighs less than another.
fn is_lighter(prefix: &Prefix, other: &Prefix) -> bool
    ensures { (n m : ℕ) → (out-Prefix prefix.now).weight ≡ pos n
        → (out-Prefix other.now).weight ≡ pos m → result ≡ nat_lt n m }
{
    prefix.weight < other.weight
}

/// The nearest of the last level, unless the plan in written order weighs less.
fn nearer<'p>(level: Level<'p>, written: &'p Prefix<'p>) -> &'p Prefix<'p>
    ensures { (s : settings.Setting) → AllShow s (meant.last_level s) level.entry.kept.now
        → Shows s (meant.written s) written.now → Shows s (meant.chosen_prefix s) result.now }
{
    match level.kept {
        [] => written,
        [first, ..] => if is_lighter(written, first) {
            written
        } else {
            first
        },
    }
}

/// The nearest of all prefixes that have a loop for each item, unless the plan in written order
/// weighs less.
pub(crate) fn best_prefix<'p>(
    alloc: Global,
    arena: &'p Bump,
    setting: &Setting<'_, 'p>,
    written: &'p Prefix<'p>,
) -> Result<&'p Prefix<'p>, Memory>
    requires ready { IsReady setting.now }
    requires written { Shows (setting_of setting.now) (meant.written (setting_of setting.now))
        written.now }
    ensures { IfOk result (λ best. Shows (setting_of setting.now)
        (meant.chosen_prefix (setting_of setting.now)) best.now) }
{
    let level = nearest(alloc, arena, setting)?;
    Ok(nearer(level, written))
}

/// Whether the loops give the asked order by themselves.
fn is_given(state: OrderState) -> bool
    ensures { result ≡ is_done (state_of state.entry) }
{
    match state {
        OrderState::Done => true,
        OrderState::Lost => false,
        OrderState::Open(_) => false,
    }
}

/// The plan of the prefix that is chosen.
pub(crate) fn plan_by<'p>(
    arena: &'p Bump,
    setting: &Setting<'_, 'p>,
    best: &Prefix<'p>,
) -> Result<Plan<'p>, Memory>
    requires ready { IsReady setting.now }
    requires best { Shows (setting_of setting.now) (meant.chosen_prefix (setting_of setting.now))
        best.now }
    ensures bound { IfOk result (λ plan. plan.bound.now ≡ setting.now.bound.now) }
    ensures plan { IfOk result (λ plan. plan_of plan
        ≡ (meant.choose (setting_of setting.now)).plan) }
    ensures covering { IfOk result (λ plan. covering_of plan
        ≡ (meant.choose (setting_of setting.now)).covering) }
{
    let given = is_given(best.order);
    let mut loops: Vec<Loop<'p>, &'p Bump> = Vec::new(arena);
    push_loops(setting, given, best, &mut loops)?;
    Ok(Plan {
        bound: setting.bound,
        loops: into_bump_slice(loops),
        sort: !given,
    })
}
