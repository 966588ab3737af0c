//! The loops of a plan, from the chain of a prefix.
ghost use Rattle.std.specs.Prelude.{◌≡◌, ◌++◌, ◌∷◌, [], IfOk, OnOk, map};
ghost use Rattle.std.specs.List.{AllByRecursion};
ghost use Rattle.sql_meaning.specs.OrderState as orders;
ghost use Rattle.plan_choice.specs.Choice as meant;
ghost use Rattle.loop_orders.specs.Walks.{state_of};
ghost use Rattle.plan_form.specs.Plans.{covers, loop_of};
ghost use Rattle.access_paths.specs.Settings.{setting_of, IsReady};
ghost use Rattle.nearest_prefixes.specs.Prefixes.{loops_of};
ghost use Rattle.n3_planner.specs.PlannedLoops.{LoopFits, covering_loops, last_loop};
ghost use Rattle.n3_planner.specs.PlannedLoops.{plain_loop, plain_loops, with_direction};

use access_paths::Setting;
use bumpalo::Bump;
use loop_orders::{OrderState, first_state, pass_loop, walks_backward};
use nearest_prefixes::Prefix;
use plan_form::Loop;
use sql_value::{Memory, push};

/// Appends the last loop of a prefix, and answers the order state behind it. The loop comes in this
/// state, and walks in its direction where the order is given by the loops.
fn push_last<'p>(
    setting: &Setting<'_, 'p>,
    given: bool,
    state: OrderState<'p>,
    prefix: &Prefix<'p>,
    loops: &mut Vec<Loop<'p>, &'p Bump>,
) -> Result<OrderState<'p>, Memory>
    requires ready { IsReady setting.now }
    requires fits { LoopFits (setting_of setting.now) (last_loop prefix.now) }
    ensures state { IfOk result (λ next. state_of next
        ≡ orders.pass_loop (setting_of setting.now).schema (setting_of setting.now).bound
        (state_of state.entry) (plain_loop (last_loop prefix.now))) }
    ensures loops { OnOk result (map loop_of loops.new.items ≡ map loop_of loops.old.items
        ++ with_direction (setting_of setting.now) given (state_of state.entry)
        (plain_loop (last_loop prefix.now)) ∷ []) }
    ensures covering { OnOk result (map (λ l. covers l.path.now) loops.new.items
        ≡ map (λ l. covers l.path.now) loops.old.items
        ++ (last_loop prefix.now).offer.covering ∷ []) }
{
    let path = prefix.offer.path;
    let each = Loop {
        item: prefix.item,
        path,
        reverse: given && walks_backward(setting.schema, setting.bound, state, prefix.item, path),
        consumed: prefix.offer.consumed,
    };
    push(loops, each)?;
    Ok(pass_loop(setting.schema, setting.bound, state, prefix.item, path))
}

/// Appends the loops of a prefix, from outside in, and answers the order state behind them. Where
/// the order is given by the loops, each walks in its direction. There is a loop for each item at
/// most, so this goes at most 64 deep.
pub(crate) fn push_loops<'p>(
    setting: &Setting<'_, 'p>,
    given: bool,
    prefix: &Prefix<'p>,
    loops: &mut Vec<Loop<'p>, &'p Bump>,
) -> Result<OrderState<'p>, Memory>
    requires ready { IsReady setting.now }
    requires fits { AllByRecursion (LoopFits (setting_of setting.now)) (loops_of prefix.now) }
    ensures state { IfOk result (λ next. state_of next
        ≡ orders.state (setting_of setting.now).schema (setting_of setting.now).bound
        (plain_loops (loops_of prefix.now)) (setting_of setting.now).bound.keys) }
    ensures loops { OnOk result (map loop_of loops.new.items ≡ map loop_of loops.old.items
        ++ meant.directed (setting_of setting.now) given (plain_loops (loops_of prefix.now))) }
    ensures covering { OnOk result (map (λ l. covers l.path.now) loops.new.items
        ≡ map (λ l. covers l.path.now) loops.old.items
        ++ covering_loops (loops_of prefix.now)) }
{
    match prefix.before {
        None => push_last(setting, given, first_state(setting.bound), prefix, loops),
        Some(before) => {
            let state = push_loops(setting, given, before, loops)?;
            push_last(setting, given, state, prefix, loops)
        }
    }
}
