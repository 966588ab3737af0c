//! The plan that is chosen.
ghost use Rattle.std.specs.Prelude.{◌≡◌, ◌≤ℤ◌, ◌<ℤ◌, pos, IfOk};
ghost use Rattle.sql_meaning.specs.Asked.{Means};
ghost use Rattle.plan_choice.specs.Choice as meant;
ghost use Rattle.plan_form.specs.Fits.{FitsSchema};
ghost use Rattle.plan_form.specs.Plans.{covering_of, plan_of};
ghost use Rattle.schema_model.specs.PlainSchemas.{plain_schema};
ghost use Rattle.sql_bound.specs.Statements.{needs_of};
ghost use Rattle.access_paths.specs.Settings.{setting_of, IsReady};

use crate::planning::{best_prefix, plan_by};
use access_paths::Setting;
use bumpalo::Bump;
use nearest_prefixes::written_prefix;
use plan_form::Plan;
use sql_value::Memory;
use stat_figures::figures_are_small;
use std::alloc::Global;

/// The plan of a statement, with what it is thought to cost. Costs are logarithms, in tenths of a
/// power of two.
#[derive(Clone, Copy)]
pub struct Chosen<'p> {
    pub plan: Plan<'p>,
    /// The cost of the plan, with that of its sort.
    pub cost: i32,
    /// The same of the plan that takes the items as they are written.
    pub written: i32,
}

/// The plan of the statement: the best that the search for nearest neighbors finds, unless the
/// plan that takes the items as they are written costs less.
///
/// It gives the rows that the statement asks for, as often and in the asked order, on every
/// database of the schema and for all parameters, whatever the figures are.
pub fn choose<'p>(
    alloc: Global,
    arena: &'p Bump,
    setting: &Setting<'_, 'p>,
) -> Result<Chosen<'p>, Memory>
    requires ready { IsReady setting.now }
    ensures bound { IfOk result (λ chosen. chosen.plan.bound.now ≡ setting.now.bound.now) }
    ensures plan { IfOk result (λ chosen. plan_of chosen.plan
        ≡ (meant.choose (setting_of setting.now)).plan) }
    ensures covering { IfOk result (λ chosen. covering_of chosen.plan
        ≡ (meant.choose (setting_of setting.now)).covering) }
    ensures cost { IfOk result (λ chosen. chosen.cost
        ≡ pos (meant.choose (setting_of setting.now)).cost) }
    ensures written { IfOk result (λ chosen. chosen.written
        ≡ pos (meant.choose (setting_of setting.now)).written) }
    ensures no_more { IfOk result (λ chosen. chosen.cost ≤ℤ chosen.written) }
    ensures cheap { IfOk result (λ chosen. (chosen.cost <ℤ pos 1000000)
        × (chosen.written <ℤ pos 1000000)) }
    ensures means { IfOk result (λ chosen. Means (plain_schema setting.now.schema.now)
        (plan_of chosen.plan)) }
    ensures fits { IfOk result (λ chosen. FitsSchema (plain_schema setting.now.schema.now)
        (plan_of chosen.plan) (needs_of chosen.plan.bound.now)) }
{
    figures_are_small(setting.figures);
    let written = written_prefix(alloc, arena, setting)?;
    let best = best_prefix(alloc, arena, setting, written)?;
    let plan = plan_by(arena, setting, best)?;
    Ok(Chosen {
        plan,
        cost: best.weight,
        written: written.weight,
    })
}
