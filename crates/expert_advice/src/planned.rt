//! The plan of a statement, as it is told.
ghost use Rattle.std.specs.Prelude.{◌≡◌, ◌≤◌, ◌≤ℤ◌, ◌<ℤ◌, pos, length, IfOk, OnOk};
ghost use Rattle.sql_meaning.specs.Asked.{Means};
ghost use Rattle.plan_choice.specs.Choice as choice;
ghost use Rattle.plan_form.specs.Fits.{FitsSchema};
ghost use Rattle.plan_form.specs.Plans.{plan_of};
ghost use Rattle.plan_form.specs.Texts.{aliases_of};
ghost use Rattle.schema_model.specs.PlainSchemas.{plain_schema};
ghost use Rattle.sql_bound.specs.Statements.{needs_of};
ghost use Rattle.access_paths.specs.Settings.{IsReady};
ghost use Rattle.expert_advice.specs.Planned as meant;

use crate::marks::used_by;
use crate::uses::Numbers;
use access_paths::Setting;
use bumpalo::Bump;
use n3_planner::{Chosen, choose};
use plan_form::plan_text;
use schema_model::Schema;
use sql_value::{Bytes, Memory};
use std::alloc::Global;

/// What is told of a statement's plan.
#[derive(Drop)]
pub struct PlannedStatement {
    /// The numbers of the candidates that the plan uses, rising.
    pub fresh: Numbers,
    /// Its lines, each with its line feed.
    pub lines: Bytes,
    pub cost: i32,
    /// What the plan in written order costs.
    pub written: i32,
}

/// What is told of a plan that is chosen.
fn told(alloc: Global, full: &Schema, chosen: &Chosen, own: u32) -> Result<PlannedStatement, Memory>
    requires fits { FitsSchema (plain_schema full.now) (plan_of chosen.now.plan)
        (needs_of chosen.now.plan.bound.now) }
    requires own { own ≤ length full.now.indexes }
    ensures told { IfOk result (λ planned. (c : choice.Chosen) → meant.IsSeenAs chosen.now c
        → planned ≡ meant.told_of full.now (aliases_of chosen.now.plan.bound.now.items.now)
        own c) }
    ensures cost { IfOk result (λ planned. planned.cost ≡ chosen.now.cost) }
    ensures written { IfOk result (λ planned. planned.written ≡ chosen.now.written) }
{
    let count = full.index_count() - own;
    let fresh = used_by(alloc, own, count, &chosen.plan)?;
    let lines = plan_text(alloc, full, &chosen.plan)?;
    Ok(PlannedStatement {
        fresh,
        lines,
        cost: chosen.cost,
        written: chosen.written,
    })
}

/// Plans a statement over a schema whose first `own` indexes are its own, and the others
/// candidates. On every database of the schema, and for all parameters, the plan gives the rows
/// that the statement asks for, as often and in the asked order; and it costs no more than the plan
/// in written order.
pub fn plan_statement<'p>(
    alloc: Global,
    arena: &'p Bump,
    setting: &Setting<'_, 'p>,
    own: u32,
) -> Result<PlannedStatement, Memory>
    requires ready { IsReady setting.now }
    requires own { own ≤ length setting.now.schema.now.indexes }
    ensures told { IfOk result (λ planned. planned ≡ meant.told_of setting.now.schema.now
        (aliases_of setting.now.bound.now.items.now) own (meant.chosen_for setting.now)) }
    ensures means { OnOk result (Means (plain_schema setting.now.schema.now)
        (meant.chosen_for setting.now).plan) }
    ensures no_more { IfOk result (λ planned. planned.cost ≤ℤ planned.written) }
    ensures small { IfOk result (λ planned. planned.written <ℤ pos 1000000) }
{
    let chosen = choose(alloc, arena, setting)?;
    let planned = told(alloc, setting.schema, &chosen, own)?;
    Ok(planned)
}
