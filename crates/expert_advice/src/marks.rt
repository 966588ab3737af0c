//! Which candidates a plan uses.
ghost use Rattle.std.specs.Prelude.{◌≡◌, ◌==◌, ◌≤◌, ◌+◌, ◌∷◌, [], length, IfOk};
ghost use Rattle.std.specs.List.{AllByRecursion};
ghost use Rattle.plan_choice.specs.Advice.{loops_use, path_uses, some_path_uses, used_of};
ghost use Rattle.plan_choice.specs.Choice.{Chosen};
ghost use Rattle.plan_choice.specs.CostLaws.{ArePlain, IsFlat};
ghost use Rattle.plan_form.specs.Paths.{branches_of, path_of};
ghost use Rattle.plan_form.specs.Plans.{plan_of};
ghost use Rattle.expert_advice.specs.Marks.{walks_itself};
ghost use Rattle.expert_advice.specs.Uses.{Marks};

use crate::uses::{Numbers, Uses};
use plan_form::{Path, Paths, Plan};
use sql_value::Memory;
use std::alloc::Global;

/// Marks the candidate that is the index of a number, if it is one.
fn mark_index(uses: &mut Uses, own: u32, index: u32)
    ensures { Marks uses.old uses.new (λ n. index == own + n) }
{
    if index >= own {
        uses.mark_number((index - own) as usize);
    }
}

/// Marks the candidate that a path itself walks, and none that only its branches walk.
fn mark_walked(uses: &mut Uses, own: u32, path: &Path)
    ensures { Marks uses.old uses.new (λ n. walks_itself (own + n) (path_of path.now)) }
{
    match path {
        Path::IndexScan { index, .. } => mark_index(uses, own, *index),
        Path::IndexSeek { index, .. } => mark_index(uses, own, *index),
        _ => {}
    }
}

/// Marks the candidates that the branches of a union walk.
fn mark_branches(uses: &mut Uses, own: u32, union: &Paths)
    requires { ArePlain (branches_of union.now) }
    ensures { Marks uses.old uses.new (λ n. some_path_uses (own + n) (branches_of union.now)) }
{
    for branch in union.branches {
        mark_walked(uses, own, branch);
    }
}

/// Marks the candidates that a path walks.
fn mark_path(uses: &mut Uses, own: u32, path: &Path)
    requires { IsFlat (path_of path.now) }
    ensures { Marks uses.old uses.new (λ n. path_uses (own + n) (path_of path.now)) }
{
    match path {
        Path::Union(union) => mark_branches(uses, own, union),
        _ => mark_walked(uses, own, path),
    }
}

/// Marks the candidates that a plan uses.
fn mark_plan(uses: &mut Uses, own: u32, plan: &Plan)
    requires { AllByRecursion (λ l. IsFlat l.path) (plan_of plan.now).loops }
    ensures { Marks uses.old uses.new (λ n. loops_use (own + n) (plan_of plan.now).loops) }
{
    for step in plan.loops {
        mark_path(uses, own, step.path);
    }
}

/// The numbers of the candidates that a plan uses, of so many behind `own` indexes.
pub(crate) fn used_by(alloc: Global, own: u32, count: u32, plan: &Plan) -> Result<Numbers, Memory>
    requires { AllByRecursion (λ l. IsFlat l.path) (plan_of plan.now).loops }
    ensures { IfOk result (λ numbers. (chosen : Chosen) → chosen.plan ≡ plan_of plan.now
        → numbers ≡ used_of own count (chosen ∷ [])) }
{
    let mut uses = Uses::none(alloc, count)?;
    mark_plan(&mut uses, own, plan);
    let numbers = uses.listed(alloc)?;
    Ok(numbers)
}
