//! Conditions that are true where each item has the row at its place.
ghost use Rattle.std.specs.Prelude.{◌≡◌, IfOk};
ghost use Rattle.std.specs.List.{AllByRecursion};
ghost use Rattle.sql_meaning.specs.Evaluation as meant;
ghost use Rattle.sql_bound.specs.Expressions.{expr_of};
ghost use Rattle.sql_eval.specs.Environments.{GivesRows, assignment_of, params_of};
ghost use Rattle.bound_rows.specs.Levels.{all_true};
ghost use Rattle.bound_rows.specs.Readable.{lent_exprs};

use sql_bound::BExpr;
use sql_eval::{Env, eval};
use sql_value::{Memory, truth};
use std::alloc::Global;

/// Whether a condition is true: a row is kept where it is, and not where it is false or unknown.
fn holds(alloc: Global, expr: &BExpr, env: &Env) -> Result<bool, Memory>
    requires { GivesRows env.now (expr_of expr.now) }
    ensures { IfOk result (λ truth.
        truth ≡ meant.holds (assignment_of env.now) (params_of env.now) (expr_of expr.now)) }
{
    let value = eval(alloc, expr, env)?;
    Ok(truth(&value) == Some(true))
}

/// Whether all conditions are true. The first one that isn't ends the tests.
pub fn all_hold(alloc: Global, exprs: &[&BExpr], env: &Env) -> Result<bool, Memory>
    requires { AllByRecursion (GivesRows env.now) (lent_exprs exprs.now) }
    ensures { IfOk result (λ all. all
        ≡ all_true (params_of env.now) (lent_exprs exprs.now) (assignment_of env.now)) }
{
    for expr in exprs {
        if !holds(alloc, expr, env)? {
            return Ok(false);
        }
    }
    Ok(true)
}
