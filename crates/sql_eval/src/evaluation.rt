//! The value of a bound expression.
ghost use Rattle.std.specs.Prelude.{◌≡◌, IfOk, map, option_map};
ghost use Rattle.sql_meaning.specs.Evaluation.{ev, evs, all3, any3, one_of3};
ghost use Rattle.sql_meaning.specs.Conversions.{converted_by};
ghost use Rattle.sql_value.specs.View.{plain_value, plain_affinity, plain_collation};
ghost use Rattle.sql_bound.specs.Expressions.{expr_of, members_of};
ghost use Rattle.sql_eval.specs.Environments.{assignment_of, params_of, GivesRows, AllGiveRows};
ghost use Rattle.sql_eval.specs.Seen.{seen_value};

use crate::Env;
use crate::likes::like3;
use crate::logic::{both, compare3, either, from_truth, is_null, negated_if, opposite};
use crate::reading::{Seen, column, literal, param, rowid};
use sql_bound::{BExpr, BExprs};
use sql_tree::Op;
use sql_value::{Affinity, Collation, Memory, Value, truth};
use std::alloc::Global;

/// The value of an expression where each item has the row at its place
/// (<https://sqlite.org/lang_expr.html>). A condition is 1, 0 or NULL. The recursion is as deep as
/// the expression.
pub fn eval(alloc: Global, expr: &BExpr, env: &Env) -> Result<Value, Memory>
    requires { GivesRows env.now (expr_of expr.now) }
    ensures { IfOk result (λ value.
        plain_value value ≡ ev (assignment_of env.now) (params_of env.now) (expr_of expr.now)) }
{
    seen(alloc, expr, env)?.into_value(alloc)
}

#[cycle(eval)]
#[tactic(auto, using(sql_bound::proofs::Members::seen_lists))]
fn seen<'e>(alloc: Global, expr: &BExpr, env: &Env<'e>) -> Result<Seen<'e>, Memory>
    requires { GivesRows env.now (expr_of expr.now) }
    ensures { IfOk result (λ value.
        seen_value value ≡ ev (assignment_of env.now) (params_of env.now) (expr_of expr.now)) }
{
    match expr {
        BExpr::Lit(lit) => Ok(Seen::Made(literal(alloc, *lit)?)),
        BExpr::Param(number) => Ok(param(env, *number)),
        BExpr::Column {
            item,
            column: number,
        } => Ok(column(env, *item, *number)),
        BExpr::Rowid { item } => Ok(Seen::Made(rowid(env, *item))),
        BExpr::Plus(inner) => seen(alloc, inner, env),
        BExpr::Collate(inner, _) => seen(alloc, inner, env),
        BExpr::Cmp {
            op,
            left,
            right,
            conv,
            coll,
        } => {
            let low = seen(alloc, left, env)?.converted(alloc, conv.left)?;
            let high = seen(alloc, right, env)?.converted(alloc, conv.right)?;
            let holds = compare3(*op, *coll, low.as_value(), high.as_value());
            Ok(Seen::Made(from_truth(holds)))
        }
        BExpr::OneOf {
            not,
            left,
            entries,
            conv,
            coll,
        } => {
            let value = seen(alloc, left, env)?;
            let found = one_of(alloc, entries, *conv, *coll, value.as_value(), env)?;
            Ok(Seen::Made(from_truth(negated_if(*not, found))))
        }
        BExpr::Like(negated, left, pattern) => {
            let text = seen(alloc, left, env)?;
            let pattern = seen(alloc, pattern, env)?;
            let holds = like3(alloc, text, pattern)?;
            Ok(Seen::Made(from_truth(negated_if(*negated, holds))))
        }
        BExpr::IsNull(negated, inner) => {
            let value = seen(alloc, inner, env)?;
            let holds = Some(is_null(value.as_value()));
            Ok(Seen::Made(from_truth(negated_if(*negated, holds))))
        }
        BExpr::Not(inner) => {
            let value = seen(alloc, inner, env)?;
            Ok(Seen::Made(from_truth(opposite(truth(value.as_value())))))
        }
        BExpr::All(members) => Ok(Seen::Made(from_truth(all_of(alloc, members, env)?))),
        BExpr::Any(members) => Ok(Seen::Made(from_truth(any_of(alloc, members, env)?))),
    }
}

#[cycle(eval)]
fn all_of(alloc: Global, list: &BExprs, env: &Env) -> Result<Option<bool>, Memory>
    requires { AllGiveRows env.now (members_of list.now) }
    ensures { IfOk result (λ truth.
        truth ≡ all3 (evs (assignment_of env.now) (params_of env.now) (members_of list.now))) }
{
    let mut all = Some(true);
    for member in list.members {
        let value = seen(alloc, member, env)?;
        all = both(all, truth(value.as_value()));
        if all == Some(false) {
            return Ok(all);
        }
    }
    Ok(all)
}

#[cycle(eval)]
fn any_of(alloc: Global, list: &BExprs, env: &Env) -> Result<Option<bool>, Memory>
    requires { AllGiveRows env.now (members_of list.now) }
    ensures { IfOk result (λ truth.
        truth ≡ any3 (evs (assignment_of env.now) (params_of env.now) (members_of list.now))) }
{
    let mut any = Some(false);
    for member in list.members {
        let value = seen(alloc, member, env)?;
        any = either(any, truth(value.as_value()));
        if any == Some(true) {
            return Ok(any);
        }
    }
    Ok(any)
}

/// Whether the left side's value is among those of the entries, each of them converted.
#[cycle(eval)]
fn one_of(
    alloc: Global,
    list: &BExprs,
    conv: Option<Affinity>,
    coll: Collation,
    left: &Value,
    env: &Env,
) -> Result<Option<bool>, Memory>
    requires { AllGiveRows env.now (members_of list.now) }
    ensures { IfOk result (λ truth.
        truth ≡ one_of3 (plain_collation coll) (plain_value left.now)
        (map (converted_by (option_map plain_affinity conv))
        (evs (assignment_of env.now) (params_of env.now) (members_of list.now)))) }
{
    let mut any = Some(false);
    for member in list.members {
        let entry = seen(alloc, member, env)?.converted(alloc, conv)?;
        any = either(any, compare3(Op::Eq, coll, left, entry.as_value()));
        if any == Some(true) {
            return Ok(any);
        }
    }
    Ok(any)
}
