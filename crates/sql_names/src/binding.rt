//! Expressions with their names bound.
ghost use Rattle.std.specs.Prelude.{◌≡◌, ◌∷◌, [], map, IfOk};
ghost use Rattle.sql_tree.specs.Trees.{tree_of};
ghost use Rattle.sql_meaning.specs.Expressions as plain;
ghost use Rattle.sql_bound.specs.Expressions.{expr_of, exprs, plain_op};
ghost use Rattle.sql_names.specs.Faults.{Answers};
ghost use Rattle.sql_names.specs.Binding as meant;
ghost use Rattle.sql_names.specs.Binding.{trees_of};
ghost use Rattle.sql_names.specs.Collating.{collation_check, collation_or};
ghost use Rattle.sql_names.specs.Laws.{BoundIsSound, BoundStaysLeft};

use crate::collating::{affinity, bind_collation, collation_of, compared_under};
use crate::names::bind_name;
use crate::{BindFault, Scope};
use bumpalo::Bump;
use sql_bound::BExpr;
use sql_tree::{Expr, Exprs, Op};
use sql_value::{Memory, conversions, push};
use std::alloc::Global;

/// A comparison, with the conversions and the collation that its sides ask for.
fn compared<'a>(
    arena: &'a Bump,
    scope: &Scope,
    op: Op,
    left: BExpr<'a>,
    right: BExpr<'a>,
) -> Result<BExpr<'a>, Memory>
    ensures { IfOk result (λ made. expr_of made
        ≡ meant.compared scope.now (plain_op op) (expr_of left.entry) (expr_of right.entry)) }
{
    let conv = conversions(affinity(scope, &left), affinity(scope, &right));
    let coll = compared_under(scope, &left, &right);
    sql_bound::cmp(arena, op, left, right, conv, coll)
}

/// IN, whose entries are converted and never its left side; its collation is that of the left side.
fn one_of<'a>(
    arena: &'a Bump,
    scope: &Scope,
    negated: bool,
    left: BExpr<'a>,
    entries: &[BExpr<'a>],
) -> Result<BExpr<'a>, Memory>
    ensures { IfOk result (λ made. expr_of made
        ≡ meant.one_of scope.now negated (expr_of left.entry) (exprs (map expr_of entries.now))) }
{
    let conv = conversions(None, affinity(scope, &left));
    let coll = collation_of(scope, &left);
    sql_bound::one_of(arena, negated, left, entries, conv.left, coll)
}

/// An expression under the collation of a name.
fn collated<'a>(
    alloc: Global,
    arena: &'a Bump,
    inner: BExpr<'a>,
    name: &[u8],
) -> Result<BExpr<'a>, BindFault>
    ensures { Answers expr_of result (collation_check name.now ∷ [])
        (plain.Collate (expr_of inner.entry) (collation_or name.now)) }
{
    let coll = bind_collation(alloc, name)?;
    Ok(sql_bound::collate(arena, inner, coll)?)
}

/// BETWEEN as the AND of its two comparisons, that with the lower bound first.
fn between<'a>(
    arena: &'a Bump,
    scope: &Scope,
    negated: bool,
    inner: BExpr<'a>,
    low: BExpr<'a>,
    high: BExpr<'a>,
) -> Result<BExpr<'a>, Memory>
    ensures { IfOk result (λ made. expr_of made
        ≡ meant.between scope.now negated (expr_of inner.entry) (expr_of low.entry)
        (expr_of high.entry)) }
{
    let lower = compared(arena, scope, Op::Ge, inner, low)?;
    let upper = compared(arena, scope, Op::Le, inner, high)?;
    let both = sql_bound::all(arena, &[lower, upper])?;
    if negated {
        sql_bound::not(arena, both)
    } else {
        Ok(both)
    }
}

/// The expression with its names bound to the items of the scope and their columns, in the arena.
/// One in the ON condition of a LEFT JOIN has the item of that as its owner.
///
/// Its names and collations are checked from left to right, an operand before its COLLATE, and the
/// first one that fails is the fault: as `bind_name` and `bind_collation` say. `Memory` says
/// nothing of the others.
#[cycle(bind_expr)]
#[tactic(auto, using(crate::proofs::Lists::source_lists))]
pub fn bind_expr<'a>(
    alloc: Global,
    arena: &'a Bump,
    scope: &Scope,
    owner: Option<u32>,
    expr: &Expr<'a>,
) -> Result<BExpr<'a>, BindFault>
    ensures { Answers expr_of result (meant.expr_checks scope.now owner (tree_of expr.now))
        (meant.bound scope.now (tree_of expr.now)) }
{
    match expr {
        Expr::Lit(constant) => Ok(BExpr::Lit(*constant)),
        Expr::Param(number) => Ok(BExpr::Param(*number)),
        Expr::Name(table, name) => bind_name(alloc, scope, owner, *table, name),
        Expr::Plus(inner) => {
            let inner = bind_expr(alloc, arena, scope, owner, inner)?;
            Ok(sql_bound::plus(arena, inner)?)
        }
        Expr::Collate(operand, name) => {
            let operand = bind_expr(alloc, arena, scope, owner, operand)?;
            collated(alloc, arena, operand, name)
        }
        Expr::Cmp(op, left, right) => {
            let left = bind_expr(alloc, arena, scope, owner, left)?;
            let right = bind_expr(alloc, arena, scope, owner, right)?;
            Ok(compared(arena, scope, *op, left, right)?)
        }
        Expr::Between(negated, middle, low, high) => {
            let middle = bind_expr(alloc, arena, scope, owner, middle)?;
            let low = bind_expr(alloc, arena, scope, owner, low)?;
            let high = bind_expr(alloc, arena, scope, owner, high)?;
            Ok(between(arena, scope, *negated, middle, low, high)?)
        }
        Expr::OneOf(negated, sought, entries) => {
            let sought = bind_expr(alloc, arena, scope, owner, sought)?;
            let entries = bind_all(alloc, arena, scope, owner, entries)?;
            Ok(one_of(arena, scope, *negated, sought, entries.as_slice())?)
        }
        Expr::Like(negated, matched, pattern) => {
            let matched = bind_expr(alloc, arena, scope, owner, matched)?;
            let pattern = bind_expr(alloc, arena, scope, owner, pattern)?;
            Ok(sql_bound::like(arena, *negated, matched, pattern)?)
        }
        Expr::IsNull(negated, inner) => {
            let inner = bind_expr(alloc, arena, scope, owner, inner)?;
            Ok(sql_bound::is_null(arena, *negated, inner)?)
        }
        Expr::Not(inner) => {
            let inner = bind_expr(alloc, arena, scope, owner, inner)?;
            Ok(sql_bound::not(arena, inner)?)
        }
        Expr::All(list) => {
            let members = bind_all(alloc, arena, scope, owner, list)?;
            Ok(sql_bound::all(arena, members.as_slice())?)
        }
        Expr::Any(list) => {
            let members = bind_all(alloc, arena, scope, owner, list)?;
            Ok(sql_bound::any(arena, members.as_slice())?)
        }
    }
}

#[cycle(bind_expr)]
fn bind_all<'a>(
    alloc: Global,
    arena: &'a Bump,
    scope: &Scope,
    owner: Option<u32>,
    list: &Exprs<'a>,
) -> Result<Vec<BExpr<'a>>, BindFault>
    ensures { Answers (λ members. exprs (map expr_of members.items)) result
        (meant.all_checks scope.now owner (trees_of list.now))
        (meant.all_bound scope.now (trees_of list.now)) }
{
    let mut members = Vec::new(alloc);
    for member in list.members {
        let bound = bind_expr(alloc, arena, scope, owner, member)?;
        push(&mut members, bound)?;
    }
    Ok(members)
}

/// A law: what is bound names items and columns that are there, and keeps the conversions that its
/// operands ask for.
pub fn bound_is_sound()
    ensures { BoundIsSound }
{}

/// A law: what is bound of a LEFT JOIN's ON condition, where its checks pass, names no item to the
/// right of that join's.
pub fn bound_stays_left()
    ensures { BoundStaysLeft }
{}
