//! One maker for each form of a bound expression that has parts: it places them, and says which
//! expression results.
ghost use Rattle.std.specs.Prelude.{◌≡◌, IfOk, option_map, map};
ghost use Rattle.sql_meaning.specs.Expressions as meant;
ghost use Rattle.sql_value.specs.View.{plain_affinity, plain_collation};
ghost use Rattle.sql_bound.specs.Expressions.{expr_of, exprs, plain_op};

use crate::BExpr;
use crate::placing::place_list;
use bumpalo::Bump;
use sql_tree::{Op, place};
use sql_value::{Affinity, Collation, Conversions, Memory};

/// Unary `+`.
pub fn plus<'a>(arena: &'a Bump, inner: BExpr<'a>) -> Result<BExpr<'a>, Memory>
    ensures { IfOk result (λ made. expr_of made ≡ meant.Plus (expr_of inner.entry)) }
{
    Ok(BExpr::Plus(place(arena, inner)?))
}

/// An expression under a collation.
pub fn collate<'a>(arena: &'a Bump, inner: BExpr<'a>, coll: Collation) -> Result<BExpr<'a>, Memory>
    ensures { IfOk result (λ made.
        expr_of made ≡ meant.Collate (expr_of inner.entry) (plain_collation coll)) }
{
    Ok(BExpr::Collate(place(arena, inner)?, coll))
}

/// A comparison of two expressions, with what is applied to each and their collation.
pub fn cmp<'a>(
    arena: &'a Bump,
    op: Op,
    left: BExpr<'a>,
    right: BExpr<'a>,
    conv: Conversions,
    coll: Collation,
) -> Result<BExpr<'a>, Memory>
    ensures { IfOk result (λ made. expr_of made
        ≡ meant.Cmp (plain_op op) (expr_of left.entry) (expr_of right.entry)
        (option_map plain_affinity conv.left) (option_map plain_affinity conv.right)
        (plain_collation coll)) }
{
    Ok(BExpr::Cmp {
        op,
        left: place(arena, left)?,
        right: place(arena, right)?,
        conv,
        coll,
    })
}

/// `left IN (entries)`, or its NOT form, with what is applied to each entry and their collation.
#[tactic(auto, using(crate::proofs::Members::seen_lists))]
pub fn one_of<'a>(
    arena: &'a Bump,
    negated: bool,
    left: BExpr<'a>,
    entries: &[BExpr<'a>],
    conv: Option<Affinity>,
    coll: Collation,
) -> Result<BExpr<'a>, Memory>
    ensures { IfOk result (λ made. expr_of made
        ≡ meant.OneOf negated (expr_of left.entry) (exprs (map expr_of entries.now))
        (option_map plain_affinity conv) (plain_collation coll)) }
{
    Ok(BExpr::OneOf {
        not: negated,
        left: place(arena, left)?,
        entries: place_list(arena, entries)?,
        conv,
        coll,
    })
}

/// `left LIKE pattern`, or its NOT form.
pub fn like<'a>(
    arena: &'a Bump,
    negated: bool,
    left: BExpr<'a>,
    pattern: BExpr<'a>,
) -> Result<BExpr<'a>, Memory>
    ensures { IfOk result (λ made.
        expr_of made ≡ meant.Like negated (expr_of left.entry) (expr_of pattern.entry)) }
{
    Ok(BExpr::Like(negated, place(arena, left)?, place(arena, pattern)?))
}

/// `inner IS NULL`, or `inner IS NOT NULL`.
pub fn is_null<'a>(arena: &'a Bump, negated: bool, inner: BExpr<'a>) -> Result<BExpr<'a>, Memory>
    ensures { IfOk result (λ made. expr_of made ≡ meant.IsNull negated (expr_of inner.entry)) }
{
    Ok(BExpr::IsNull(negated, place(arena, inner)?))
}

/// NOT.
pub fn not<'a>(arena: &'a Bump, inner: BExpr<'a>) -> Result<BExpr<'a>, Memory>
    ensures { IfOk result (λ made. expr_of made ≡ meant.Not (expr_of inner.entry)) }
{
    Ok(BExpr::Not(place(arena, inner)?))
}

/// The members joined by AND.
#[tactic(auto, using(crate::proofs::Members::seen_lists))]
pub fn all<'a>(arena: &'a Bump, members: &[BExpr<'a>]) -> Result<BExpr<'a>, Memory>
    ensures { IfOk result (λ made. expr_of made ≡ meant.All (exprs (map expr_of members.now))) }
{
    Ok(BExpr::All(place_list(arena, members)?))
}

/// The members joined by OR.
#[tactic(auto, using(crate::proofs::Members::seen_lists))]
pub fn any<'a>(arena: &'a Bump, members: &[BExpr<'a>]) -> Result<BExpr<'a>, Memory>
    ensures { IfOk result (λ made. expr_of made ≡ meant.Any (exprs (map expr_of members.now))) }
{
    Ok(BExpr::Any(place_list(arena, members)?))
}
