//! One maker for each form of an expression that has parts: it places them, and says which tree
//! results.
ghost use Rattle.std.specs.Prelude.{◌≡◌, IfOk, option_map, map};
ghost use Rattle.sql_tree.specs.Trees.{tree_of, trees};
ghost use Rattle.sql_tree.specs.Trees as tree;

use crate::placing::{place_expr, place_list};
use crate::{Expr, Op};
use bumpalo::Bump;
use sql_value::Memory;

/// A column's name, behind its table's where that is written.
pub fn name<'a>(table: Option<&'a [u8]>, column: &'a [u8]) -> Expr<'a>
    ensures { tree_of result ≡ tree.Name (option_map (λ bytes. bytes.now) table.entry) column.now }
{
    Expr::Name(table, column)
}

/// Unary `+`.
pub fn plus<'a>(arena: &'a Bump, inner: Expr<'a>) -> Result<Expr<'a>, Memory>
    ensures { IfOk result (λ made. tree_of made ≡ tree.Plus (tree_of inner.entry)) }
{
    Ok(Expr::Plus(place_expr(arena, inner)?))
}

/// An expression under a collation, named by its bytes.
pub fn collate<'a>(
    arena: &'a Bump,
    inner: Expr<'a>,
    collation: &'a [u8],
) -> Result<Expr<'a>, Memory>
    ensures { IfOk result (λ made. tree_of made
        ≡ tree.Collate (tree_of inner.entry) collation.now) }
{
    Ok(Expr::Collate(place_expr(arena, inner)?, collation))
}

/// A comparison of two expressions.
pub fn cmp<'a>(arena: &'a Bump, op: Op, left: Expr<'a>, right: Expr<'a>) -> Result<Expr<'a>, Memory>
    ensures { IfOk result (λ made.
        tree_of made ≡ tree.Cmp op (tree_of left.entry) (tree_of right.entry)) }
{
    Ok(Expr::Cmp(op, place_expr(arena, left)?, place_expr(arena, right)?))
}

/// `inner BETWEEN low AND high`, or its NOT form.
pub fn between<'a>(
    arena: &'a Bump,
    negated: bool,
    inner: Expr<'a>,
    low: Expr<'a>,
    high: Expr<'a>,
) -> Result<Expr<'a>, Memory>
    ensures { IfOk result (λ made. tree_of made
        ≡ tree.Between negated (tree_of inner.entry) (tree_of low.entry) (tree_of high.entry)) }
{
    Ok(Expr::Between(
        negated,
        place_expr(arena, inner)?,
        place_expr(arena, low)?,
        place_expr(arena, high)?,
    ))
}

/// `left LIKE pattern`, or its NOT form.
pub fn like<'a>(
    arena: &'a Bump,
    negated: bool,
    left: Expr<'a>,
    pattern: Expr<'a>,
) -> Result<Expr<'a>, Memory>
    ensures { IfOk result (λ made.
        tree_of made ≡ tree.Like negated (tree_of left.entry) (tree_of pattern.entry)) }
{
    Ok(Expr::Like(
        negated,
        place_expr(arena, left)?,
        place_expr(arena, pattern)?,
    ))
}

/// `left IN (entries)`, or its NOT form.
#[tactic(auto, using(crate::proofs::TreeLists::seen_lists))]
pub fn one_of<'a>(
    arena: &'a Bump,
    negated: bool,
    left: Expr<'a>,
    entries: &[Expr<'a>],
) -> Result<Expr<'a>, Memory>
    ensures { IfOk result (λ made. tree_of made
        ≡ tree.OneOf negated (tree_of left.entry) (trees (map tree_of entries.now))) }
{
    Ok(Expr::OneOf(
        negated,
        place_expr(arena, left)?,
        place_list(arena, entries)?,
    ))
}

/// `inner IS NULL`, or `inner IS NOT NULL`.
pub fn is_null<'a>(arena: &'a Bump, negated: bool, inner: Expr<'a>) -> Result<Expr<'a>, Memory>
    ensures { IfOk result (λ made. tree_of made ≡ tree.IsNull negated (tree_of inner.entry)) }
{
    Ok(Expr::IsNull(negated, place_expr(arena, inner)?))
}

/// NOT.
pub fn not<'a>(arena: &'a Bump, inner: Expr<'a>) -> Result<Expr<'a>, Memory>
    ensures { IfOk result (λ made. tree_of made ≡ tree.Not (tree_of inner.entry)) }
{
    Ok(Expr::Not(place_expr(arena, inner)?))
}

/// The members joined by AND.
#[tactic(auto, using(crate::proofs::TreeLists::seen_lists))]
pub fn all<'a>(arena: &'a Bump, members: &[Expr<'a>]) -> Result<Expr<'a>, Memory>
    ensures { IfOk result (λ made. tree_of made ≡ tree.All (trees (map tree_of members.now))) }
{
    Ok(Expr::All(place_list(arena, members)?))
}

/// The members joined by OR.
#[tactic(auto, using(crate::proofs::TreeLists::seen_lists))]
pub fn any<'a>(arena: &'a Bump, members: &[Expr<'a>]) -> Result<Expr<'a>, Memory>
    ensures { IfOk result (λ made. tree_of made ≡ tree.Any (trees (map tree_of members.now))) }
{
    Ok(Expr::Any(place_list(arena, members)?))
}
