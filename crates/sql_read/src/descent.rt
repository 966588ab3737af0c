//! One function for each level of expressions. Each gives what reading gives, unless memory runs
//! out.
//!
//! `depth` bounds how often a level may stand within itself, in parentheses or behind NOT or `+`.
//! Lists of members are loops.
ghost use Rattle.std.specs.Prelude.{[], map};
ghost use Rattle.sql_tree.specs.Trees.{Tree, tree_of};
ghost use Rattle.sql_read.specs.Lexemes.{seen};
ghost use Rattle.sql_read.specs.Reading.{Gives, after, list_at};
ghost use Rattle.sql_read.specs.Expressions.{below, expr_at, and_at, not_at, test_at, tested_at};
ghost use Rattle.sql_read.specs.Expressions.{one_of_at};
ghost use Rattle.sql_read.specs.Expressions.{between_at, entries_at, operand_at};
ghost use Rattle.sql_read.specs.Expressions.{primary_at, enclosed_at};
ghost use Rattle.sql_read.specs.Expressions.{nested_at, member_at, joint_mark};

use crate::cursor::{Left, after_mark};
use crate::follow::{Follow, find_follow};
use crate::leaf::{Read, collated, leaf, number};
use crate::levels::{Joint, Nested, mark_between};
use crate::lexeme::{DescentFault, Mark};
use crate::lists::{Member, separated_list};
use bumpalo::Bump;
use sql_tree::{Expr, Lit};
use std::alloc::Global;

impl Member for Expr<'_> {
    ghost Plain = { Tree };

    ghost tree = { tree_of };
}

type ReadList<'a> = Result<(Vec<Expr<'a>>, Left<'a>), DescentFault>;

/// What stands a depth deeper.
#[cycle(descent)]
#[tactic(auto, unfolding(crate::specs::Expressions::below))]
fn nested<'a>(
    alloc: Global,
    arena: &'a Bump,
    depth: usize,
    level: Nested,
    lexemes: Left<'a>,
) -> Read<'a>
    ensures { Gives (λ x. (tree_of x.0, seen x.1.now)) result
        (nested_at (below depth) level (seen lexemes.now)) }
{
    if depth == 0 {
        return Err(DescentFault::Syntax);
    }
    match level {
        Nested::Expr => expr(alloc, arena, depth - 1, lexemes),
        Nested::Not => not(alloc, arena, depth - 1, lexemes),
        Nested::Operand => operand(alloc, arena, depth - 1, lexemes),
    }
}

#[cycle(descent)]
#[tactic(auto, unfolding(crate::specs::Expressions::enclosed_at))]
fn enclosed<'a>(alloc: Global, arena: &'a Bump, depth: usize, lexemes: Left<'a>) -> Read<'a>
    ensures { Gives (λ x. (tree_of x.0, seen x.1.now)) result
        (enclosed_at (below depth).expr (seen lexemes.now)) }
{
    let (inner, rest) = nested(alloc, arena, depth, Nested::Expr, lexemes)?;
    match after_mark(Mark::Close, rest) {
        Some(behind) => Ok((inner, behind)),
        None => Err(DescentFault::Syntax),
    }
}

#[cycle(descent)]
#[tactic(auto, unfolding(crate::specs::Expressions::primary_at))]
fn primary<'a>(alloc: Global, arena: &'a Bump, depth: usize, lexemes: Left<'a>) -> Read<'a>
    ensures { Gives (λ x. (tree_of x.0, seen x.1.now)) result
        (primary_at (below depth) (seen lexemes.now)) }
{
    if let Some(rest) = after_mark(Mark::Open, lexemes) {
        return enclosed(alloc, arena, depth, rest);
    }
    if let Some(rest) = after_mark(Mark::Null, lexemes) {
        return Ok((Expr::Lit(Lit::Null), rest));
    }
    match after_mark(Mark::Minus, lexemes) {
        Some(rest) => number(true, rest),
        None => leaf(lexemes),
    }
}

#[cycle(descent)]
#[tactic(auto, unfolding(crate::specs::Expressions::operand_at))]
fn operand<'a>(alloc: Global, arena: &'a Bump, depth: usize, lexemes: Left<'a>) -> Read<'a>
    ensures { Gives (λ x. (tree_of x.0, seen x.1.now)) result
        (operand_at (below depth) (seen lexemes.now)) }
{
    match after_mark(Mark::Plus, lexemes) {
        Some(behind) => {
            let (inner, rest) = nested(alloc, arena, depth, Nested::Operand, behind)?;
            Ok((sql_tree::plus(arena, inner)?, rest))
        }
        None => {
            let (inner, rest) = primary(alloc, arena, depth, lexemes)?;
            collated(arena, inner, rest)
        }
    }
}

/// The bounds of BETWEEN. An operand holds no AND outside parentheses, so the first one is
/// BETWEEN's.
#[cycle(descent)]
#[tactic(auto, unfolding(crate::specs::Expressions::between_at))]
fn between<'a>(
    alloc: Global,
    arena: &'a Bump,
    depth: usize,
    negated: bool,
    inner: Expr<'a>,
    lexemes: Left<'a>,
) -> Read<'a>
    ensures { Gives (λ x. (tree_of x.0, seen x.1.now)) result
        (between_at (below depth) negated (tree_of inner.entry) (seen lexemes.now)) }
{
    let (low, rest) = operand(alloc, arena, depth, lexemes)?;
    match after_mark(Mark::And, rest) {
        Some(behind) => {
            let (high, left) = operand(alloc, arena, depth, behind)?;
            Ok((sql_tree::between(arena, negated, inner, low, high)?, left))
        }
        None => Err(DescentFault::Syntax),
    }
}

/// The entries of IN, up to the closing parenthesis.
#[cycle(descent)]
#[tactic(auto, unfolding(crate::specs::Expressions::entries_at, crate::specs::Expressions::enclosed_at, crate::specs::Expressions::member_at))]
fn entries<'a>(alloc: Global, arena: &'a Bump, depth: usize, lexemes: Left<'a>) -> ReadList<'a>
    ensures { Gives (λ x. (map tree_of x.0.items, seen x.1.now)) result
        (entries_at (below depth) (seen lexemes.now)) }
{
    if let Some(rest) = after_mark(Mark::Close, lexemes) {
        return Ok((Vec::new(alloc), rest));
    }
    let (members, rest) = members(alloc, arena, depth, Joint::Comma, lexemes)?;
    match after_mark(Mark::Close, rest) {
        Some(behind) => Ok((members, behind)),
        None => Err(DescentFault::Syntax),
    }
}

#[cycle(descent)]
#[tactic(auto, unfolding(crate::specs::Expressions::one_of_at))]
fn one_of<'a>(
    alloc: Global,
    arena: &'a Bump,
    depth: usize,
    negated: bool,
    left: Expr<'a>,
    lexemes: Left<'a>,
) -> Read<'a>
    ensures { Gives (λ x. (tree_of x.0, seen x.1.now)) result
        (one_of_at (below depth) negated (tree_of left.entry) (seen lexemes.now)) }
{
    match after_mark(Mark::Open, lexemes) {
        Some(behind) => {
            let (members, rest) = entries(alloc, arena, depth, behind)?;
            Ok((
                sql_tree::one_of(arena, negated, left, members.as_slice())?,
                rest,
            ))
        }
        None => Err(DescentFault::Syntax),
    }
}

/// The rest of a test.
#[cycle(descent)]
#[tactic(auto, unfolding(crate::specs::Expressions::tested_at, crate::specs::Expressions::right_at, crate::specs::Expressions::like_at))]
fn tested<'a>(
    alloc: Global,
    arena: &'a Bump,
    depth: usize,
    left: Expr<'a>,
    follow: Follow,
    lexemes: Left<'a>,
) -> Read<'a>
    ensures { Gives (λ x. (tree_of x.0, seen x.1.now)) result
        (tested_at (below depth) (tree_of left.entry) follow (seen lexemes.now)) }
{
    match follow {
        Follow::Cmp(op) => {
            let (right, rest) = operand(alloc, arena, depth, lexemes)?;
            Ok((sql_tree::cmp(arena, op, left, right)?, rest))
        }
        Follow::Null(negated) => Ok((sql_tree::is_null(arena, negated, left)?, lexemes)),
        Follow::Between(negated) => between(alloc, arena, depth, negated, left, lexemes),
        Follow::OneOf(negated) => one_of(alloc, arena, depth, negated, left, lexemes),
        Follow::Like(negated) => {
            let (pattern, rest) = operand(alloc, arena, depth, lexemes)?;
            Ok((sql_tree::like(arena, negated, left, pattern)?, rest))
        }
    }
}

#[cycle(descent)]
#[tactic(auto, unfolding(crate::specs::Expressions::test_at))]
fn test<'a>(alloc: Global, arena: &'a Bump, depth: usize, lexemes: Left<'a>) -> Read<'a>
    ensures { Gives (λ x. (tree_of x.0, seen x.1.now)) result
        (test_at (below depth) (seen lexemes.now)) }
{
    let (left, rest) = operand(alloc, arena, depth, lexemes)?;
    match find_follow(rest) {
        Some((follow, behind)) => tested(alloc, arena, depth, left, follow, behind),
        None => Ok((left, rest)),
    }
}

#[cycle(descent)]
#[tactic(auto, unfolding(crate::specs::Expressions::not_at))]
fn not<'a>(alloc: Global, arena: &'a Bump, depth: usize, lexemes: Left<'a>) -> Read<'a>
    ensures { Gives (λ x. (tree_of x.0, seen x.1.now)) result
        (not_at (below depth) (seen lexemes.now)) }
{
    match after_mark(Mark::Not, lexemes) {
        Some(behind) => {
            let (inner, rest) = nested(alloc, arena, depth, Nested::Not, behind)?;
            Ok((sql_tree::not(arena, inner)?, rest))
        }
        None => test(alloc, arena, depth, lexemes),
    }
}

#[cycle(descent)]
#[tactic(auto, unfolding(crate::specs::Expressions::and_at, crate::specs::Expressions::member_at))]
fn and<'a>(alloc: Global, arena: &'a Bump, depth: usize, lexemes: Left<'a>) -> Read<'a>
    ensures { Gives (λ x. (tree_of x.0, seen x.1.now)) result
        (and_at (below depth) (seen lexemes.now)) }
{
    let (members, rest) = members(alloc, arena, depth, Joint::And, lexemes)?;
    match members.as_slice() {
        [] => Ok((Expr::Lit(Lit::Null), rest)),
        [only] => Ok((*only, rest)),
        several => Ok((sql_tree::all(arena, several)?, rest)),
    }
}

/// What stands between two such marks.
#[cycle(descent)]
#[tactic(auto, unfolding(crate::specs::Expressions::member_at))]
fn member<'a>(
    alloc: Global,
    arena: &'a Bump,
    depth: usize,
    joint: Joint,
    lexemes: Left<'a>,
) -> Read<'a>
    ensures { Gives (λ x. (tree_of x.0, seen x.1.now)) result
        (member_at (below depth) joint (seen lexemes.now)) }
{
    match joint {
        Joint::Comma => nested(alloc, arena, depth, Nested::Expr, lexemes),
        Joint::And => not(alloc, arena, depth, lexemes),
        Joint::Or => and(alloc, arena, depth, lexemes),
    }
}

/// One member or more, with a mark between each two.
#[cycle(descent)]
fn members<'a>(
    alloc: Global,
    arena: &'a Bump,
    depth: usize,
    joint: Joint,
    lexemes: Left<'a>,
) -> ReadList<'a>
    ensures { Gives (λ x. (map tree_of x.0.items, seen x.1.now)) result
        (list_at (member_at (below depth) joint) (after (joint_mark joint))
        (member_at (below depth) joint) (seen lexemes.now)) }
{
    // Within the cycle of the levels the check infers nothing of a closure, so this one says what
    // it gives.
    let read = |left| -> Read
        ensures { Gives (λ x. (tree_of x.0, seen x.1.now)) result
            (member_at (below depth) joint (seen left.now)) }
    { member(alloc, arena, depth, joint, left) };
    separated_list(alloc, mark_between(joint), lexemes, read)
}

/// The expression that the lexemes begin with, and those behind it.
#[cycle(descent)]
#[tactic(auto, unfolding(crate::specs::Expressions::expr_at, crate::specs::Expressions::member_at))]
pub fn expr<'a>(alloc: Global, arena: &'a Bump, depth: usize, lexemes: Left<'a>) -> Read<'a>
    ensures { Gives (λ x. (tree_of x.0, seen x.1.now)) result
        (expr_at (below depth) (seen lexemes.now)) }
{
    let (members, rest) = members(alloc, arena, depth, Joint::Or, lexemes)?;
    match members.as_slice() {
        [] => Ok((Expr::Lit(Lit::Null), rest)),
        [only] => Ok((*only, rest)),
        several => Ok((sql_tree::any(arena, several)?, rest)),
    }
}
