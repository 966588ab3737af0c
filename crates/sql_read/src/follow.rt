//! Which test begins behind its first operand.
ghost use Rattle.std.specs.Prelude.{◌≡◌, MatchOption};
ghost use Rattle.sql_read.specs.Lexemes.{seen};
ghost use Rattle.sql_read.specs.Expressions.{op_at, null_at, is_at, null_test_at};
ghost use Rattle.sql_read.specs.Expressions.{word_test_at, follow_at};

use crate::cursor::{Left, after_mark};
use crate::lexeme::Mark;
use sql_tree::Op;

/// A test, by what stands behind its first operand. A flag is true for the form with NOT.
#[derive(Clone, Copy)]
pub enum Follow {
    Cmp(Op),
    Null(bool),
    Between(bool),
    OneOf(bool),
    Like(bool),
}

#[tactic(auto, unfolding(crate::specs::Expressions::op_at))]
fn op<'a>(lexemes: Left<'a>) -> Option<(Op, Left<'a>)>
    ensures { MatchOption result (op_at (seen lexemes.now) ≡ None)
        (λ r. op_at (seen lexemes.now) ≡ Some (r.0, seen r.1.now)) }
{
    if let Some(rest) = after_mark(Mark::Eq, lexemes) {
        return Some((Op::Eq, rest));
    }
    if let Some(rest) = after_mark(Mark::EqEq, lexemes) {
        return Some((Op::Eq, rest));
    }
    if let Some(rest) = after_mark(Mark::Ne, lexemes) {
        return Some((Op::Ne, rest));
    }
    if let Some(rest) = after_mark(Mark::Lt, lexemes) {
        return Some((Op::Lt, rest));
    }
    if let Some(rest) = after_mark(Mark::Le, lexemes) {
        return Some((Op::Le, rest));
    }
    if let Some(rest) = after_mark(Mark::Gt, lexemes) {
        return Some((Op::Gt, rest));
    }
    match after_mark(Mark::Ge, lexemes) {
        Some(rest) => Some((Op::Ge, rest)),
        None => None,
    }
}

#[tactic(auto, unfolding(crate::specs::Expressions::null_at))]
fn null<'a>(negated: bool, lexemes: Left<'a>) -> Option<(bool, Left<'a>)>
    ensures { MatchOption result (null_at negated (seen lexemes.now) ≡ None)
        (λ r. null_at negated (seen lexemes.now) ≡ Some (r.0, seen r.1.now)) }
{
    match after_mark(Mark::Null, lexemes) {
        Some(rest) => Some((negated, rest)),
        None => None,
    }
}

#[tactic(auto, unfolding(crate::specs::Expressions::is_at))]
fn behind_is<'a>(lexemes: Left<'a>) -> Option<(bool, Left<'a>)>
    ensures { MatchOption result (is_at (seen lexemes.now) ≡ None)
        (λ r. is_at (seen lexemes.now) ≡ Some (r.0, seen r.1.now)) }
{
    match after_mark(Mark::Not, lexemes) {
        Some(rest) => null(true, rest),
        None => null(false, lexemes),
    }
}

#[tactic(auto, unfolding(crate::specs::Expressions::null_test_at))]
fn null_test<'a>(lexemes: Left<'a>) -> Option<(bool, Left<'a>)>
    ensures { MatchOption result (null_test_at (seen lexemes.now) ≡ None)
        (λ r. null_test_at (seen lexemes.now) ≡ Some (r.0, seen r.1.now)) }
{
    if let Some(rest) = after_mark(Mark::Isnull, lexemes) {
        return Some((false, rest));
    }
    if let Some(rest) = after_mark(Mark::Notnull, lexemes) {
        return Some((true, rest));
    }
    if let Some(rest) = after_mark(Mark::Is, lexemes) {
        return behind_is(rest);
    }
    match after_mark(Mark::Not, lexemes) {
        Some(rest) => null(true, rest),
        None => None,
    }
}

/// BETWEEN, IN or LIKE, which NOT may stand before.
#[tactic(auto, unfolding(crate::specs::Expressions::word_test_at))]
fn word_test<'a>(negated: bool, lexemes: Left<'a>) -> Option<(Follow, Left<'a>)>
    ensures { MatchOption result (word_test_at negated (seen lexemes.now) ≡ None)
        (λ r. word_test_at negated (seen lexemes.now) ≡ Some (r.0, seen r.1.now)) }
{
    if let Some(rest) = after_mark(Mark::Between, lexemes) {
        return Some((Follow::Between(negated), rest));
    }
    if let Some(rest) = after_mark(Mark::Like, lexemes) {
        return Some((Follow::Like(negated), rest));
    }
    match after_mark(Mark::In, lexemes) {
        Some(rest) => Some((Follow::OneOf(negated), rest)),
        None => None,
    }
}

/// Which test begins here, if one does.
#[tactic(auto, unfolding(crate::specs::Expressions::follow_at))]
pub fn find_follow<'a>(lexemes: Left<'a>) -> Option<(Follow, Left<'a>)>
    ensures { MatchOption result (follow_at (seen lexemes.now) ≡ None)
        (λ r. follow_at (seen lexemes.now) ≡ Some (r.0, seen r.1.now)) }
{
    if let Some((op, rest)) = op(lexemes) {
        return Some((Follow::Cmp(op), rest));
    }
    if let Some((negated, rest)) = null_test(lexemes) {
        return Some((Follow::Null(negated), rest));
    }
    match after_mark(Mark::Not, lexemes) {
        Some(rest) => word_test(true, rest),
        None => word_test(false, lexemes),
    }
}
