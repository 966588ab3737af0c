//! Expressions that hold no other: constants, parameters, names.
ghost use Rattle.std.specs.Prelude.{◌≡◌};
ghost use Rattle.sql_tree.specs.Trees.{tree_of};
ghost use Rattle.sql_read.specs.Lexemes.{seen};
ghost use Rattle.sql_read.specs.Reading.{Gives};
ghost use Rattle.sql_read.specs.Leaves.{signed, number_at, named_at, leaf_at, collated_at};

use crate::cursor::{Left, after_mark, first, name};
use crate::lexeme::{DescentFault, Lexeme, Mark};
use bumpalo::Bump;
use sql_tree::{Expr, Lit};

/// An expression, and the lexemes behind it.
pub type Read<'a> = Result<(Expr<'a>, Left<'a>), DescentFault>;

/// The number with its sign, where 64 bits hold it.
pub fn signed(negative: bool, magnitude: u64) -> Option<i64>
    ensures { result ≡ signed negative magnitude }
{
    if !negative {
        if magnitude < 1 << 63 {
            Some(magnitude as i64)
        } else {
            None
        }
    } else if magnitude < 1 << 63 {
        Some(-(magnitude as i64))
    } else if magnitude == 1 << 63 {
        Some(i64::MIN)
    } else {
        None
    }
}

#[tactic(auto, unfolding(crate::specs::Leaves::number_at))]
pub fn number<'a>(negative: bool, lexemes: Left<'a>) -> Read<'a>
    ensures { Gives (λ x. (tree_of x.0, seen x.1.now)) result
        (number_at negative (seen lexemes.now)) }
{
    match first(lexemes) {
        Some((Lexeme::Int(magnitude), rest)) => match signed(negative, magnitude) {
            Some(value) => Ok((Expr::Lit(Lit::Int(value)), rest)),
            None => Err(DescentFault::Syntax),
        },
        Some((Lexeme::Dec(magnitude), rest)) => match signed(negative, magnitude) {
            Some(units) => Ok((Expr::Lit(Lit::Dec(units)), rest)),
            None => Err(DescentFault::Syntax),
        },
        _ => Err(DescentFault::Syntax),
    }
}

#[tactic(auto, unfolding(crate::specs::Leaves::named_at))]
fn named<'a>(table: &'a [u8], lexemes: Left<'a>) -> Read<'a>
    ensures { Gives (λ x. (tree_of x.0, seen x.1.now)) result
        (named_at table.now (seen lexemes.now)) }
{
    match after_mark(Mark::Dot, lexemes) {
        Some(behind) => match name(behind) {
            Some((column, rest)) => Ok((sql_tree::name(Some(table), column), rest)),
            None => Err(DescentFault::Syntax),
        },
        None => Ok((sql_tree::name(None, table), lexemes)),
    }
}

/// A constant without sign, a parameter or a name.
#[tactic(auto, unfolding(crate::specs::Leaves::leaf_at))]
pub fn leaf<'a>(lexemes: Left<'a>) -> Read<'a>
    ensures { Gives (λ x. (tree_of x.0, seen x.1.now)) result (leaf_at (seen lexemes.now)) }
{
    match first(lexemes) {
        Some((Lexeme::Name(bytes, _), rest)) => named(bytes, rest),
        Some((Lexeme::Text(bytes), rest)) => Ok((Expr::Lit(Lit::Text(bytes)), rest)),
        Some((Lexeme::Blob(bytes), rest)) => Ok((Expr::Lit(Lit::Blob(bytes)), rest)),
        Some((Lexeme::Param(number), rest)) => Ok((Expr::Param(number), rest)),
        Some((Lexeme::Int(_), _)) => number(false, lexemes),
        Some((Lexeme::Dec(_), _)) => number(false, lexemes),
        _ => Err(DescentFault::Syntax),
    }
}

/// The expression, under the collation that follows it if one does.
#[tactic(auto, unfolding(crate::specs::Leaves::collated_at))]
pub fn collated<'a>(arena: &'a Bump, inner: Expr<'a>, lexemes: Left<'a>) -> Read<'a>
    ensures { Gives (λ x. (tree_of x.0, seen x.1.now)) result
        (collated_at (tree_of inner.entry) (seen lexemes.now)) }
{
    match after_mark(Mark::Collate, lexemes) {
        Some(behind) => match name(behind) {
            Some((collation, rest)) => Ok((sql_tree::collate(arena, inner, collation)?, rest)),
            None => Err(DescentFault::Syntax),
        },
        None => Ok((inner, lexemes)),
    }
}
