//! LIMIT and OFFSET.
ghost use Rattle.std.specs.Prelude.{◌≡◌, MatchOption};
ghost use Rattle.sql_read.specs.Lexemes.{seen};
ghost use Rattle.sql_read.specs.Reading.{Gives};
ghost use Rattle.sql_read.specs.Limits.{count_at, param_at, cut_at, second_cut_at, limits_at};

use crate::cursor::{Left, after_mark, first};
use crate::leaf::signed;
use crate::lexeme::{DescentFault, Lexeme, Mark};
use sql_tree::Cut;

type ReadCut<'a> = Result<(Cut, Left<'a>), DescentFault>;

#[tactic(auto, unfolding(crate::specs::Limits::count_at))]
fn count<'a>(negative: bool, lexemes: Left<'a>) -> ReadCut<'a>
    ensures { Gives (λ x. (x.0, seen x.1.now)) result
        (count_at negative (seen lexemes.now)) }
{
    match first(lexemes) {
        Some((Lexeme::Int(magnitude), rest)) => match signed(negative, magnitude) {
            Some(value) => Ok((Cut::Count(value), rest)),
            None => Err(DescentFault::Syntax),
        },
        _ => Err(DescentFault::Syntax),
    }
}

#[tactic(auto, unfolding(crate::specs::Limits::param_at))]
fn param<'a>(lexemes: Left<'a>) -> Option<(u32, Left<'a>)>
    ensures { MatchOption result (param_at (seen lexemes.now) ≡ None)
        (λ r. param_at (seen lexemes.now) ≡ Some (r.0, seen r.1.now)) }
{
    match first(lexemes) {
        Some((Lexeme::Param(number), rest)) => Some((number, rest)),
        _ => None,
    }
}

#[tactic(auto, unfolding(crate::specs::Limits::cut_at))]
fn cut_read<'a>(lexemes: Left<'a>) -> ReadCut<'a>
    ensures { Gives (λ x. (x.0, seen x.1.now)) result (cut_at (seen lexemes.now)) }
{
    if let Some(rest) = after_mark(Mark::Minus, lexemes) {
        return count(true, rest);
    }
    match param(lexemes) {
        Some((number, rest)) => Ok((Cut::Param(number), rest)),
        None => count(false, lexemes),
    }
}

/// The limit and the offset, and the lexemes behind them.
pub type ReadCuts<'a> = Result<((Option<Cut>, Option<Cut>), Left<'a>), DescentFault>;

#[tactic(auto, unfolding(crate::specs::Limits::second_cut_at))]
fn second_cut<'a>(first_cut: Cut, lexemes: Left<'a>) -> ReadCuts<'a>
    ensures { Gives (λ x. ((x.0.0, x.0.1), seen x.1.now)) result
        (second_cut_at first_cut (seen lexemes.now)) }
{
    if let Some(behind) = after_mark(Mark::Offset, lexemes) {
        let (offset, rest) = cut_read(behind)?;
        return Ok(((Some(first_cut), Some(offset)), rest));
    }
    match after_mark(Mark::Comma, lexemes) {
        Some(behind) => {
            let (limit, rest) = cut_read(behind)?;
            Ok(((Some(limit), Some(first_cut)), rest))
        }
        None => Ok(((Some(first_cut), None), lexemes)),
    }
}

/// LIMIT and OFFSET, if they stand here. In `LIMIT x, y` the first number is the offset.
#[tactic(auto, unfolding(crate::specs::Limits::limits_at))]
pub fn limits<'a>(lexemes: Left<'a>) -> ReadCuts<'a>
    ensures { Gives (λ x. ((x.0.0, x.0.1), seen x.1.now)) result
        (limits_at (seen lexemes.now)) }
{
    match after_mark(Mark::Limit, lexemes) {
        Some(behind) => {
            let (cut, rest) = cut_read(behind)?;
            second_cut(cut, rest)
        }
        None => Ok(((None, None), lexemes)),
    }
}
