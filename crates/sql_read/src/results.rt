//! The result list: expressions, their aliases and stars.
ghost use Rattle.std.specs.Prelude.{◌≡◌, MatchOption, option_map, map};
ghost use Rattle.sql_tree.specs.Statements.{ItemTree, item_tree};
ghost use Rattle.sql_read.specs.Lexemes.{seen};
ghost use Rattle.sql_read.specs.Reading.{Gives};
ghost use Rattle.sql_read.specs.Expressions.{below, expr_at};
ghost use Rattle.sql_read.specs.Parts.{label_at, alias_at, table_star_at, value_result_at};
ghost use Rattle.sql_read.specs.Parts.{result_at};
ghost use Rattle.sql_read.specs.Statements.{results_at};

use crate::cursor::{Left, after_mark, first, name};
use crate::descent::expr;
use crate::lexeme::{DescentFault, Lexeme, Mark};
use crate::lists::{Member, separated_list};
use bumpalo::Bump;
use sql_tree::{Item, place_expr};
use std::alloc::Global;

#[tactic(auto, unfolding(crate::specs::Parts::label_at))]
fn label<'a>(texts: bool, lexemes: Left<'a>) -> Option<(&'a [u8], Left<'a>)>
    ensures { MatchOption result (label_at texts (seen lexemes.now) ≡ None)
        (λ r. label_at texts (seen lexemes.now) ≡ Some (r.0.now, seen r.1.now)) }
{
    match first(lexemes) {
        Some((Lexeme::Name(bytes, _), rest)) => Some((bytes, rest)),
        Some((Lexeme::Text(bytes), rest)) => { if texts { Some((bytes, rest)) } else { None } }
        _ => None,
    }
}

/// The alias that stands here, if one does: a name, and where `texts` is true also a text.
#[tactic(auto, unfolding(crate::specs::Parts::alias_at))]
pub fn alias<'a>(
    texts: bool,
    lexemes: Left<'a>,
) -> Result<(Option<&'a [u8]>, Left<'a>), DescentFault>
    ensures { Gives (λ x. (option_map (λ bytes. bytes.now) x.0, seen x.1.now)) result
        (alias_at texts (seen lexemes.now)) }
{
    match after_mark(Mark::As, lexemes) {
        Some(behind) => match label(texts, behind) {
            Some((bytes, rest)) => Ok((Some(bytes), rest)),
            None => Err(DescentFault::Syntax),
        },
        None => match label(texts, lexemes) {
            Some((bytes, rest)) => Ok((Some(bytes), rest)),
            None => Ok((None, lexemes)),
        },
    }
}

#[tactic(auto, unfolding(crate::specs::Parts::table_star_at))]
fn table_star<'a>(lexemes: Left<'a>) -> Option<(&'a [u8], Left<'a>)>
    ensures { MatchOption result (table_star_at (seen lexemes.now) ≡ None)
        (λ r. table_star_at (seen lexemes.now) ≡ Some (r.0.now, seen r.1.now)) }
{
    match name(lexemes) {
        Some((table, behind)) => match after_mark(Mark::Dot, behind) {
            Some(dotted) => match after_mark(Mark::Star, dotted) {
                Some(rest) => Some((table, rest)),
                None => None,
            },
            None => None,
        },
        None => None,
    }
}

#[tactic(auto, unfolding(crate::specs::Parts::value_result_at))]
fn value_result<'a>(
    alloc: Global,
    arena: &'a Bump,
    depth: usize,
    lexemes: Left<'a>,
) -> Result<(Item<'a>, Left<'a>), DescentFault>
    ensures { Gives (λ x. (item_tree x.0, seen x.1.now)) result
        (value_result_at (expr_at (below depth)) (seen lexemes.now)) }
{
    let (value, behind) = expr(alloc, arena, depth, lexemes)?;
    let (called, rest) = alias(true, behind)?;
    Ok((Item::Value(place_expr(arena, value)?, called), rest))
}

#[tactic(auto, unfolding(crate::specs::Parts::result_at))]
fn result_read<'a>(
    alloc: Global,
    arena: &'a Bump,
    depth: usize,
    lexemes: Left<'a>,
) -> Result<(Item<'a>, Left<'a>), DescentFault>
    ensures { Gives (λ x. (item_tree x.0, seen x.1.now)) result
        (result_at (expr_at (below depth)) (seen lexemes.now)) }
{
    if let Some(rest) = after_mark(Mark::Star, lexemes) {
        return Ok((Item::Star, rest));
    }
    match table_star(lexemes) {
        Some((table, rest)) => Ok((Item::TableStar(table), rest)),
        None => value_result(alloc, arena, depth, lexemes),
    }
}

impl Member for Item<'_> {
    ghost Plain = { ItemTree };

    ghost tree = { item_tree };
}

/// The entries of the result list.
#[tactic(auto, unfolding(crate::specs::Statements::results_at))]
pub fn results<'a>(
    alloc: Global,
    arena: &'a Bump,
    depth: usize,
    lexemes: Left<'a>,
) -> Result<(Vec<Item<'a>>, Left<'a>), DescentFault>
    ensures { Gives (λ x. (map item_tree x.0.items, seen x.1.now)) result
        (results_at (expr_at (below depth)) (seen lexemes.now)) }
{
    let read = |left| result_read(alloc, arena, depth, left);
    separated_list(alloc, Mark::Comma, lexemes, read)
}
