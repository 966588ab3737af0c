//! ORDER BY.
ghost use Rattle.std.specs.Prelude.{◌≡◌, map};
ghost use Rattle.sql_tree.specs.Statements.{KeyTree, key_tree};
ghost use Rattle.sql_read.specs.declared.lexeme.Mark.TheVariants as mark;
ghost use Rattle.sql_read.specs.Lexemes.{seen};
ghost use Rattle.sql_read.specs.Reading.{Gives, after, list_at};
ghost use Rattle.sql_read.specs.Expressions.{below, expr_at};
ghost use Rattle.sql_read.specs.Parts.{direction_at, key_at, keys_at};

use crate::cursor::{Left, after_mark, first};
use crate::descent::expr;
use crate::lexeme::{DescentFault, Direction, Lexeme, Mark};
use crate::lists::{Member, separated_list};
use bumpalo::Bump;
use sql_tree::{Key, place_expr};
use std::alloc::Global;

/// Whether DESC stands here, and the lexemes behind ASC or DESC.
#[tactic(auto, unfolding(crate::specs::Parts::direction_at))]
fn direction_read<'a>(lexemes: Left<'a>) -> (bool, Left<'a>)
    ensures { direction_at (seen lexemes.now) ≡ Some (result.0, seen result.1.now) }
{
    match first(lexemes) {
        Some((Lexeme::Name(_, Some(Direction::Asc)), rest)) => (false, rest),
        Some((Lexeme::Name(_, Some(Direction::Desc)), rest)) => (true, rest),
        _ => (false, lexemes),
    }
}

#[tactic(auto, unfolding(crate::specs::Parts::key_at))]
fn key_read<'a>(
    alloc: Global,
    arena: &'a Bump,
    depth: usize,
    lexemes: Left<'a>,
) -> Result<(Key<'a>, Left<'a>), DescentFault>
    ensures { Gives (λ x. (key_tree x.0, seen x.1.now)) result
        (key_at (expr_at (below depth)) (seen lexemes.now)) }
{
    let (value, behind) = expr(alloc, arena, depth, lexemes)?;
    let (desc, rest) = direction_read(behind);
    Ok((
        Key {
            expr: place_expr(arena, value)?,
            desc,
        },
        rest,
    ))
}

impl Member for Key<'_> {
    ghost Plain = { KeyTree };

    ghost tree = { key_tree };
}

fn key_list<'a>(
    alloc: Global,
    arena: &'a Bump,
    depth: usize,
    lexemes: Left<'a>,
) -> Result<(Vec<Key<'a>>, Left<'a>), DescentFault>
    ensures { Gives (λ x. (map key_tree x.0.items, seen x.1.now)) result
        (list_at (key_at (expr_at (below depth))) (after mark.Comma)
        (key_at (expr_at (below depth))) (seen lexemes.now)) }
{
    let read = |left| key_read(alloc, arena, depth, left);
    separated_list(alloc, Mark::Comma, lexemes, read)
}

/// The keys of ORDER BY, if it stands here.
#[tactic(auto, unfolding(crate::specs::Parts::keys_at))]
pub fn keys<'a>(
    alloc: Global,
    arena: &'a Bump,
    depth: usize,
    lexemes: Left<'a>,
) -> Result<(Vec<Key<'a>>, Left<'a>), DescentFault>
    ensures { Gives (λ x. (map key_tree x.0.items, seen x.1.now)) result
        (keys_at (expr_at (below depth)) (seen lexemes.now)) }
{
    match after_mark(Mark::Order, lexemes) {
        Some(behind) => match after_mark(Mark::By, behind) {
            Some(rest) => key_list(alloc, arena, depth, rest),
            None => Err(DescentFault::Syntax),
        },
        None => Ok((Vec::new(alloc), lexemes)),
    }
}
