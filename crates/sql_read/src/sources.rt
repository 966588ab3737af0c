//! The sources of a statement, and their joins.
ghost use Rattle.std.specs.Prelude.{◌≡◌, MatchOption, option_map, map};
ghost use Rattle.sql_tree.specs.Trees.{tree_of};
ghost use Rattle.sql_tree.specs.Statements.{SourceTree, source_tree};
ghost use Rattle.sql_read.specs.Lexemes.{seen};
ghost use Rattle.sql_read.specs.Reading.{Gives};
ghost use Rattle.sql_read.specs.Expressions.{below, expr_at};
ghost use Rattle.sql_read.specs.Parts.{optional_at, source_at, joined_source_at, join_at};
ghost use Rattle.sql_read.specs.Parts.{join_begins};
ghost use Rattle.sql_read.specs.Statements.{sources_at};

use crate::cursor::{Left, after_mark, name, skip};
use crate::descent::expr;
use crate::lexeme::{DescentFault, Mark};
use crate::lists::{Member, list_of};
use crate::results::alias;
use bumpalo::Bump;
use sql_tree::{Expr, Source, place_expr};
use std::alloc::Global;

/// A source, and the lexemes behind it.
pub type ReadSource<'a> = Result<(Source<'a>, Left<'a>), DescentFault>;

/// The condition behind a mark, if the mark stands here.
#[tactic(auto, unfolding(crate::specs::Parts::optional_at))]
pub fn condition<'a>(
    alloc: Global,
    arena: &'a Bump,
    depth: usize,
    mark: Mark,
    lexemes: Left<'a>,
) -> Result<(Option<&'a Expr<'a>>, Left<'a>), DescentFault>
    ensures { Gives (λ x. (option_map (λ place. tree_of place.now) x.0, seen x.1.now)) result
        (optional_at mark (expr_at (below depth)) (seen lexemes.now)) }
{
    match after_mark(mark, lexemes) {
        Some(behind) => {
            let (condition, rest) = expr(alloc, arena, depth, behind)?;
            Ok((Some(place_expr(arena, condition)?), rest))
        }
        None => Ok((None, lexemes)),
    }
}

/// A table, with its alias.
#[tactic(auto, unfolding(crate::specs::Parts::source_at))]
pub fn source_read<'a>(lexemes: Left<'a>) -> ReadSource<'a>
    ensures { Gives (λ x. (source_tree x.0, seen x.1.now)) result
        (source_at (seen lexemes.now)) }
{
    let Some((table, behind)) = name(lexemes) else {
        return Err(DescentFault::Syntax);
    };
    let (called, rest) = alias(false, behind)?;
    Ok((
        Source {
            table,
            alias: called,
            cross: false,
            left: false,
            on: None,
        },
        rest,
    ))
}

#[tactic(auto, unfolding(crate::specs::Parts::joined_source_at))]
fn joined_source<'a>(
    alloc: Global,
    arena: &'a Bump,
    depth: usize,
    lexemes: Left<'a>,
) -> ReadSource<'a>
    ensures { Gives (λ x. (source_tree x.0, seen x.1.now)) result
        (joined_source_at (expr_at (below depth)) (seen lexemes.now)) }
{
    match after_mark(Mark::Join, lexemes) {
        Some(behind) => {
            let (source, left) = source_read(behind)?;
            let (on, rest) = condition(alloc, arena, depth, Mark::On, left)?;
            Ok((Source { on, ..source }, rest))
        }
        None => Err(DescentFault::Syntax),
    }
}

/// A further source, from the mark on that joins it.
#[tactic(auto, unfolding(crate::specs::Parts::join_at))]
fn join_read<'a>(alloc: Global, arena: &'a Bump, depth: usize, lexemes: Left<'a>) -> ReadSource<'a>
    ensures { Gives (λ x. (source_tree x.0, seen x.1.now)) result
        (join_at (expr_at (below depth)) (seen lexemes.now)) }
{
    if let Some(rest) = after_mark(Mark::Comma, lexemes) {
        return source_read(rest);
    }
    if let Some(behind) = after_mark(Mark::Cross, lexemes) {
        let (source, rest) = joined_source(alloc, arena, depth, behind)?;
        return Ok((
            Source {
                cross: true,
                ..source
            },
            rest,
        ));
    }
    if let Some(behind) = after_mark(Mark::Left, lexemes) {
        let (source, rest) = joined_source(alloc, arena, depth, skip(Mark::Outer, behind))?;
        return Ok((
            Source {
                left: true,
                ..source
            },
            rest,
        ));
    }
    joined_source(alloc, arena, depth, skip(Mark::Inner, lexemes))
}

/// The lexemes, where a further source begins with them.
#[tactic(auto, unfolding(crate::specs::Parts::join_begins))]
fn joins<'a>(lexemes: Left<'a>) -> Option<Left<'a>>
    ensures { MatchOption result (join_begins (seen lexemes.now) ≡ None)
        (λ r. join_begins (seen lexemes.now) ≡ Some (seen r.now)) }
{
    if after_mark(Mark::Comma, lexemes).is_some() {
        return Some(lexemes);
    }
    if after_mark(Mark::Cross, lexemes).is_some() {
        return Some(lexemes);
    }
    if after_mark(Mark::Left, lexemes).is_some() {
        return Some(lexemes);
    }
    if after_mark(Mark::Inner, lexemes).is_some() {
        return Some(lexemes);
    }
    match after_mark(Mark::Join, lexemes) {
        Some(_) => Some(lexemes),
        None => None,
    }
}

impl Member for Source<'_> {
    ghost Plain = { SourceTree };

    ghost tree = { source_tree };
}

/// The sources behind FROM.
#[tactic(auto, unfolding(crate::specs::Statements::sources_at))]
pub fn sources<'a>(
    alloc: Global,
    arena: &'a Bump,
    depth: usize,
    lexemes: Left<'a>,
) -> Result<(Vec<Source<'a>>, Left<'a>), DescentFault>
    ensures { Gives (λ x. (map source_tree x.0.items, seen x.1.now)) result
        (sources_at (expr_at (below depth)) (seen lexemes.now)) }
{
    list_of(
        alloc,
        lexemes,
        source_read,
        joins,
        |left| join_read(alloc, arena, depth, left),
    )
}
