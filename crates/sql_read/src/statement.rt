//! Whole statements: SELECT, UPDATE, DELETE.
ghost use Rattle.std.specs.Prelude.{◌≡◌, map};
ghost use Rattle.sql_tree.specs.Statements.{item_tree, select_tree, update_tree, delete_tree};
ghost use Rattle.sql_tree.specs.Statements.{statement_tree, SetTree, set_tree};
ghost use Rattle.sql_read.specs.Lexemes.{seen};
ghost use Rattle.sql_read.specs.Reading.{Gives};
ghost use Rattle.sql_read.specs.Expressions.{below, expr_at};
ghost use Rattle.sql_read.specs.Parts.{set_at};
ghost use Rattle.sql_read.specs.Statements.{sets_at, from_at, select_at, update_at};
ghost use Rattle.sql_read.specs.Statements.{delete_at};
ghost use Rattle.sql_read.specs.Statements.{statement_at, whole_at};

use crate::cursor::{Left, after_mark, count_left, name, skip};
use crate::descent::expr;
use crate::keys::keys;
use crate::lexeme::{DescentFault, Lexeme, Mark};
use crate::limits::limits;
use crate::lists::{Member, separated_list};
use crate::results::results;
use crate::sources::{condition, source_read, sources};
use bumpalo::Bump;
use sql_tree::{Delete, Expr, Item, Select, Stmt, Update, place_expr, place_slice};
use std::alloc::Global;

/// What follows FROM.
#[tactic(auto, unfolding(crate::specs::Statements::from_at))]
fn from_read<'a>(
    alloc: Global,
    arena: &'a Bump,
    depth: usize,
    results: &'a [Item<'a>],
    lexemes: Left<'a>,
) -> Result<(Select<'a>, Left<'a>), DescentFault>
    ensures { Gives (λ x. (select_tree x.0, seen x.1.now)) result
        (from_at (expr_at (below depth)) (map item_tree results.now) (seen lexemes.now)) }
{
    let (source_list, behind) = sources(alloc, arena, depth, lexemes)?;
    let (filter, left) = condition(alloc, arena, depth, Mark::Where, behind)?;
    let (key_list, over) = keys(alloc, arena, depth, left)?;
    let ((limit, offset), rest) = limits(over)?;
    Ok((
        Select {
            items: results,
            sources: place_slice(arena, source_list.as_slice())?,
            filter,
            keys: place_slice(arena, key_list.as_slice())?,
            limit,
            offset,
        },
        rest,
    ))
}

/// What follows SELECT.
#[tactic(auto, unfolding(crate::specs::Statements::select_at))]
fn select_read<'a>(
    alloc: Global,
    arena: &'a Bump,
    depth: usize,
    lexemes: Left<'a>,
) -> Result<(Select<'a>, Left<'a>), DescentFault>
    ensures { Gives (λ x. (select_tree x.0, seen x.1.now)) result
        (select_at (expr_at (below depth)) (seen lexemes.now)) }
{
    let (list, behind) = results(alloc, arena, depth, skip(Mark::All, lexemes))?;
    match after_mark(Mark::From, behind) {
        Some(rest) => {
            let places = place_slice(arena, list.as_slice())?;
            from_read(alloc, arena, depth, places, rest)
        }
        None => Err(DescentFault::Syntax),
    }
}

type ReadSet<'a> = Result<((&'a [u8], &'a Expr<'a>), Left<'a>), DescentFault>;

#[tactic(auto, unfolding(crate::specs::Parts::set_at))]
fn set_read<'a>(alloc: Global, arena: &'a Bump, depth: usize, lexemes: Left<'a>) -> ReadSet<'a>
    ensures { Gives (λ x. (set_tree x.0, seen x.1.now)) result
        (set_at (expr_at (below depth)) (seen lexemes.now)) }
{
    let Some((column, behind)) = name(lexemes) else {
        return Err(DescentFault::Syntax);
    };
    match after_mark(Mark::Eq, behind) {
        Some(left) => {
            let (value, rest) = expr(alloc, arena, depth, left)?;
            Ok(((column, place_expr(arena, value)?), rest))
        }
        None => Err(DescentFault::Syntax),
    }
}

impl<'a> Member for (&'a [u8], &'a Expr<'a>) {
    ghost Plain = { SetTree };

    ghost tree = { set_tree };
}

/// The columns that UPDATE sets.
#[tactic(auto, unfolding(crate::specs::Statements::sets_at))]
fn sets<'a>(
    alloc: Global,
    arena: &'a Bump,
    depth: usize,
    lexemes: Left<'a>,
) -> Result<(Vec<(&'a [u8], &'a Expr<'a>)>, Left<'a>), DescentFault>
    ensures { Gives (λ x. (map set_tree x.0.items, seen x.1.now)) result
        (sets_at (expr_at (below depth)) (seen lexemes.now)) }
{
    let read = |left| set_read(alloc, arena, depth, left);
    separated_list(alloc, Mark::Comma, lexemes, read)
}

/// What follows UPDATE.
#[tactic(auto, unfolding(crate::specs::Statements::update_at))]
fn update_read<'a>(
    alloc: Global,
    arena: &'a Bump,
    depth: usize,
    lexemes: Left<'a>,
) -> Result<(Update<'a>, Left<'a>), DescentFault>
    ensures { Gives (λ x. (update_tree x.0, seen x.1.now)) result
        (update_at (expr_at (below depth)) (seen lexemes.now)) }
{
    let (source, behind) = source_read(lexemes)?;
    match after_mark(Mark::Set, behind) {
        Some(left) => {
            let (list, over) = sets(alloc, arena, depth, left)?;
            let (filter, rest) = condition(alloc, arena, depth, Mark::Where, over)?;
            let sets = place_slice(arena, list.as_slice())?;
            Ok((
                Update {
                    source,
                    sets,
                    filter,
                },
                rest,
            ))
        }
        None => Err(DescentFault::Syntax),
    }
}

/// What follows DELETE.
#[tactic(auto, unfolding(crate::specs::Statements::delete_at))]
fn delete_read<'a>(
    alloc: Global,
    arena: &'a Bump,
    depth: usize,
    lexemes: Left<'a>,
) -> Result<(Delete<'a>, Left<'a>), DescentFault>
    ensures { Gives (λ x. (delete_tree x.0, seen x.1.now)) result
        (delete_at (expr_at (below depth)) (seen lexemes.now)) }
{
    match after_mark(Mark::From, lexemes) {
        Some(behind) => {
            let (source, left) = source_read(behind)?;
            let (filter, rest) = condition(alloc, arena, depth, Mark::Where, left)?;
            Ok((Delete { source, filter }, rest))
        }
        None => Err(DescentFault::Syntax),
    }
}

#[tactic(auto, unfolding(crate::specs::Statements::statement_at))]
fn statement_read<'a>(
    alloc: Global,
    arena: &'a Bump,
    depth: usize,
    lexemes: Left<'a>,
) -> Result<(Stmt<'a>, Left<'a>), DescentFault>
    ensures { Gives (λ x. (statement_tree x.0, seen x.1.now)) result
        (statement_at (expr_at (below depth)) (seen lexemes.now)) }
{
    if let Some(behind) = after_mark(Mark::Select, lexemes) {
        let (select, rest) = select_read(alloc, arena, depth, behind)?;
        return Ok((Stmt::Select(select), rest));
    }
    if let Some(behind) = after_mark(Mark::Update, lexemes) {
        let (update, rest) = update_read(alloc, arena, depth, behind)?;
        return Ok((Stmt::Update(update), rest));
    }
    match after_mark(Mark::Delete, lexemes) {
        Some(behind) => {
            let (delete, rest) = delete_read(alloc, arena, depth, behind)?;
            Ok((Stmt::Delete(delete), rest))
        }
        None => Err(DescentFault::Syntax),
    }
}

/// The statement that all the lexemes are. `Syntax` says that they are none.
#[tactic(auto, unfolding(crate::specs::Statements::whole_at))]
pub fn read_statement<'a>(
    alloc: Global,
    arena: &'a Bump,
    lexemes: &'a [Lexeme<'a>],
) -> Result<Stmt<'a>, DescentFault>
    ensures { Gives statement_tree result (whole_at (seen lexemes.now)) }
{
    let (statement, rest) = statement_read(alloc, arena, count_left(lexemes), lexemes)?;
    match crate::cursor::first(rest) {
        Some(_) => Err(DescentFault::Syntax),
        None => Ok(statement),
    }
}
