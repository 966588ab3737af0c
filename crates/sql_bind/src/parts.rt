//! What stays of a statement's clauses, in the arena.
ghost use Rattle.std.specs.Prelude.{◌≡◌, map, IfOk, option_map};
ghost use Rattle.sql_tree.specs.Statements.{statement_tree};
ghost use Rattle.sql_bound.specs.Expressions.{expr_of};
ghost use Rattle.sql_bound.specs.Statements.{item_of, bound_of, needs_of};
ghost use Rattle.sql_bind.specs.Needs.{needs_in};
ghost use Rattle.sql_bind.specs.Parts.{aliases_of, bound_from};
ghost use Rattle.sql_bind.specs.Views.{named_of, results_seen};

use crate::clauses::{changes_rows, limit_of, offset_of};
use crate::needs::bind_needs;
use crate::results::ResultColumn;
use crate::sources::NamedItem;
use bumpalo::Bump;
use bumpalo::collections::into_bump_slice;
use sql_bound::{BExpr, BExprs, BItem, BKey, Bound, Conjunct};
use sql_names::Scope;
use sql_tree::{Stmt, place_slice};
use sql_value::{Memory, push};
use std::alloc::Global;

/// The bound results, terms and keys.
#[derive(Clone, Copy)]
pub(crate) struct Parts<'s, 'a> {
    pub results: &'s [ResultColumn<'a>],
    pub terms: &'s [Conjunct<'a>],
    pub keys: &'s [BKey<'a>],
}

fn place_items<'a>(arena: &'a Bump, list: &[NamedItem<'a>]) -> Result<&'a [BItem<'a>], Memory>
    ensures items { IfOk result (λ items. map item_of items.now
        ≡ map (λ n. n.item) (map named_of list.now)) }
    ensures aliases { IfOk result (λ items. map
        (λ i. option_map (λ alias. alias.now) i.alias) items.now
        ≡ map (λ n. n.alias) (map named_of list.now)) }
{
    let mut items: Vec<BItem<'a>, &'a Bump> = Vec::new(arena);
    for named in list {
        push(&mut items, named.item)?;
    }
    Ok(into_bump_slice(items))
}

fn place_results<'a>(arena: &'a Bump, results: &[ResultColumn<'a>]) -> Result<BExprs<'a>, Memory>
    ensures { IfOk result (λ list. map (λ e. expr_of e.now) list.members.now
        ≡ map (λ r. r.expr) (results_seen results.now)) }
{
    let mut members: Vec<&'a BExpr<'a>, &'a Bump> = Vec::new(arena);
    for column in results {
        push(&mut members, column.expr)?;
    }
    Ok(BExprs {
        members: into_bump_slice(members),
    })
}

/// The bound statement of its parts.
pub(crate) fn place_bound<'a>(
    alloc: Global,
    arena: &'a Bump,
    scope: &Scope,
    list: &[NamedItem<'a>],
    stmt: &Stmt<'a>,
    parts: &Parts<'_, 'a>,
) -> Result<Bound<'a>, Memory>
    ensures bound { IfOk result (λ b. bound_of b
        ≡ bound_from (map named_of list.now) (statement_tree stmt.now) parts.now) }
    ensures needs { IfOk result (λ b. needs_of b
        ≡ needs_in scope.now (bound_from (map named_of list.now)
        (statement_tree stmt.now) parts.now)) }
    ensures aliases { IfOk result (λ b. aliases_of b ≡ map (λ n. n.alias) (map named_of list.now)) }
{
    let rowids = changes_rows(stmt);
    Ok(Bound {
        items: place_items(arena, list)?,
        rowids,
        results: place_results(arena, parts.results)?.members,
        conjuncts: place_slice(arena, parts.terms)?,
        keys: place_slice(arena, parts.keys)?,
        limit: limit_of(stmt),
        offset: offset_of(stmt),
        needs: bind_needs(alloc, arena, scope, rowids, parts)?,
    })
}
