//! The clauses of a statement, whichever it is: a clause that it doesn't have is empty.
ghost use Rattle.std.specs.Prelude.{◌≡◌, map, option_map};
ghost use Rattle.sql_tree.specs.Trees.{tree_of};
ghost use Rattle.sql_tree.specs.Statements.{source_tree, item_tree, set_tree, key_tree};
ghost use Rattle.sql_tree.specs.Statements.{statement_tree};
ghost use Rattle.sql_bound.specs.Statements.{cut_of};
ghost use Rattle.sql_bind.specs.Clauses as meant;

use sql_tree::{Cut, Expr, Item, Key, Source, Stmt};
use std::slice;

/// FROM, or the one table that is changed.
pub(crate) fn sources_of<'s, 'a>(stmt: &'s Stmt<'a>) -> &'s [Source<'a>]
    ensures { map source_tree result.now ≡ meant.sources_of (statement_tree stmt.now) }
{
    match stmt {
        Stmt::Select(select) => select.sources,
        Stmt::Update(update) => slice::from_ref(&update.source),
        Stmt::Delete(delete) => slice::from_ref(&delete.source),
    }
}

/// The entries of the result list.
pub(crate) fn entries_of<'a>(stmt: &Stmt<'a>) -> &'a [Item<'a>]
    ensures { map item_tree result.now ≡ meant.entries_of (statement_tree stmt.now) }
{
    match stmt {
        Stmt::Select(select) => select.items,
        Stmt::Update(_) | Stmt::Delete(_) => &[],
    }
}

/// What an UPDATE sets.
pub(crate) fn sets_of<'a>(stmt: &Stmt<'a>) -> &'a [(&'a [u8], &'a Expr<'a>)]
    ensures { map set_tree result.now ≡ meant.sets_of (statement_tree stmt.now) }
{
    match stmt {
        Stmt::Update(update) => update.sets,
        Stmt::Select(_) | Stmt::Delete(_) => &[],
    }
}

/// WHERE.
pub(crate) fn filter_of<'a>(stmt: &Stmt<'a>) -> Option<&'a Expr<'a>>
    ensures { option_map (λ e. tree_of e.now) result ≡ meant.filter_of (statement_tree stmt.now) }
{
    match stmt {
        Stmt::Select(select) => select.filter,
        Stmt::Update(update) => update.filter,
        Stmt::Delete(delete) => delete.filter,
    }
}

/// The keys of ORDER BY.
pub(crate) fn order_keys_of<'a>(stmt: &Stmt<'a>) -> &'a [Key<'a>]
    ensures { map key_tree result.now ≡ meant.order_keys_of (statement_tree stmt.now) }
{
    match stmt {
        Stmt::Select(select) => select.keys,
        Stmt::Update(_) | Stmt::Delete(_) => &[],
    }
}

/// LIMIT.
pub(crate) fn limit_of(stmt: &Stmt) -> Option<Cut>
    ensures { option_map cut_of result ≡ meant.limit_of (statement_tree stmt.now) }
{
    match stmt {
        Stmt::Select(select) => select.limit,
        Stmt::Update(_) | Stmt::Delete(_) => None,
    }
}

/// OFFSET.
pub(crate) fn offset_of(stmt: &Stmt) -> Option<Cut>
    ensures { option_map cut_of result ≡ meant.offset_of (statement_tree stmt.now) }
{
    match stmt {
        Stmt::Select(select) => select.offset,
        Stmt::Update(_) | Stmt::Delete(_) => None,
    }
}

/// Whether the statement is an UPDATE or DELETE.
pub(crate) fn changes_rows(stmt: &Stmt) -> bool
    ensures { result ≡ meant.changes_rows (statement_tree stmt.now) }
{
    match stmt {
        Stmt::Select(_) => false,
        Stmt::Update(_) | Stmt::Delete(_) => true,
    }
}
