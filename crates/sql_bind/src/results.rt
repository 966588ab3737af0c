//! The result list.
ghost use Rattle.std.specs.Prelude.{◌≡◌, ◌<◌, ◌++◌, ◌∷◌, [], length, map, flat_map, option_map};
ghost use Rattle.std.specs.Prelude.{codes, None, IfOk, OnOk};
ghost use Rattle.sql_tree.specs.Trees.{tree_of};
ghost use Rattle.sql_tree.specs.Statements.{item_tree};
ghost use Rattle.sql_tree.specs.Statements.{TableStar};
ghost use Rattle.sql_bound.specs.Expressions.{expr_of};
ghost use Rattle.sql_names.specs.Faults.{Answers};
ghost use Rattle.sql_names.specs.Binding.{bound, expr_checks};
ghost use Rattle.sql_bind.specs.Results.{item_columns, every_column, entry_checks, results_of};
ghost use Rattle.sql_bind.specs.Views.{results_seen};

use bumpalo::Bump;
use sql_bound::BExpr;
use sql_names::{BindFault, Scope, bind_expr, column_expr};
use sql_tree::{Expr, Item, place};
use sql_value::{Bytes, Memory};
use std::alloc::Global;

/// A result, and the name that ORDER BY may call it by.
#[derive(Clone, Copy)]
pub(crate) struct ResultColumn<'a> {
    pub expr: &'a BExpr<'a>,
    pub alias: Option<&'a [u8]>,
}

/// More results than these are taken for want of memory.
const MOST_RESULTS: usize = 1 << 24;

fn push<'a>(
    arena: &'a Bump,
    results: &mut Vec<ResultColumn<'a>>,
    expr: BExpr<'a>,
    alias: Option<&'a [u8]>,
) -> Result<(), Memory>
    ensures { OnOk result (results_seen results.new.items
        ≡ results_seen results.old.items
        ++ record {
          expr = expr_of expr.entry;
          alias = option_map (λ bytes. bytes.now) alias.entry;
        } ∷ []) }
{
    if results.len() >= MOST_RESULTS {
        return Err(Memory);
    }
    let expr = place(arena, expr)?;
    Ok(results.push(ResultColumn { expr, alias })?)
}

/// Appends the columns of an item.
fn push_columns<'a>(
    arena: &'a Bump,
    scope: &Scope,
    results: &mut Vec<ResultColumn<'a>>,
    item: u32,
) -> Result<(), Memory>
    requires { item < length scope.now.items }
    ensures { OnOk result
        (results_seen results.new.items ≡ results_seen results.old.items
        ++ item_columns scope.now item) }
{
    let table = scope.table(item);
    let width = table.columns.as_slice().len() as u32;
    for column in 0..width {
        push(arena, results, column_expr(table, item, column), None)?;
    }
    Ok(())
}

/// Appends the columns of each item.
fn push_all_columns<'a>(
    arena: &'a Bump,
    scope: &Scope,
    results: &mut Vec<ResultColumn<'a>>,
) -> Result<(), Memory>
    ensures { OnOk result
        (results_seen results.new.items ≡ results_seen results.old.items
        ++ every_column scope.now) }
{
    for item in 0..scope.count() {
        push_columns(arena, scope, results, item)?;
    }
    Ok(())
}

/// `t.*` where no item is called t.
fn missing_star(alloc: Global, table: &[u8]) -> Result<BindFault, Memory>
    ensures { IfOk result (λ fault. fault ≡ BindFault.NoSuchColumn (table.now ++ codes ".*")) }
{
    let mut shown = Bytes::copy(alloc, table)?;
    shown.append(b".*")?;
    Ok(BindFault::NoSuchColumn(shown))
}

/// Appends the columns of the item of a name.
fn push_star<'a>(
    alloc: Global,
    arena: &'a Bump,
    scope: &Scope,
    results: &mut Vec<ResultColumn<'a>>,
    table: &[u8],
) -> Result<(), BindFault>
    ensures { Answers (λ _. results_seen results.new.items) result
        (entry_checks scope.now (TableStar table.now))
        (results_seen results.old.items ++ results_of scope.now (TableStar table.now)) }
{
    match scope.item_named(alloc, table)? {
        Some(item) => {
            push_columns(arena, scope, results, item)?;
            Ok(())
        }
        None => Err(missing_star(alloc, table)?),
    }
}

/// Appends an expression.
fn push_value<'a>(
    alloc: Global,
    arena: &'a Bump,
    scope: &Scope,
    results: &mut Vec<ResultColumn<'a>>,
    tree: &Expr<'a>,
    alias: Option<&'a [u8]>,
) -> Result<(), BindFault>
    ensures { Answers (λ _. results_seen results.new.items) result
        (expr_checks scope.now None (tree_of tree.now))
        (results_seen results.old.items
        ++ record {
          expr = bound scope.now (tree_of tree.now);
          alias = option_map (λ bytes. bytes.now) alias.entry;
        } ∷ []) }
{
    let expr = bind_expr(alloc, arena, scope, None, tree)?;
    push(arena, results, expr, alias)?;
    Ok(())
}

/// Appends what an entry of the list stands for.
fn push_entry<'a>(
    alloc: Global,
    arena: &'a Bump,
    scope: &Scope,
    results: &mut Vec<ResultColumn<'a>>,
    entry: &Item<'a>,
) -> Result<(), BindFault>
    ensures { Answers (λ _. results_seen results.new.items) result
        (entry_checks scope.now (item_tree entry.now))
        (results_seen results.old.items ++ results_of scope.now (item_tree entry.now)) }
{
    match entry {
        Item::Star => {
            push_all_columns(arena, scope, results)?;
            Ok(())
        }
        Item::TableStar(table) => push_star(alloc, arena, scope, results, table),
        Item::Value(tree, alias) => push_value(alloc, arena, scope, results, tree, *alias),
    }
}

/// The results, `*` expanded.
pub(crate) fn bind_results<'a>(
    alloc: Global,
    arena: &'a Bump,
    scope: &Scope,
    entries: &[Item<'a>],
) -> Result<Vec<ResultColumn<'a>>, BindFault>
    ensures { Answers (λ results. results_seen results.items) result
        (flat_map (entry_checks scope.now) (map item_tree entries.now))
        (flat_map (results_of scope.now) (map item_tree entries.now)) }
{
    let mut results = Vec::new(alloc);
    for entry in entries {
        push_entry(alloc, arena, scope, &mut results, entry)?;
    }
    Ok(results)
}
