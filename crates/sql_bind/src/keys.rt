//! ORDER BY.
ghost use Rattle.std.specs.Prelude.{◌≡◌, ◌++◌, ◌∷◌, [], List, None, Some, map, flat_map};
ghost use Rattle.std.specs.Prelude.{option_map, IfOk, OnOk};
ghost use Rattle.sql_meaning.specs.Letters.{folded_bytes};
ghost use Rattle.sql_tree.specs.Trees.{tree_of, literal_value};
ghost use Rattle.sql_tree.specs.Trees as tree;
ghost use Rattle.sql_tree.specs.Statements.{key_tree};
ghost use Rattle.sql_bound.specs.Expressions.{expr_of};
ghost use Rattle.sql_bound.specs.Statements.{sort_key_of};
ghost use Rattle.sql_names.specs.Faults.{Answers};
ghost use Rattle.sql_names.specs.Binding.{bound, expr_checks};
ghost use Rattle.sql_names.specs.Collating.{collation_check};
ghost use Rattle.sql_bind.specs.Results as plain;
ghost use Rattle.sql_bind.specs.Keys as meant;
ghost use Rattle.sql_bind.specs.Keys.{key_checks, sort_key};
ghost use Rattle.sql_bind.specs.Views.{results_seen, form_of, HasAliases, exprs_under};

use crate::results::ResultColumn;
use bumpalo::Bump;
use indexmap::IndexMap;
use sql_bound::{BExpr, BKey};
use sql_names::{BindFault, Scope, bind_collation, bind_expr, collation_of};
use sql_tree::{Expr, Key, Lit, place};
use sql_value::{Memory, fold, fold_byte, push};
use std::alloc::Global;

/// How a key is written.
#[derive(Clone, Copy)]
pub(crate) enum KeyForm<'a> {
    /// A number, which counts the results from 1.
    Position(u64),
    Bare(&'a [u8]),
    /// A name directly under COLLATE.
    BareUnder(&'a [u8], &'a [u8]),
    Other,
}

fn literal_form<'a>(constant: Lit<'a>) -> KeyForm<'a>
    ensures { form_of result ≡ meant.key_form (tree.Lit (literal_value constant.entry)) }
{
    match constant {
        Lit::Int(number) => {
            if number >= 0 {
                KeyForm::Position(number as u64)
            } else {
                KeyForm::Other
            }
        }
        _ => KeyForm::Other,
    }
}

fn name_form<'a>(table: Option<&'a [u8]>, name: &'a [u8]) -> KeyForm<'a>
    ensures { form_of result
        ≡ meant.key_form (tree.Name (option_map (λ bytes. bytes.now) table.entry) name.now) }
{
    match table {
        None => KeyForm::Bare(name),
        Some(_) => KeyForm::Other,
    }
}

fn collate_form<'a>(inner: &Expr<'a>, collation: &'a [u8]) -> KeyForm<'a>
    ensures { form_of result ≡ meant.key_form (tree.Collate (tree_of inner.now) collation.now) }
{
    match inner {
        Expr::Name(None, name) => KeyForm::BareUnder(name, collation),
        _ => KeyForm::Other,
    }
}

fn key_form<'a>(tree: &Expr<'a>) -> KeyForm<'a>
    ensures { form_of result ≡ meant.key_form (tree_of tree.now) }
{
    match tree {
        Expr::Lit(constant) => literal_form(*constant),
        Expr::Name(table, name) => name_form(*table, name),
        Expr::Collate(inner, collation) => collate_form(inner, collation),
        _ => KeyForm::Other,
    }
}

/// The result at a position.
fn result_at<'a>(results: &[ResultColumn<'a>], position: u64) -> Option<&'a BExpr<'a>>
    ensures { option_map (λ e. expr_of e.now) result
        ≡ meant.result_at (results_seen results.now) position }
{
    if position == 0 {
        return None;
    }
    match results.get(position as usize - 1) {
        Some(column) => Some(column.expr),
        None => None,
    }
}

/// The results that have an alias, each by the alias with its letters lower.
type Aliases<'a> = IndexMap<Vec<u8>, &'a BExpr<'a>>;

fn folded_key(alloc: Global, name: &[u8]) -> Result<Vec<u8>, Memory>
    ensures { IfOk result (λ key. key.items ≡ folded_bytes name.now) }
{
    let mut key = Vec::new(alloc);
    for byte in name {
        key.push(fold_byte(*byte))?;
    }
    Ok(key)
}

/// Notes a result under its alias, unless an earlier one has it.
fn note_alias<'a>(
    alloc: Global,
    aliases: &mut Aliases<'a>,
    alias: &[u8],
    expr: &'a BExpr<'a>,
) -> Result<(), Memory>
    ensures { OnOk result ((results : List plain.ResultColumn)
        → HasAliases aliases.old.entries results
        → HasAliases aliases.new.entries
        (results ++ record { expr = expr_of expr.now; alias = Some alias.now } ∷ [])) }
{
    let key = folded_key(alloc, alias)?;
    if aliases.contains_key(key.as_slice()) {
        return Ok(());
    }
    aliases.insert(key, expr)?;
    Ok(())
}

fn find_aliases<'a>(alloc: Global, results: &[ResultColumn<'a>]) -> Result<Aliases<'a>, Memory>
    ensures { IfOk result (λ aliases. HasAliases aliases.entries (results_seen results.now)) }
{
    let mut aliases = IndexMap::new(alloc);
    for column in results {
        if let Some(alias) = column.alias {
            note_alias(alloc, &mut aliases, alias, column.expr)?;
        }
    }
    Ok(aliases)
}

/// The first result of an alias.
fn aliased<'a>(
    alloc: Global,
    aliases: &Aliases<'a>,
    name: &[u8],
) -> Result<Option<&'a BExpr<'a>>, Memory>
    ensures { IfOk result (λ found. option_map (λ e. expr_of e.now) found
        ≡ exprs_under aliases.now.entries (folded_bytes name.now)) }
{
    let lower = fold(alloc, name)?;
    match aliases.get(lower.as_slice()) {
        Some(expr) => Ok(Some(*expr)),
        None => Ok(None),
    }
}

/// An expression of its own.
fn bind_other<'a>(
    alloc: Global,
    arena: &'a Bump,
    scope: &Scope,
    tree: &Expr<'a>,
) -> Result<&'a BExpr<'a>, BindFault>
    ensures { Answers (λ e. expr_of e.now) result (expr_checks scope.now None (tree_of tree.now))
        (bound scope.now (tree_of tree.now)) }
{
    let expr = bind_expr(alloc, arena, scope, None, tree)?;
    Ok(place(arena, expr)?)
}

/// A result under a COLLATE of the key.
fn collated<'a>(
    alloc: Global,
    arena: &'a Bump,
    expr: &'a BExpr<'a>,
    collation: &[u8],
) -> Result<&'a BExpr<'a>, BindFault>
    ensures { Answers (λ e. expr_of e.now) result (collation_check collation.now ∷ [])
        (meant.under collation.now (expr_of expr.now)) }
{
    let coll = bind_collation(alloc, collation)?;
    Ok(place(arena, BExpr::Collate(expr, coll))?)
}

/// What a key stands for.
fn key_expr<'a>(
    alloc: Global,
    arena: &'a Bump,
    scope: &Scope,
    results: &[ResultColumn<'a>],
    aliases: &Aliases<'a>,
    tree: &Expr<'a>,
) -> Result<&'a BExpr<'a>, BindFault>
    requires { HasAliases aliases.now.entries (results_seen results.now) }
    ensures { Answers (λ e. expr_of e.now) result
        (meant.checks_by scope.now (results_seen results.now) (tree_of tree.now)
        (meant.key_form (tree_of tree.now)))
        (meant.key_expr scope.now (results_seen results.now) (tree_of tree.now)) }
{
    match key_form(tree) {
        KeyForm::Position(position) => match result_at(results, position) {
            Some(expr) => Ok(expr),
            None => Err(BindFault::BadPosition),
        },
        KeyForm::Bare(name) => match aliased(alloc, aliases, name)? {
            Some(expr) => Ok(expr),
            None => bind_other(alloc, arena, scope, tree),
        },
        KeyForm::BareUnder(name, collation) => match aliased(alloc, aliases, name)? {
            Some(expr) => collated(alloc, arena, expr, collation),
            None => bind_other(alloc, arena, scope, tree),
        },
        KeyForm::Other => bind_other(alloc, arena, scope, tree),
    }
}

/// A key, and the collation that it compares texts by.
fn bind_key<'a>(
    alloc: Global,
    arena: &'a Bump,
    scope: &Scope,
    results: &[ResultColumn<'a>],
    aliases: &Aliases<'a>,
    key: &Key<'a>,
) -> Result<BKey<'a>, BindFault>
    requires { HasAliases aliases.now.entries (results_seen results.now) }
    ensures { Answers sort_key_of result
        (key_checks scope.now (results_seen results.now) (key_tree key.now))
        (sort_key scope.now (results_seen results.now) (key_tree key.now)) }
{
    let expr = key_expr(alloc, arena, scope, results, aliases, key.expr)?;
    Ok(BKey {
        expr,
        coll: collation_of(scope, expr),
        desc: key.desc,
    })
}

/// The keys of ORDER BY.
pub(crate) fn bind_keys<'a>(
    alloc: Global,
    arena: &'a Bump,
    scope: &Scope,
    results: &[ResultColumn<'a>],
    keys: &[Key<'a>],
) -> Result<Vec<BKey<'a>>, BindFault>
    ensures { Answers (λ list. map sort_key_of list.items) result
        (flat_map (key_checks scope.now (results_seen results.now)) (map key_tree keys.now))
        (map (sort_key scope.now (results_seen results.now)) (map key_tree keys.now)) }
{
    let aliases = find_aliases(alloc, results)?;
    let mut list = Vec::new(alloc);
    for key in keys {
        let bound = bind_key(alloc, arena, scope, results, &aliases, key)?;
        push(&mut list, bound)?;
    }
    Ok(list)
}
