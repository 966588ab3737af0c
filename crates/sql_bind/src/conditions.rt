//! ON, WHERE and SET.
ghost use Rattle.std.specs.Prelude.{◌≡◌, ◌<◌, ◌≤◌, ◌++◌, ◌∷◌, [], length, map, flat_map};
ghost use Rattle.std.specs.Prelude.{option_map, OnOk};
ghost use Rattle.sql_meaning.specs.Expressions.{flat, flat_all};
ghost use Rattle.sql_tree.specs.Trees.{tree_of};
ghost use Rattle.sql_tree.specs.Statements.{source_tree, set_tree};
ghost use Rattle.sql_bound.specs.Expressions.{expr_of, members_of};
ghost use Rattle.sql_bound.specs.Fits.{most_items};
ghost use Rattle.sql_bound.specs.Statements.{conjunct_of};
ghost use Rattle.sql_names.specs.Faults.{Answers};
ghost use Rattle.sql_bind.specs.Conditions as meant;
ghost use Rattle.sql_bind.specs.Conditions.{with_owner, terms_of, ons_terms, ons_checks};
ghost use Rattle.sql_bind.specs.Conditions.{condition_checks};
ghost use Rattle.sql_bind.specs.Conditions.{set_checks, target_check};

use bumpalo::Bump;
use sql_bound::{BExpr, BExprs, Conjunct};
use sql_names::{BindFault, Scope, bind_expr, named_in};
use sql_tree::{Expr, Source, place};
use sql_value::{Bytes, Memory, fold};
use std::alloc::Global;

fn push<'a>(
    terms: &mut Vec<Conjunct<'a>>,
    owner: Option<u32>,
    expr: &'a BExpr<'a>,
) -> Result<(), Memory>
    ensures { OnOk result
        (map conjunct_of terms.new.items ≡ map conjunct_of terms.old.items
        ++ with_owner owner (expr_of expr.now) ∷ []) }
{
    Ok(terms.push(Conjunct { expr, owner })?)
}

/// Appends the members of an AND, and of each AND among them.
#[cycle(flatten)]
#[tactic(auto, using(crate::proofs::Lists::seen_lists))]
fn flatten<'a>(
    terms: &mut Vec<Conjunct<'a>>,
    owner: Option<u32>,
    expr: &'a BExpr<'a>,
) -> Result<(), Memory>
    ensures { OnOk result (map conjunct_of terms.new.items
        ≡ map conjunct_of terms.old.items ++ map (with_owner owner) (flat (expr_of expr.now))) }
{
    match expr {
        BExpr::All(members) => flatten_all(terms, owner, members),
        _ => push(terms, owner, expr),
    }
}

#[cycle(flatten)]
fn flatten_all<'a>(
    terms: &mut Vec<Conjunct<'a>>,
    owner: Option<u32>,
    list: &BExprs<'a>,
) -> Result<(), Memory>
    ensures { OnOk result (map conjunct_of terms.new.items
        ≡ map conjunct_of terms.old.items
        ++ map (with_owner owner) (flat_all (members_of list.now))) }
{
    for member in list.members {
        flatten(terms, owner, member)?;
    }
    Ok(())
}

/// Appends the terms of a condition, where it is written, each with the owner of the condition.
pub(crate) fn bind_condition<'a>(
    alloc: Global,
    arena: &'a Bump,
    scope: &Scope,
    terms: &mut Vec<Conjunct<'a>>,
    owner: Option<u32>,
    condition: Option<&'a Expr<'a>>,
) -> Result<(), BindFault>
    ensures { Answers (λ _. map conjunct_of terms.new.items) result
        (condition_checks scope.now owner (option_map (λ e. tree_of e.now) condition.entry))
        (map conjunct_of terms.old.items
        ++ terms_of scope.now owner (option_map (λ e. tree_of e.now) condition.entry)) }
{
    if let Some(tree) = condition {
        let expr = bind_expr(alloc, arena, scope, owner, tree)?;
        flatten(terms, owner, place(arena, expr)?)?;
    }
    Ok(())
}

/// The owner of the ON condition of an item: the item itself where LEFT JOIN stands before it.
fn owner_if(left: bool, item: u32) -> Option<u32>
    ensures { result ≡ meant.owner_if left item }
{
    if left { Some(item) } else { None }
}

/// The terms of the ON conditions, in the order of FROM.
pub(crate) fn bind_ons<'a>(
    alloc: Global,
    arena: &'a Bump,
    scope: &Scope,
    sources: &[Source<'a>],
) -> Result<Vec<Conjunct<'a>>, BindFault>
    requires { length sources.now ≤ most_items }
    ensures { Answers (λ terms. map conjunct_of terms.items) result
        (ons_checks scope.now (map source_tree sources.now))
        (ons_terms scope.now (map source_tree sources.now)) }
{
    let mut terms = Vec::new(alloc);
    let mut item = 0;
    for source in sources {
        let owner = owner_if(source.left, item);
        bind_condition(alloc, arena, scope, &mut terms, owner, source.on)?;
        item += 1;
    }
    Ok(terms)
}

/// Whether a column, or the rowid under one of its names, is set.
fn check_target(alloc: Global, scope: &Scope, name: &[u8]) -> Result<(), BindFault>
    requires { 0 < length scope.now.items }
    ensures { Answers (λ _. tt {0}) result (target_check scope.now name.now ∷ []) (tt {0}) }
{
    let lower = fold(alloc, name)?;
    match named_in(scope, 0, lower.as_slice()) {
        Some(_) => Ok(()),
        None => Err(BindFault::NoSuchColumn(Bytes::copy(alloc, name)?)),
    }
}

/// What SET names; its values are not kept.
fn check_set<'a>(
    alloc: Global,
    arena: &'a Bump,
    scope: &Scope,
    column: &[u8],
    value: &Expr<'a>,
) -> Result<(), BindFault>
    requires { 0 < length scope.now.items }
    ensures { Answers (λ _. tt {0}) result
        (set_checks scope.now (record { column = column.now; value = tree_of value.now }))
        (tt {0}) }
{
    check_target(alloc, scope, column)?;
    bind_expr(alloc, arena, scope, None, value)?;
    Ok(())
}

/// What each part of SET names.
pub(crate) fn check_sets<'a>(
    alloc: Global,
    arena: &'a Bump,
    scope: &Scope,
    sets: &[(&'a [u8], &'a Expr<'a>)],
) -> Result<(), BindFault>
    requires { 0 < length scope.now.items }
    ensures { Answers (λ _. tt {0}) result
        (flat_map (set_checks scope.now) (map set_tree sets.now)) (tt {0}) }
{
    for (column, value) in sets {
        check_set(alloc, arena, scope, column, value)?;
    }
    Ok(())
}
