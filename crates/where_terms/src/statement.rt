//! The terms of a statement.
ghost use Rattle.std.specs.Prelude.{◌≡◌, ◌++◌, ◌<◌, ◌≤◌, IfOk, OnOk, length, map, option_map};
ghost use Rattle.std.specs.Prelude.{slice_get, IsSomeAnd};
ghost use Rattle.std.specs.Option.{option_to_list};
ghost use Rattle.std.specs.List.{filter};
ghost use Rattle.sql_meaning.specs.TermLists as meant;
ghost use Rattle.sql_meaning.specs.Statements.{exprs_of};
ghost use Rattle.schema_model.specs.PlainSchemas.{plain_schema};
ghost use Rattle.sql_bound.specs.Expressions.{expr_of};
ghost use Rattle.sql_bound.specs.Statements.{bound_of, needs_of};
ghost use Rattle.sql_bound.specs.Fits.{Fits};
ghost use Rattle.where_terms.specs.Views.{column_terms_of, item_terms_of, terms_of};
ghost use Rattle.where_terms.specs.Listed as listed;
ghost use Rattle.where_terms.specs.Listed.{chosen_in};
ghost use Rattle.where_terms.specs.Marked.{AllAreMarked};

use crate::branches::columns;
use crate::likes::like_terms;
use crate::ors::or_terms;
use crate::own::own_terms;
use crate::{ColumnTerms, ItemTerms, Terms};
use bumpalo::Bump;
use bumpalo::collections::into_bump_slice;
use schema_model::Schema;
use sql_bound::{BExpr, Bound, may_derive, may_serve};
use sql_value::{Memory, push};
use std::alloc::Global;

fn may_help(bound: &Bound, item: u32, number: u32, derives: bool) -> bool
    requires item { item < length bound.now.items.now }
    requires number { number < length bound.now.conjuncts.now }
    ensures { IsSomeAnd (slice_get (bound_of bound.now).conjuncts number)
        (λ c. result ≡ listed.may_help derives (bound_of bound.now) item c) }
{
    if derives {
        may_derive(bound, number, item)
    } else {
        may_serve(bound, number, item)
    }
}

fn helping_at<'p>(
    bound: &'p Bound<'p>,
    item: u32,
    number: u32,
    derives: bool,
) -> Option<&'p BExpr<'p>>
    requires item { item < length bound.now.items.now }
    requires number { number < length bound.now.conjuncts.now }
    ensures { option_to_list (option_map (λ e. expr_of e.now) result)
        ≡ chosen_in (listed.may_help derives (bound_of bound.now) item)
        (slice_get (bound_of bound.now).conjuncts number) }
{
    if may_help(bound, item, number, derives) {
        Some(bound.conjuncts[number as usize].expr)
    } else {
        None
    }
}

fn push_expr<'p>(list: &mut Vec<&'p BExpr<'p>>, expr: Option<&'p BExpr<'p>>) -> Result<(), Memory>
    ensures { OnOk result (map (λ e. expr_of e.now) list.new.items
        ≡ map (λ e. expr_of e.now) list.old.items
        ++ option_to_list (option_map (λ e. expr_of e.now) expr.entry)) }
{
    match expr {
        Some(expr) => push(list, expr),
        None => Ok(()),
    }
}

/// The conjuncts that may serve the item; or, where it derives, those from which equalities may be
/// derived for it.
fn helping<'p>(
    alloc: Global,
    bound: &'p Bound<'p>,
    item: u32,
    derives: bool,
) -> Result<Vec<&'p BExpr<'p>>, Memory>
    requires item { item < length bound.now.items.now }
    requires few { length bound.now.conjuncts.now ≤ 256 }
    ensures { IfOk result (λ list. map (λ e. expr_of e.now) list.items
        ≡ exprs_of (filter (listed.may_help derives (bound_of bound.now) item)
        (bound_of bound.now).conjuncts)) }
{
    let mut list: Vec<&'p BExpr<'p>> = Vec::new(alloc);
    for number in 0..bound.conjuncts.len() as u32 {
        push_expr(&mut list, helping_at(bound, item, number, derives))?;
    }
    Ok(list)
}

/// The columns of an item that have a term.
fn item_columns<'p>(
    alloc: Global,
    arena: &'p Bump,
    schema: &Schema,
    bound: &'p Bound<'p>,
    item: u32,
) -> Result<&'p [ColumnTerms<'p>], Memory>
    requires item { item < length bound.now.items.now }
    requires few { length bound.now.conjuncts.now ≤ 256 }
    ensures { IfOk result (λ columns. map column_terms_of columns.now
        ≡ meant.item_terms (plain_schema schema.now) (bound_of bound.now) item) }
{
    let own = own_terms(alloc, arena, schema, bound, item)?;
    let served = helping(alloc, bound, item, false)?;
    let likes = like_terms(alloc, arena, schema, bound.items, item, served.as_slice())?;
    let list = helping(alloc, bound, item, true)?;
    let columns = columns(
        alloc,
        arena,
        schema,
        bound,
        item,
        own.as_slice(),
        likes.as_slice(),
        list.as_slice(),
    )?;
    Ok(columns)
}

fn terms_at<'p>(
    alloc: Global,
    arena: &'p Bump,
    schema: &Schema,
    bound: &'p Bound<'p>,
    item: u32,
) -> Result<ItemTerms<'p>, Memory>
    requires item { item < length bound.now.items.now }
    requires few { length bound.now.conjuncts.now ≤ 256 }
    ensures { IfOk result (λ terms. item_terms_of terms
        ≡ meant.terms_of_item (plain_schema schema.now) (bound_of bound.now) item) }
{
    let columns = item_columns(alloc, arena, schema, bound, item)?;
    let ors = or_terms(alloc, arena, schema, bound, item)?;
    Ok(ItemTerms { columns, ors })
}

fn items<'p>(
    alloc: Global,
    arena: &'p Bump,
    schema: &Schema,
    bound: &'p Bound<'p>,
) -> Result<Terms<'p>, Memory>
    requires items { length bound.now.items.now ≤ 64 }
    requires few { length bound.now.conjuncts.now ≤ 256 }
    ensures { IfOk result (λ terms.
        terms_of terms ≡ meant.terms_of (plain_schema schema.now) (bound_of bound.now)) }
{
    let mut items: Vec<ItemTerms<'p>, &'p Bump> = Vec::new(arena);
    for item in 0..bound.items.len() as u32 {
        let terms = terms_at(alloc, arena, schema, bound, item)?;
        push(&mut items, terms)?;
    }
    Ok(Terms {
        items: into_bump_slice(items),
    })
}

/// The terms of each item (<https://sqlite.org/optoverview.html>): the columns that have one, the
/// rowid first and then by number; and the OR terms by conjunct number. `others` of each term has
/// just the items that its keys name. Takes memory of `alloc` while it runs, and of the arena for
/// the answer.
pub fn terms<'p>(
    alloc: Global,
    arena: &'p Bump,
    schema: &Schema,
    bound: &'p Bound<'p>,
) -> Result<Terms<'p>, Memory>
    requires { Fits (plain_schema schema.now) (bound_of bound.now) (needs_of bound.now) }
    ensures terms { IfOk result (λ terms.
        terms_of terms ≡ meant.terms_of (plain_schema schema.now) (bound_of bound.now)) }
    ensures others { IfOk result AllAreMarked }
{
    let terms = items(alloc, arena, schema, bound)?;
    Ok(terms)
}
