//! OR terms: ORs each of whose branches says something of the item by itself.
ghost use Rattle.std.specs.Prelude.{◌≡◌, ◌++◌, ◌<◌, ◌≤◌, IfOk, OnOk, length, map, option_map};
ghost use Rattle.std.specs.Prelude.{slice_get};
ghost use Rattle.std.specs.Option.{option_to_list};
ghost use Rattle.sql_meaning.specs.TermLists as meant;
ghost use Rattle.schema_model.specs.PlainSchemas.{plain_schema};
ghost use Rattle.sql_bound.specs.Expressions.{expr_of, members_of};
ghost use Rattle.sql_bound.specs.Statements.{bound_of};
ghost use Rattle.where_terms.specs.Views.{or_term_of};
ghost use Rattle.where_terms.specs.Listed.{or_found, or_found_in, or_found_at};

use crate::OrTerm;
use crate::branches::branches;
use crate::serving::or_served;
use bumpalo::Bump;
use bumpalo::collections::into_bump_slice;
use schema_model::Schema;
use sql_bound::{BExpr, BExprs, Bound, may_derive, may_serve};
use sql_value::{Memory, push};
use std::alloc::Global;

/// The OR term that a conjunct is, if it is one: an OR that isn't an IN of the item, each of whose
/// branches has a term.
fn or_term<'p>(
    alloc: Global,
    arena: &'p Bump,
    schema: &Schema,
    bound: &'p Bound<'p>,
    item: u32,
    number: u32,
    list: BExprs<'p>,
) -> Result<Option<OrTerm<'p>>, Memory>
    requires item { item < length bound.now.items.now }
    requires number { number < length bound.now.conjuncts.now }
    ensures { IfOk result (λ term. option_to_list (option_map or_term_of term)
        ≡ or_found (plain_schema schema.now) (bound_of bound.now) item number
        (slice_get (bound_of bound.now).conjuncts number) (members_of list.entry)) }
{
    if or_served(arena, item, list)?.is_some() {
        return Ok(None);
    }
    let derives = may_derive(bound, number, item);
    match branches(alloc, arena, schema, bound, item, number, derives, list)? {
        Some(branches) => Ok(Some(OrTerm {
            conjunct: number,
            branches,
        })),
        None => Ok(None),
    }
}

#[tactic(auto, using(crate::proofs::Lists::seen_lists))]
fn or_term_in<'p>(
    alloc: Global,
    arena: &'p Bump,
    schema: &Schema,
    bound: &'p Bound<'p>,
    item: u32,
    number: u32,
    expr: &'p BExpr<'p>,
) -> Result<Option<OrTerm<'p>>, Memory>
    requires item { item < length bound.now.items.now }
    requires number { number < length bound.now.conjuncts.now }
    ensures { IfOk result (λ term. option_to_list (option_map or_term_of term)
        ≡ or_found_in (plain_schema schema.now) (bound_of bound.now) item number
        (slice_get (bound_of bound.now).conjuncts number) (expr_of expr.now)) }
{
    match expr {
        BExpr::Any(list) => or_term(alloc, arena, schema, bound, item, number, *list),
        _ => Ok(None),
    }
}

fn or_term_at<'p>(
    alloc: Global,
    arena: &'p Bump,
    schema: &Schema,
    bound: &'p Bound<'p>,
    item: u32,
    number: u32,
) -> Result<Option<OrTerm<'p>>, Memory>
    requires item { item < length bound.now.items.now }
    requires number { number < length bound.now.conjuncts.now }
    ensures { IfOk result (λ term. option_to_list (option_map or_term_of term)
        ≡ or_found_at (plain_schema schema.now) (bound_of bound.now) item number
        (slice_get (bound_of bound.now).conjuncts number)) }
{
    if !may_serve(bound, number, item) {
        return Ok(None);
    }
    let expr = bound.conjuncts[number as usize].expr;
    or_term_in(alloc, arena, schema, bound, item, number, expr)
}

fn push_or<'p>(ors: &mut Vec<OrTerm<'p>, &'p Bump>, term: Option<OrTerm<'p>>) -> Result<(), Memory>
    ensures { OnOk result (map or_term_of ors.new.items
        ≡ map or_term_of ors.old.items ++ option_to_list (option_map or_term_of term.entry)) }
{
    match term {
        Some(term) => push(ors, term),
        None => Ok(()),
    }
}

/// The OR terms of an item, by conjunct number.
pub(crate) fn or_terms<'p>(
    alloc: Global,
    arena: &'p Bump,
    schema: &Schema,
    bound: &'p Bound<'p>,
    item: u32,
) -> Result<&'p [OrTerm<'p>], Memory>
    requires item { item < length bound.now.items.now }
    requires few { length bound.now.conjuncts.now ≤ 256 }
    ensures { IfOk result (λ ors. map or_term_of ors.now
        ≡ meant.or_terms (plain_schema schema.now) (bound_of bound.now) item) }
{
    let mut ors: Vec<OrTerm<'p>, &'p Bump> = Vec::new(arena);
    for number in 0..bound.conjuncts.len() as u32 {
        let term = or_term_at(alloc, arena, schema, bound, item, number)?;
        push_or(&mut ors, term)?;
    }
    Ok(into_bump_slice(ors))
}
