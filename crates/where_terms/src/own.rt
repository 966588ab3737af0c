//! The terms that conjuncts give by themselves.
ghost use Rattle.std.specs.Prelude.{◌≡◌, ◌<◌, ◌≤◌, ◌++◌, IfOk, OnOk, length, map, option_map};
ghost use Rattle.std.specs.Prelude.{slice_get};
ghost use Rattle.sql_meaning.specs.Serving.{numbered_term};
ghost use Rattle.sql_meaning.specs.TermLists as meant;
ghost use Rattle.schema_model.specs.PlainSchemas.{plain_schema};
ghost use Rattle.sql_bound.specs.Expressions.{expr_of};
ghost use Rattle.sql_bound.specs.Statements.{bound_of};
ghost use Rattle.where_terms.specs.Views.{served_of, term_of};
ghost use Rattle.where_terms.specs.Owns.{allowed_at};

use crate::Term;
use crate::masks::marked_term;
use crate::serving::{Served, serving};
use bumpalo::Bump;
use schema_model::Schema;
use sql_bound::{BExpr, Bound, may_serve};
use sql_value::{Memory, push};
use std::alloc::Global;

/// Appends a conjunct's term, where it has one.
fn push_numbered<'p>(
    terms: &mut Vec<Term<'p>>,
    number: u32,
    served: Option<Served<'p>>,
) -> Result<(), Memory>
    ensures { OnOk result (map term_of terms.new.items
        ≡ map term_of terms.old.items
        ++ numbered_term number (option_map served_of served.entry)) }
{
    let Some(served) = served else {
        return Ok(());
    };
    push(
        terms,
        marked_term(served.column, Some(number), served.coll, served.kind),
    )
}

/// What a conjunct says of a column of the item, where it may serve the item.
fn allowed<'p>(
    arena: &'p Bump,
    schema: &Schema,
    bound: &'p Bound<'p>,
    item: u32,
    number: u32,
) -> Result<Option<Served<'p>>, Memory>
    requires item { item < length bound.now.items.now }
    requires number { number < length bound.now.conjuncts.now }
    ensures { IfOk result (λ served. option_map served_of served
        ≡ allowed_at (plain_schema schema.now) (bound_of bound.now) item
        (slice_get (bound_of bound.now).conjuncts number)) }
{
    if !may_serve(bound, number, item) {
        return Ok(None);
    }
    let expr = bound.conjuncts[number as usize].expr;
    serving(arena, schema, bound.items, item, expr)
}

/// What each conjunct that may serve the item says of it, by conjunct number.
pub(crate) fn own_terms<'p>(
    alloc: Global,
    arena: &'p Bump,
    schema: &Schema,
    bound: &'p Bound<'p>,
    item: u32,
) -> Result<Vec<Term<'p>>, Memory>
    requires item { item < length bound.now.items.now }
    requires few { length bound.now.conjuncts.now ≤ 256 }
    ensures { IfOk result (λ terms. map term_of terms.items
        ≡ meant.own_terms (plain_schema schema.now) (bound_of bound.now) item) }
{
    let mut terms: Vec<Term<'p>> = Vec::new(alloc);
    for number in 0..bound.conjuncts.len() as u32 {
        let served = allowed(arena, schema, bound, item, number)?;
        push_numbered(&mut terms, number, served)?;
    }
    Ok(terms)
}

/// What the conjuncts of a branch say of the item; all have the number of the OR.
pub(crate) fn branch_own<'p>(
    alloc: Global,
    arena: &'p Bump,
    schema: &Schema,
    bound: &'p Bound<'p>,
    item: u32,
    number: u32,
    list: &[&'p BExpr<'p>],
) -> Result<Vec<Term<'p>>, Memory>
    ensures { IfOk result (λ terms. map term_of terms.items
        ≡ meant.branch_own (plain_schema schema.now) (bound_of bound.now) item number
        (map (λ e. expr_of e.now) list.now)) }
{
    let mut terms: Vec<Term<'p>> = Vec::new(alloc);
    for expr in list {
        let served = serving(arena, schema, bound.items, item, expr)?;
        push_numbered(&mut terms, number, served)?;
    }
    Ok(terms)
}
