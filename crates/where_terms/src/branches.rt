//! The terms of the branches of an OR, each from the conjuncts of that branch alone.
ghost use Rattle.std.specs.Prelude.{◌≡◌, ◌++◌, ◌<◌, IfOk, OnOk, length, map, option_map};
ghost use Rattle.sql_meaning.specs.Expressions.{flat, flat_all};
ghost use Rattle.schema_model.specs.Schemas.{IsTable};
ghost use Rattle.schema_model.specs.PlainSchemas.{plain_schema};
ghost use Rattle.sql_bound.specs.Expressions.{expr_of, members_of};
ghost use Rattle.sql_bound.specs.Fits.{width};
ghost use Rattle.sql_bound.specs.Statements.{bound_of, item_of};
ghost use Rattle.where_terms.specs.Views.{term_of, column_terms_of, branches_of};
ghost use Rattle.where_terms.specs.Listed.{columns_from, branch_from, branches_from};

use crate::derived::constants;
use crate::gathering::Sources;
use crate::likes::like_terms;
use crate::links::links_in;
use crate::listing::listed;
use crate::own::branch_own;
use crate::{ColumnTerms, Term};
use bumpalo::Bump;
use bumpalo::collections::into_bump_slice;
use schema_model::{Schema, Table, schema_is_sound};
use sql_bound::{BExpr, BExprs, BItem, Bound};
use sql_value::{Memory, push};
use std::alloc::Global;

/// Appends the members of an AND, and of each AND among them.
#[cycle(flatten)]
#[tactic(auto, using(crate::proofs::Lists::seen_lists))]
pub(crate) fn flatten<'p>(list: &mut Vec<&'p BExpr<'p>>, expr: &'p BExpr<'p>) -> Result<(), Memory>
    ensures { OnOk result (map (λ e. expr_of e.now) list.new.items
        ≡ map (λ e. expr_of e.now) list.old.items ++ flat (expr_of expr.now)) }
{
    match expr {
        BExpr::All(members) => flatten_all(list, members),
        _ => push(list, expr),
    }
}

#[cycle(flatten)]
fn flatten_all<'p>(list: &mut Vec<&'p BExpr<'p>>, members: &BExprs<'p>) -> Result<(), Memory>
    ensures { OnOk result (map (λ e. expr_of e.now) list.new.items
        ≡ map (λ e. expr_of e.now) list.old.items ++ flat_all (members_of members.now)) }
{
    for member in members.members {
        flatten(list, member)?;
    }
    Ok(())
}

fn width_of(schema: &Schema, items: &[BItem], item: u32) -> u32
    requires item { item < length items.now }
    ensures { result ≡ width (plain_schema schema.now) (map item_of items.now) item }
{
    schema_is_sound(schema);
    let number = items[item as usize].table;
    if number < schema.table_count() {
        column_count(schema.table(number))
    } else {
        0
    }
}

fn column_count(table: &Table) -> u32
    requires { IsTable table.now }
    ensures { result ≡ length table.now.columns }
{
    table.columns.as_slice().len() as u32
}

/// The columns of an item that have a term, from what a list of conjuncts says by itself, the
/// bounds of its LIKEs, and the conjuncts from which equalities are derived.
pub(crate) fn columns<'p>(
    alloc: Global,
    arena: &'p Bump,
    schema: &Schema,
    bound: &'p Bound<'p>,
    item: u32,
    own: &[Term<'p>],
    likes: &[Term<'p>],
    list: &[&'p BExpr<'p>],
) -> Result<&'p [ColumnTerms<'p>], Memory>
    requires item { item < length bound.now.items.now }
    ensures { IfOk result (λ columns. map column_terms_of columns.now
        ≡ columns_from (plain_schema schema.now) (map item_of bound.now.items.now) item
        (map term_of own.now) (map term_of likes.now) (map (λ e. expr_of e.now) list.now)) }
{
    let links = links_in(alloc, schema, bound.items, list)?;
    let constants = constants(alloc, list)?;
    let from = Sources {
        schema,
        items: bound.items,
        own,
        likes,
        constants: constants.as_slice(),
        links: links.as_slice(),
    };
    let columns = listed(
        alloc,
        arena,
        &from,
        item,
        width_of(schema, bound.items, item),
    )?;
    Ok(columns)
}

/// The terms of a branch of an OR, from the conjuncts of that branch alone.
fn branch<'p>(
    alloc: Global,
    arena: &'p Bump,
    schema: &Schema,
    bound: &'p Bound<'p>,
    item: u32,
    number: u32,
    derives: bool,
    expr: &'p BExpr<'p>,
) -> Result<&'p [ColumnTerms<'p>], Memory>
    requires item { item < length bound.now.items.now }
    ensures { IfOk result (λ columns. map column_terms_of columns.now
        ≡ branch_from (plain_schema schema.now) (bound_of bound.now) item number derives
        (expr_of expr.now)) }
{
    let mut list: Vec<&'p BExpr<'p>> = Vec::new(alloc);
    flatten(&mut list, expr)?;
    let list = list.as_slice();
    let own = branch_own(alloc, arena, schema, bound, item, number, list)?;
    let likes = like_terms(alloc, arena, schema, bound.items, item, list)?;
    let (own, likes) = (own.as_slice(), likes.as_slice());
    if derives {
        columns(alloc, arena, schema, bound, item, own, likes, list)
    } else {
        columns(alloc, arena, schema, bound, item, own, likes, &[])
    }
}

/// The terms of each branch, where each has one.
pub(crate) fn branches<'p>(
    alloc: Global,
    arena: &'p Bump,
    schema: &Schema,
    bound: &'p Bound<'p>,
    item: u32,
    number: u32,
    derives: bool,
    list: BExprs<'p>,
) -> Result<Option<&'p [&'p [ColumnTerms<'p>]]>, Memory>
    requires item { item < length bound.now.items.now }
    ensures { IfOk result (λ branches. option_map (λ bs. branches_of bs.now) branches
        ≡ branches_from (plain_schema schema.now) (bound_of bound.now) item number derives
        (members_of list.entry)) }
{
    let mut branches: Vec<&'p [ColumnTerms<'p>], &'p Bump> = Vec::new(arena);
    for member in list.members {
        let columns = branch(alloc, arena, schema, bound, item, number, derives, member)?;
        if columns.is_empty() {
            return Ok(None);
        }
        push(&mut branches, columns)?;
    }
    Ok(Some(into_bump_slice(branches)))
}
