//! The columns that a statement needs of each item.
ghost use Rattle.std.specs.Prelude.{◌≡◌, ◌<◌, ◌==◌, ◌&&◌, ◌^◌, map, length};
ghost use Rattle.std.specs.Prelude.{replicate, false, IfOk};
ghost use Rattle.std.specs.List.{list_any, range_with_len};
ghost use Rattle.sql_bound.specs.Expressions.{expr_of, members_of};
ghost use Rattle.sql_bound.specs.Statements.{conjunct_of, sort_key_of};
ghost use Rattle.sql_meaning.specs.OrderState as meant;
ghost use Rattle.sql_bind.specs.Needs.{names_column, some_names_column, columns_kept};
ghost use Rattle.sql_bind.specs.Needs.{columns_named, needed_of};
ghost use Rattle.sql_bind.specs.Marks.{Marks, marked_numbers};
ghost use Rattle.sql_bind.specs.Parts.{exprs_of_parts};
ghost use Rattle.sql_bind.specs.Views.{results_seen};

use crate::parts::Parts;
use crate::results::ResultColumn;
use bumpalo::Bump;
use bumpalo::collections::into_bump_slice;
use schema_model::Table;
use sql_bound::{BExpr, BExprs, BKey, Conjunct};
use sql_names::Scope;
use sql_tree::place_slice;
use sql_value::{Memory, push};
use std::alloc::Global;

/// Marks the columns of an item that an expression names.
#[cycle(mark)]
#[tactic(auto, using(crate::proofs::Lists::seen_lists))]
fn mark(marks: &mut [bool], item: u32, expr: &BExpr)
    ensures { Marks (λ column. names_column item column (expr_of expr.now)) marks.old marks.new }
{
    match expr {
        BExpr::Lit(_) => {}
        BExpr::Param(_) => {}
        BExpr::Column {
            item: named,
            column,
        } => mark_column(marks, item, *named, *column),
        BExpr::Rowid { .. } => {}
        BExpr::Plus(inner) => mark(marks, item, inner),
        BExpr::Collate(inner, _) => mark(marks, item, inner),
        BExpr::Cmp { left, right, .. } => {
            mark(marks, item, left);
            mark(marks, item, right);
        }
        BExpr::OneOf { left, entries, .. } => {
            mark(marks, item, left);
            mark_all(marks, item, entries);
        }
        BExpr::Like(_, left, pattern) => {
            mark(marks, item, left);
            mark(marks, item, pattern);
        }
        BExpr::IsNull(_, inner) => mark(marks, item, inner),
        BExpr::Not(inner) => mark(marks, item, inner),
        BExpr::All(members) => mark_all(marks, item, members),
        BExpr::Any(members) => mark_all(marks, item, members),
    }
}

#[cycle(mark)]
fn mark_all(marks: &mut [bool], item: u32, list: &BExprs)
    ensures { Marks (λ column. some_names_column item column (members_of list.now)) marks.old
        marks.new }
{
    for member in list.members {
        mark(marks, item, member);
    }
}

fn mark_column(marks: &mut [bool], item: u32, named: u32, column: u32)
    ensures { Marks (λ c. (named == item) && (column == c)) marks.old marks.new }
{
    if named == item && (column as usize) < marks.len() {
        marks[column as usize] = true;
    }
}

fn mark_results(marks: &mut [bool], item: u32, results: &[ResultColumn])
    ensures { Marks (λ column. list_any (names_column item column)
        (map (λ r. r.expr) (results_seen results.now))) marks.old marks.new }
{
    for result in results {
        mark(marks, item, result.expr);
    }
}

fn mark_terms(marks: &mut [bool], item: u32, terms: &[Conjunct])
    ensures { Marks (λ column. list_any (names_column item column)
        (map (λ t. t.expr) (map conjunct_of terms.now))) marks.old marks.new }
{
    for term in terms {
        mark(marks, item, term.expr);
    }
}

fn mark_keys(marks: &mut [bool], item: u32, keys: &[BKey])
    ensures { Marks (λ column. list_any (names_column item column)
        (map (λ k. k.expr) (map sort_key_of keys.now))) marks.old marks.new }
{
    for key in keys {
        mark(marks, item, key.expr);
    }
}

fn mark_parts(marks: &mut [bool], item: u32, parts: &Parts)
    ensures { Marks (λ column. list_any (names_column item column) (exprs_of_parts parts.now))
        marks.old marks.new }
{
    mark_results(marks, item, parts.results);
    mark_terms(marks, item, parts.terms);
    mark_keys(marks, item, parts.keys);
}

/// The numbers that are marked, rising.
fn numbers(alloc: Global, marks: &[bool]) -> Result<Vec<u32>, Memory>
    requires { length marks.now < 2 ^ 32 }
    ensures { IfOk result (λ list. list.items ≡ marked_numbers marks.now) }
{
    let mut list = Vec::new(alloc);
    for number in 0..marks.len() {
        if marks[number] {
            push(&mut list, number as u32)?;
        }
    }
    Ok(list)
}

/// Which columns of an item, of so many, are named.
fn find_marks(alloc: Global, width: usize, item: u32, parts: &Parts) -> Result<Vec<bool>, Memory>
    ensures { IfOk result (λ marks. Marks
        (λ column. list_any (names_column item column) (exprs_of_parts parts.now))
        (replicate width false) marks.items) }
{
    let mut marks = vec![in alloc; false; width]?;
    mark_parts(marks.as_mut_slice(), item, parts);
    Ok(marks)
}

/// The columns of an item that the statement names.
fn named_columns(alloc: Global, scope: &Scope, item: u32, parts: &Parts) -> Result<Vec<u32>, Memory>
    requires { item < length scope.now.items }
    ensures { IfOk result (λ list. list.items
        ≡ columns_named scope.now (exprs_of_parts parts.now) item) }
{
    let width = scope.table(item).columns.as_slice().len();
    let marks = find_marks(alloc, width, item, parts)?;
    numbers(alloc, marks.as_slice())
}

fn is_alias(table: &Table, column: u32) -> bool
    ensures { result ≡ meant.is_alias table.now.alias column }
{
    table.alias == Some(column)
}

/// All columns of an item but the alias of its rowid.
fn kept_columns(alloc: Global, scope: &Scope, item: u32) -> Result<Vec<u32>, Memory>
    requires { item < length scope.now.items }
    ensures { IfOk result (λ list. list.items ≡ columns_kept scope.now item) }
{
    let table = scope.table(item);
    let width = table.columns.as_slice().len() as u32;
    let mut list = Vec::new(alloc);
    for column in 0..width {
        if !is_alias(table, column) {
            push(&mut list, column)?;
        }
    }
    Ok(list)
}

fn needed_columns(
    alloc: Global,
    scope: &Scope,
    rowids: bool,
    parts: &Parts,
    item: u32,
) -> Result<Vec<u32>, Memory>
    requires { item < length scope.now.items }
    ensures { IfOk result (λ list. list.items
        ≡ needed_of scope.now rowids (exprs_of_parts parts.now) item) }
{
    if rowids {
        kept_columns(alloc, scope, item)
    } else {
        named_columns(alloc, scope, item, parts)
    }
}

/// Of each item, its columns that the statement needs.
pub(crate) fn bind_needs<'a>(
    alloc: Global,
    arena: &'a Bump,
    scope: &Scope,
    rowids: bool,
    parts: &Parts,
) -> Result<&'a [&'a [u32]], Memory>
    ensures { IfOk result (λ needs. map (λ columns. columns.now) needs.now
        ≡ map (needed_of scope.now rowids (exprs_of_parts parts.now))
        (range_with_len 0 (length scope.now.items))) }
{
    let mut needs: Vec<&'a [u32], &'a Bump> = Vec::new(arena);
    for item in 0..scope.count() {
        let columns = needed_columns(alloc, scope, rowids, parts, item)?;
        let place = place_slice(arena, columns.as_slice())?;
        push(&mut needs, place)?;
    }
    Ok(into_bump_slice(needs))
}
