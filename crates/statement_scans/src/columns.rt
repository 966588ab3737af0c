//! Columns, each once and apart from others, by one hash each.
ghost use Rattle.std.specs.Prelude.{◌≡◌, ◌++◌, ◌∷◌, [], cond, not, nat_eq, IfOk, OnOk, map};
ghost use Rattle.std.specs.List.{list_any};
ghost use Rattle.indexmap.specs.IndexSet.{insert_key};
ghost use Rattle.list_laws.specs.FirstComing.{keep_first};
ghost use Rattle.plan_choice.specs.Scans.{same_column};
ghost use Rattle.schema_model.specs.PlainSchemas.{plain_index_column};
ghost use Rattle.statement_scans.specs.Asked.{asked_once, without};

use crate::asked::{Asked, asked_columns};
use indexmap::IndexSet;
use schema_model::{IndexColumn, IndexColumns};
use sql_value::{Items, Memory};
use std::alloc::Global;
use where_terms::Term;

/// Appends a column, if it is wanted.
fn push_if(list: &mut IndexColumns, wanted: bool, column: IndexColumn) -> Result<(), Memory>
    ensures { OnOk result (map plain_index_column list.new ≡ map plain_index_column list.old
        ++ cond wanted (plain_index_column column ∷ []) []) }
{
    if wanted { list.push(column) } else { Ok(()) }
}

/// Notes the number of a column; whether it is new.
fn is_new(seen: &mut IndexSet<u32>, number: u32) -> Result<bool, Memory>
    ensures new { IfOk result (λ new. new ≡ not (list_any (nat_eq number) seen.old.keys)) }
    ensures keys { OnOk result (seen.new.keys ≡ insert_key nat_eq seen.old.keys number) }
{
    let new = seen.insert(number)?;
    Ok(new)
}

/// Each column at its first coming.
pub(crate) fn each_once(alloc: Global, columns: &[IndexColumn]) -> Result<IndexColumns, Memory>
    ensures { IfOk result (λ list. map plain_index_column list
        ≡ keep_first same_column [] (map plain_index_column columns.now)) }
{
    let mut seen: IndexSet<u32> = IndexSet::new(alloc);
    let mut list = Items::new(alloc);
    for column in columns {
        let new = is_new(&mut seen, column.column)?;
        push_if(&mut list, new, *column)?;
    }
    Ok(list)
}

/// The columns of the terms of which this is true, each once.
pub(crate) fn columns_of(
    alloc: Global,
    terms: &[Term],
    asked: Asked,
) -> Result<IndexColumns, Memory>
    ensures { IfOk result (λ list. map plain_index_column list ≡ asked_once asked terms.now) }
{
    let list = asked_columns(alloc, terms, asked)?;
    each_once(alloc, list.as_slice())
}

/// The columns without those of these numbers.
pub(crate) fn apart(
    alloc: Global,
    numbers: &IndexSet<u32>,
    columns: &[IndexColumn],
) -> Result<IndexColumns, Memory>
    ensures { IfOk result (λ list. map plain_index_column list
        ≡ without numbers.now.keys (map plain_index_column columns.now)) }
{
    let mut list = Items::new(alloc);
    for column in columns {
        push_if(&mut list, !numbers.contains(&column.column), *column)?;
    }
    Ok(list)
}
