//! The columns that terms ask for.
ghost use Rattle.std.specs.Prelude.{◌≡◌, ◌++◌, ◌||◌, IfOk, OnOk, map, option_map};
ghost use Rattle.std.specs.Option.{option_to_list};
ghost use Rattle.sql_meaning.specs.TermLists.{is_equal, is_within, is_low, is_high};
ghost use Rattle.plan_choice.specs.Scans.{column_at};
ghost use Rattle.schema_model.specs.PlainSchemas.{plain_index_column};
ghost use Rattle.where_terms.specs.Kinds.{term_kind_of};
ghost use Rattle.where_terms.specs.Views.{term_of};
ghost use Rattle.statement_scans.specs.Asked.{asks, column_asked, columns_asked};

use schema_model::{IndexColumn, IndexColumns};
use sql_value::{Items, Memory};
use std::alloc::Global;
use where_terms::{Term, TermKind};

/// What is asked of the terms whose columns are listed.
#[derive(Clone, Copy)]
pub(crate) enum Asked {
    /// That they are equalities.
    Equality,
    /// That they are equalities whose keys name just these items: bit k stands for item k.
    Naming(u64),
    /// That they are bounds.
    Bound,
}

fn is_equality(kind: &TermKind) -> bool
    ensures { result ≡ (is_equal (term_kind_of kind.now) || is_within (term_kind_of kind.now)) }
{
    match kind {
        TermKind::Equal(_) => true,
        TermKind::OneOf(_) => true,
        TermKind::IsNull => true,
        TermKind::Low(..) => false,
        TermKind::High(..) => false,
    }
}

fn is_bound(kind: &TermKind) -> bool
    ensures { result ≡ (is_low (term_kind_of kind.now) || is_high (term_kind_of kind.now)) }
{
    match kind {
        TermKind::Equal(_) => false,
        TermKind::OneOf(_) => false,
        TermKind::IsNull => false,
        TermKind::Low(..) => true,
        TermKind::High(..) => true,
    }
}

fn is_asked(term: &Term, asked: Asked) -> bool
    ensures { result ≡ asks asked term.now }
{
    match asked {
        Asked::Equality => is_equality(&term.kind),
        Asked::Naming(items) => is_equality(&term.kind) && term.others == items,
        Asked::Bound => is_bound(&term.kind),
    }
}

/// The column of a term, as the term compares it; none for the rowid.
fn column_of(term: &Term) -> Option<IndexColumn>
    ensures { option_to_list (option_map plain_index_column result)
        ≡ column_at (term_of term.now).column (term_of term.now) }
{
    Some(IndexColumn {
        column: term.column?,
        coll: term.coll,
        desc: false,
    })
}

fn push_column(list: &mut IndexColumns, column: Option<IndexColumn>) -> Result<(), Memory>
    ensures { OnOk result (map plain_index_column list.new
        ≡ map plain_index_column list.old
        ++ option_to_list (option_map plain_index_column column)) }
{
    match column {
        Some(column) => list.push(column),
        None => Ok(()),
    }
}

fn push_asked(list: &mut IndexColumns, term: &Term, asked: Asked) -> Result<(), Memory>
    ensures { OnOk result (map plain_index_column list.new
        ≡ map plain_index_column list.old ++ column_asked asked term.now) }
{
    if is_asked(term, asked) {
        push_column(list, column_of(term))
    } else {
        Ok(())
    }
}

/// The columns of the terms of which this is true, in the order of the terms.
pub(crate) fn asked_columns(
    alloc: Global,
    terms: &[Term],
    asked: Asked,
) -> Result<IndexColumns, Memory>
    ensures { IfOk result (λ list. map plain_index_column list ≡ columns_asked asked terms.now) }
{
    let mut list = Items::new(alloc);
    for term in terms {
        push_asked(&mut list, term, asked)?;
    }
    Ok(list)
}
