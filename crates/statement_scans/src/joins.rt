//! The columns that are equal to what one item alone gives, item by item.
ghost use Rattle.std.specs.Prelude.{◌≡◌, ◌++◌, ◌≤◌, ◌<◌, ◌^◌, IfOk, OnOk, map};
ghost use Rattle.std.specs.List.{filter};
ghost use Rattle.candidate_index.specs.Scans.{join_of};
ghost use Rattle.statement_scans.specs.Asked.{names_some, join_if_any, joins_from};

use crate::asked::Asked;
use crate::columns::{apart, columns_of};
use candidate_index::{JoinColumns, JoinLists};
use indexmap::IndexSet;
use sql_value::{Items, Memory, push};
use std::alloc::Global;
use where_terms::Term;

/// The terms whose keys name some item.
fn naming_terms<'p>(alloc: Global, terms: &[Term<'p>]) -> Result<Vec<Term<'p>>, Memory>
    ensures { IfOk result (λ list. list.items ≡ filter names_some terms.now) }
{
    let mut list: Vec<Term<'p>> = Vec::new(alloc);
    for term in terms {
        if term.others != 0 {
            push(&mut list, *term)?;
        }
    }
    Ok(list)
}

/// Appends those of an item, where there are some.
fn push_join(
    alloc: Global,
    joins: &mut JoinLists,
    terms: &[Term],
    numbers: &IndexSet<u32>,
    item: u32,
) -> Result<(), Memory>
    requires { item < 64 }
    ensures { OnOk result (map join_of joins.new ≡ map join_of joins.old
        ++ join_if_any numbers.now.keys terms.now item) }
{
    let all = columns_of(alloc, terms, Asked::Naming(1 << item))?;
    let columns = apart(alloc, numbers, all.as_slice())?;
    if columns.as_slice().is_empty() {
        return Ok(());
    }
    joins.push(JoinColumns { item, columns })
}

/// The columns, without those of these numbers, that are equal to what names one item alone, for
/// each of so many items that gives some.
///
/// The terms that name an item are gone through once for each item.
pub(crate) fn joins(
    alloc: Global,
    terms: &[Term],
    numbers: &IndexSet<u32>,
    count: u32,
) -> Result<JoinLists, Memory>
    requires { count ≤ 64 }
    ensures { IfOk result (λ joins. map join_of joins
        ≡ joins_from numbers.now.keys terms.now count) }
{
    let naming = naming_terms(alloc, terms)?;
    let mut joins = Items::new(alloc);
    for item in 0..count {
        push_join(alloc, &mut joins, naming.as_slice(), numbers, item)?;
    }
    Ok(joins)
}
