//! A scan, from the terms of a list of conjuncts.
ghost use Rattle.std.specs.Prelude.{◌≡◌, ◌≤◌, IfOk, map};
ghost use Rattle.std.specs.List.{AllByRecursion};
ghost use Rattle.plan_choice.specs.Scans as meant;
ghost use Rattle.schema_model.specs.PlainSchemas.{plain_index_column};
ghost use Rattle.where_terms.specs.Marked.{IsMarked};
ghost use Rattle.where_terms.specs.Views.{term_of};
ghost use Rattle.candidate_index.specs.Scans.{scan_of};

use crate::asked::Asked;
use crate::columns::{apart, columns_of};
use crate::joins::joins;
use candidate_index::{Scan, numbers_of};
use schema_model::IndexColumns;
use sql_value::Memory;
use std::alloc::Global;
use where_terms::Term;

/// The scan of these terms, in a statement of so many items.
pub(crate) fn scan(
    alloc: Global,
    table: u32,
    count: u32,
    order: IndexColumns,
    terms: &[Term],
) -> Result<Scan, Memory>
    requires few { count ≤ 64 }
    requires marked { AllByRecursion IsMarked terms.now }
    ensures { IfOk result (λ scan. scan_of scan
        ≡ meant.scan_of table count (map plain_index_column order) (map term_of terms.now)) }
{
    let equal = columns_of(alloc, terms, Asked::Naming(0))?;
    let numbers = numbers_of(alloc, equal.as_slice())?;
    let all = columns_of(alloc, terms, Asked::Equality)?;
    Ok(Scan {
        table,
        joined: apart(alloc, &numbers, all.as_slice())?,
        by_item: joins(alloc, terms, &numbers, count)?,
        bounds: columns_of(alloc, terms, Asked::Bound)?,
        equal,
        order,
    })
}
