//! Direct terms, apart from all others and in the order of their conjuncts.
ghost use Rattle.std.specs.Prelude.{◌≡◌, ◌<◌, IfOk, length, map};
ghost use Rattle.std.specs.List.{AllByRecursion};
ghost use Rattle.sql_meaning.specs.Expressions.{flat};
ghost use Rattle.sql_meaning.specs.TermLists as meant;
ghost use Rattle.schema_model.specs.PlainSchemas.{plain_schema};
ghost use Rattle.sql_bound.specs.Expressions.{expr_of};
ghost use Rattle.sql_bound.specs.Fits.{Fits, NamesExist};
ghost use Rattle.sql_bound.specs.Statements.{bound_of, needs_of};
ghost use Rattle.where_terms.specs.Marked.{IsMarked};
ghost use Rattle.where_terms.specs.Views.{term_of};

use crate::Term;
use crate::branches::flatten;
use crate::own::{branch_own, own_terms};
use bumpalo::Bump;
use schema_model::Schema;
use sql_bound::{BExpr, Bound};
use sql_value::Memory;
use std::alloc::Global;

/// The direct terms of an item, by conjunct number: what each conjunct that may serve the item says
/// of it by itself. Takes memory of `alloc` for the list, and of the arena for the keys of IN.
pub fn direct_terms<'p>(
    alloc: Global,
    arena: &'p Bump,
    schema: &Schema,
    bound: &'p Bound<'p>,
    item: u32,
) -> Result<Vec<Term<'p>>, Memory>
    requires fits { Fits (plain_schema schema.now) (bound_of bound.now) (needs_of bound.now) }
    requires item { item < length bound.now.items.now }
    ensures terms { IfOk result (λ terms. map term_of terms.items
        ≡ meant.own_terms (plain_schema schema.now) (bound_of bound.now) item) }
    ensures others { IfOk result (λ terms. AllByRecursion IsMarked terms.items) }
{
    let terms = own_terms(alloc, arena, schema, bound, item)?;
    Ok(terms)
}

/// The direct terms of a branch of the OR of this number, in the order of the branch's conjuncts;
/// all have the number of the OR. Takes memory as `direct_terms` does.
pub fn direct_branch_terms<'p>(
    alloc: Global,
    arena: &'p Bump,
    schema: &Schema,
    bound: &'p Bound<'p>,
    item: u32,
    number: u32,
    branch: &'p BExpr<'p>,
) -> Result<Vec<Term<'p>>, Memory>
    requires fits { Fits (plain_schema schema.now) (bound_of bound.now) (needs_of bound.now) }
    requires names { NamesExist (plain_schema schema.now) (bound_of bound.now).items
        (expr_of branch.now) }
    ensures terms { IfOk result (λ terms. map term_of terms.items
        ≡ meant.branch_own (plain_schema schema.now) (bound_of bound.now) item number
        (flat (expr_of branch.now))) }
    ensures others { IfOk result (λ terms. AllByRecursion IsMarked terms.items) }
{
    let mut list: Vec<&'p BExpr<'p>> = Vec::new(alloc);
    flatten(&mut list, branch)?;
    let terms = branch_own(alloc, arena, schema, bound, item, number, list.as_slice())?;
    Ok(terms)
}
