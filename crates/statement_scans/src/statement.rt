//! The scans of a statement.
ghost use Rattle.std.specs.Prelude.{◌≡◌, ◌≤◌, ◌<◌, ◌++◌, IfOk, OnOk, map, length, slice_get, option_map};
ghost use Rattle.std.specs.List.{AllByRecursion, flat_map};
ghost use Rattle.sql_meaning.specs.Statements as statements;
ghost use Rattle.sql_meaning.specs.TermLists as lists;
ghost use Rattle.sql_meaning.specs.TermLists.{item_terms, terms_of_item};
ghost use Rattle.sql_meaning.specs.TermLaws.{IsListedOr};
ghost use Rattle.plan_choice.specs.Scans as meant;
ghost use Rattle.schema_model.specs.PlainSchemas.{plain_schema, plain_index_column};
ghost use Rattle.sql_bound.specs.Expressions.{expr_of, members_of};
ghost use Rattle.sql_bound.specs.Fits.{Fits, NamesExist, AllNamesExist};
ghost use Rattle.sql_bound.specs.Statements.{bound_of, needs_of};
ghost use Rattle.where_terms.specs.Marked.{IsMarked, AreMarked, ItemIsMarked, AllAreMarked};
ghost use Rattle.where_terms.specs.Views.{term_of, column_terms_of, branches_of, or_term_of};
ghost use Rattle.where_terms.specs.Views.{item_terms_of, terms_of};
ghost use Rattle.candidate_index.specs.Scans.{scan_of, AreScansOf};
ghost use Rattle.statement_scans.specs.Branches.{branch_with, branches_with, any_of, members_at};
ghost use Rattle.statement_scans.specs.Items.{OrIsMarked, or_scans};

use crate::appearing::appearing;
use crate::order::order_columns;
use crate::scan::scan;
use bumpalo::Bump;
use candidate_index::{Scan, Scans};
use schema_model::{IndexColumns, Schema};
use sql_bound::{BExpr, BExprs, Bound};
use sql_value::{Items, Memory};
use std::alloc::Global;
use where_terms::{ColumnTerms, ItemTerms, OrTerm, Term, Terms, direct_branch_terms, direct_terms};

fn table_of(bound: &Bound, item: u32) -> u32
    requires { item < length bound.now.items.now }
    ensures { result ≡ statements.table_of (slice_get (bound_of bound.now).items item) }
{
    bound.items[item as usize].table
}

fn item_count(bound: &Bound) -> u32
    requires { length bound.now.items.now ≤ 64 }
    ensures { result ≡ length (bound_of bound.now).items }
{
    bound.items.len() as u32
}

/// The scan of an item by direct terms and those of columns.
fn scan_by<'p>(
    alloc: Global,
    bound: &Bound,
    item: u32,
    order: IndexColumns,
    direct: Vec<Term<'p>>,
    columns: &[ColumnTerms<'p>],
) -> Result<Scan, Memory>
    requires items { length bound.now.items.now ≤ 64 }
    requires item { item < length bound.now.items.now }
    requires direct { AllByRecursion IsMarked direct.items }
    requires columns { AllByRecursion AreMarked columns.now }
    ensures { IfOk result (λ scan. scan_of scan ≡ meant.scan_of
        (statements.table_of (slice_get (bound_of bound.now).items item))
        (length (bound_of bound.now).items) (map plain_index_column order)
        (meant.by_appearance (map term_of direct.entry.items) (map column_terms_of columns.now))) }
{
    let terms = appearing(direct, columns)?;
    let (table, count) = (table_of(bound, item), item_count(bound));
    scan(alloc, table, count, order, terms.as_slice())
}

/// The scan of an item by its own terms.
fn item_scan<'p>(
    alloc: Global,
    arena: &'p Bump,
    schema: &Schema,
    bound: &'p Bound<'p>,
    item: u32,
    columns: &[ColumnTerms<'p>],
) -> Result<Scan, Memory>
    requires fits { Fits (plain_schema schema.now) (bound_of bound.now) (needs_of bound.now) }
    requires item { item < length bound.now.items.now }
    requires columns { map column_terms_of columns.now
        ≡ item_terms (plain_schema schema.now) (bound_of bound.now) item }
    requires marked { AllByRecursion AreMarked columns.now }
    ensures { IfOk result (λ scan. scan_of scan
        ≡ meant.item_scan (plain_schema schema.now) (bound_of bound.now) item) }
{
    let direct = direct_terms(alloc, arena, schema, bound, item)?;
    let order = order_columns(alloc, bound, item)?;
    scan_by(alloc, bound, item, order, direct, columns)
}

/// The scan of a branch of the OR of this number, which asks for no order.
fn branch_scan<'p>(
    alloc: Global,
    arena: &'p Bump,
    schema: &Schema,
    bound: &'p Bound<'p>,
    item: u32,
    number: u32,
    branch: &'p BExpr<'p>,
    columns: &[ColumnTerms<'p>],
) -> Result<Scan, Memory>
    requires fits { Fits (plain_schema schema.now) (bound_of bound.now) (needs_of bound.now) }
    requires item { item < length bound.now.items.now }
    requires names { NamesExist (plain_schema schema.now) (bound_of bound.now).items
        (expr_of branch.now) }
    requires marked { AllByRecursion AreMarked columns.now }
    ensures { IfOk result (λ scan. scan_of scan
        ≡ branch_with (plain_schema schema.now) (bound_of bound.now) item number
        (expr_of branch.now) (map column_terms_of columns.now)) }
{
    let direct = direct_branch_terms(alloc, arena, schema, bound, item, number, branch)?;
    scan_by(alloc, bound, item, Items::new(alloc), direct, columns)
}

/// Appends the scans of the branches of the OR of this number.
fn push_branches<'p>(
    alloc: Global,
    arena: &'p Bump,
    made: &mut Scans,
    schema: &Schema,
    bound: &'p Bound<'p>,
    item: u32,
    number: u32,
    list: BExprs<'p>,
    branches: &[&'p [ColumnTerms<'p>]],
) -> Result<(), Memory>
    requires fits { Fits (plain_schema schema.now) (bound_of bound.now) (needs_of bound.now) }
    requires item { item < length bound.now.items.now }
    requires names { AllNamesExist (plain_schema schema.now) (bound_of bound.now).items
        (members_of list) }
    requires same { length branches.now ≤ length list.members.now }
    requires marked { AllByRecursion (λ branch. AllByRecursion AreMarked branch.now) branches.now }
    ensures { OnOk result (map scan_of made.new ≡ map scan_of made.old
        ++ branches_with (plain_schema schema.now) (bound_of bound.now) item number
        (members_of list.entry) (branches_of branches.now)) }
{
    for place in 0..branches.len() {
        let (member, columns) = (list.members[place], branches[place]);
        let scan = branch_scan(alloc, arena, schema, bound, item, number, member, columns)?;
        made.push(scan)?;
    }
    Ok(())
}

#[tactic(auto, using(crate::proofs::Lists::seen_lists))]
fn any_members<'p>(expr: &BExpr<'p>) -> Option<BExprs<'p>>
    ensures { option_map members_of result ≡ any_of (expr_of expr.now) }
{
    match expr {
        BExpr::Any(list) => Some(*list),
        _ => None,
    }
}

/// The members of the OR that a conjunct is, if it is one.
fn or_members<'p>(bound: &Bound<'p>, number: u32) -> Option<BExprs<'p>>
    requires { number < length bound.now.conjuncts.now }
    ensures { option_map members_of result
        ≡ members_at (slice_get (bound_of bound.now).conjuncts number) }
{
    any_members(bound.conjuncts[number as usize].expr)
}

/// Appends the scans of the branches of an OR term.
fn push_or<'p>(
    alloc: Global,
    arena: &'p Bump,
    made: &mut Scans,
    schema: &Schema,
    bound: &'p Bound<'p>,
    item: u32,
    term: &OrTerm<'p>,
) -> Result<(), Memory>
    requires fits { Fits (plain_schema schema.now) (bound_of bound.now) (needs_of bound.now) }
    requires item { item < length bound.now.items.now }
    requires listed { IsListedOr (plain_schema schema.now) (bound_of bound.now) item
        (or_term_of term.now) }
    requires marked { OrIsMarked term.now }
    ensures { OnOk result (map scan_of made.new ≡ map scan_of made.old
        ++ or_scans (plain_schema schema.now) (bound_of bound.now) item (or_term_of term.now)) }
{
    let number = term.conjunct;
    match or_members(bound, number) {
        Some(list) => {
            push_branches(
                alloc,
                arena,
                made,
                schema,
                bound,
                item,
                number,
                list,
                term.branches,
            )
        }
        None => Ok(()),
    }
}

/// Appends the scans of the branches of each OR term of an item.
fn push_ors<'p>(
    alloc: Global,
    arena: &'p Bump,
    made: &mut Scans,
    schema: &Schema,
    bound: &'p Bound<'p>,
    item: u32,
    ors: &[OrTerm<'p>],
) -> Result<(), Memory>
    requires fits { Fits (plain_schema schema.now) (bound_of bound.now) (needs_of bound.now) }
    requires item { item < length bound.now.items.now }
    requires listed { AllByRecursion
        (λ o. IsListedOr (plain_schema schema.now) (bound_of bound.now) item (or_term_of o)) ors.now }
    requires marked { AllByRecursion OrIsMarked ors.now }
    ensures { OnOk result (map scan_of made.new ≡ map scan_of made.old
        ++ flat_map (or_scans (plain_schema schema.now) (bound_of bound.now) item)
        (map or_term_of ors.now)) }
{
    for term in ors {
        push_or(alloc, arena, made, schema, bound, item, term)?;
    }
    Ok(())
}

/// Appends the scan of an item, and those of the branches of its OR terms.
fn push_item<'p>(
    alloc: Global,
    arena: &'p Bump,
    made: &mut Scans,
    schema: &Schema,
    bound: &'p Bound<'p>,
    item: u32,
    terms: &ItemTerms<'p>,
) -> Result<(), Memory>
    requires fits { Fits (plain_schema schema.now) (bound_of bound.now) (needs_of bound.now) }
    requires item { item < length bound.now.items.now }
    requires own { item_terms_of terms.now
        ≡ terms_of_item (plain_schema schema.now) (bound_of bound.now) item }
    requires marked { ItemIsMarked terms.now }
    ensures { OnOk result (map scan_of made.new ≡ map scan_of made.old
        ++ meant.scans_of_item (plain_schema schema.now) (bound_of bound.now) item) }
{
    made.push(item_scan(alloc, arena, schema, bound, item, terms.columns)?)?;
    push_ors(alloc, arena, made, schema, bound, item, terms.ors)
}

/// The scans of a statement, whose keys of IN are copied to the arena.
fn scans_in<'p>(
    alloc: Global,
    arena: &'p Bump,
    schema: &Schema,
    bound: &'p Bound<'p>,
    terms: &Terms<'p>,
) -> Result<Scans, Memory>
    requires fits { Fits (plain_schema schema.now) (bound_of bound.now) (needs_of bound.now) }
    requires own { terms_of terms.now ≡ lists.terms_of (plain_schema schema.now)
        (bound_of bound.now) }
    requires marked { AllAreMarked terms.now }
    ensures { IfOk result (λ made. map scan_of made
        ≡ meant.scans (plain_schema schema.now) (bound_of bound.now)) }
{
    let mut made = Items::new(alloc);
    for item in 0..bound.items.len() as u32 {
        let own = &terms.items[item as usize];
        push_item(alloc, arena, &mut made, schema, bound, item, own)?;
    }
    Ok(made)
}

/// The scans of a statement: for each item its scan, then one for each branch of each of its OR
/// terms. Equalities and bounds come from direct terms in the order of their conjuncts, then from
/// those that no conjunct gives by itself; each column stands once in a list, as it comes first
/// (<https://sqlite.org/queryplanner.html>, sections 1.6 to 3.2).
///
/// Takes time and memory as there are terms and conjuncts, one hash for each column of a term, and
/// never more for a wider table. The equalities of an item, or of a branch, that name some item are
/// gone through once for each item of the statement.
pub fn scans<'p>(
    alloc: Global,
    arena: &'p Bump,
    schema: &Schema,
    bound: &'p Bound<'p>,
    terms: &Terms<'p>,
) -> Result<Scans, Memory>
    requires fits { Fits (plain_schema schema.now) (bound_of bound.now) (needs_of bound.now) }
    requires own { terms_of terms.now ≡ lists.terms_of (plain_schema schema.now)
        (bound_of bound.now) }
    requires marked { AllAreMarked terms.now }
    ensures scans { IfOk result (λ made. map scan_of made
        ≡ meant.scans (plain_schema schema.now) (bound_of bound.now)) }
    ensures sound { IfOk result (λ made. AreScansOf schema.now.tables made) }
{
    let made = scans_in(alloc, arena, schema, bound, terms)?;
    Ok(made)
}
