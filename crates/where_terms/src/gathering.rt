//! The terms of one column, from a list of conjuncts.
ghost use Rattle.std.specs.Prelude.{◌≡◌, ◌++◌, IfOk, OnOk, map};
ghost use Rattle.sql_meaning.specs.TermLists as meant;
ghost use Rattle.sql_bound.specs.Columns.{site_of, column_ref_of};
ghost use Rattle.where_terms.specs.Kinds.{term_kind_of};
ghost use Rattle.where_terms.specs.Views.{term_of, column_terms_of};
ghost use Rattle.where_terms.specs.Sorts.{test_of, of_kind_test};
ghost use Rattle.where_terms.specs.Gathered.{equals_from, gathered_from};

use crate::derived::push_derived;
use crate::linked::linked_to;
use crate::links::Link;
use crate::{ColumnTerms, Term, TermKind};
use bumpalo::Bump;
use bumpalo::collections::into_bump_slice;
use schema_model::Schema;
use sql_bound::{BExpr, BItem, ColumnRef, is_same_column};
use sql_value::{Memory, push};
use std::alloc::Global;

/// The lists that the terms of a column stand in.
#[derive(Clone, Copy)]
pub(crate) enum Sort {
    /// `=` and IS NULL
    Equal,
    /// IN
    Within,
    Low,
    High,
}

fn is_of(sort: Sort, kind: &TermKind) -> bool
    ensures { result ≡ test_of sort (term_kind_of kind.now) }
{
    match (sort, kind) {
        (Sort::Equal, TermKind::Equal(_)) => true,
        (Sort::Equal, TermKind::IsNull) => true,
        (Sort::Equal, TermKind::OneOf(_)) => false,
        (Sort::Equal, TermKind::Low(..)) => false,
        (Sort::Equal, TermKind::High(..)) => false,
        (Sort::Within, TermKind::OneOf(_)) => true,
        (Sort::Within, TermKind::Equal(_)) => false,
        (Sort::Within, TermKind::IsNull) => false,
        (Sort::Within, TermKind::Low(..)) => false,
        (Sort::Within, TermKind::High(..)) => false,
        (Sort::Low, TermKind::Low(..)) => true,
        (Sort::Low, TermKind::Equal(_)) => false,
        (Sort::Low, TermKind::IsNull) => false,
        (Sort::Low, TermKind::OneOf(_)) => false,
        (Sort::Low, TermKind::High(..)) => false,
        (Sort::High, TermKind::High(..)) => true,
        (Sort::High, TermKind::Equal(_)) => false,
        (Sort::High, TermKind::IsNull) => false,
        (Sort::High, TermKind::OneOf(_)) => false,
        (Sort::High, TermKind::Low(..)) => false,
    }
}

fn belongs(term: &Term, sort: Sort, column: Option<u32>) -> bool
    ensures { result
        ≡ of_kind_test (test_of sort) (site_of column) (term_of term.now) }
{
    is_same_column(term.column, column) && is_of(sort, &term.kind)
}

/// Appends the terms of one column that are of a sort.
fn push_sort<'p>(
    terms: &mut Vec<Term<'p>, &'p Bump>,
    own: &[Term<'p>],
    sort: Sort,
    column: Option<u32>,
) -> Result<(), Memory>
    ensures { OnOk result (map term_of terms.new.items
        ≡ map term_of terms.old.items
        ++ meant.of_kind (test_of sort) (site_of column) (map term_of own.now)) }
{
    for term in own {
        if belongs(term, sort, column) {
            push(terms, *term)?;
        }
    }
    Ok(())
}

/// The bounds of a column, the direct ones first.
fn bounds<'p>(
    arena: &'p Bump,
    own: &[Term<'p>],
    likes: &[Term<'p>],
    sort: Sort,
    column: Option<u32>,
) -> Result<&'p [Term<'p>], Memory>
    ensures { IfOk result (λ terms. map term_of terms.now
        ≡ meant.of_kind (test_of sort) (site_of column) (map term_of own.now)
        ++ meant.of_kind (test_of sort) (site_of column) (map term_of likes.now)) }
{
    let mut terms: Vec<Term<'p>, &'p Bump> = Vec::new(arena);
    push_sort(&mut terms, own, sort, column)?;
    push_sort(&mut terms, likes, sort, column)?;
    Ok(into_bump_slice(terms))
}

/// What terms are gathered from: what each conjunct of a list says by itself, and what equalities
/// are derived from.
#[derive(Clone, Copy)]
pub(crate) struct Sources<'s, 'p> {
    pub schema: &'s Schema,
    pub items: &'s [BItem<'p>],
    pub own: &'s [Term<'p>],
    /// The bounds that LIKEs give.
    pub likes: &'s [Term<'p>],
    /// The conjuncts that compare with a constant.
    pub constants: &'s [&'p BExpr<'p>],
    pub links: &'s [Link],
}

/// The equality terms of a column in the order in which they are tried.
fn equals<'p>(
    alloc: Global,
    arena: &'p Bump,
    from: &Sources<'_, 'p>,
    c: ColumnRef,
) -> Result<&'p [Term<'p>], Memory>
    ensures { IfOk result (λ terms. map term_of terms.now
        ≡ equals_from from.now (column_ref_of c)) }
{
    let mut terms: Vec<Term<'p>, &'p Bump> = Vec::new(arena);
    push_sort(&mut terms, from.own, Sort::Equal, c.column)?;
    let linked = linked_to(alloc, from.links, c)?;
    push_derived(
        arena,
        &mut terms,
        from.schema,
        from.items,
        c,
        from.constants,
        linked.as_slice(),
    )?;
    push_sort(&mut terms, from.own, Sort::Within, c.column)?;
    Ok(into_bump_slice(terms))
}

/// The terms of a column.
pub(crate) fn column_terms<'p>(
    alloc: Global,
    arena: &'p Bump,
    from: &Sources<'_, 'p>,
    c: ColumnRef,
) -> Result<ColumnTerms<'p>, Memory>
    ensures { IfOk result (λ terms. column_terms_of terms
        ≡ gathered_from from.now (column_ref_of c)) }
{
    Ok(ColumnTerms {
        column: c.column,
        equals: equals(alloc, arena, from, c)?,
        lows: bounds(arena, from.own, from.likes, Sort::Low, c.column)?,
        highs: bounds(arena, from.own, from.likes, Sort::High, c.column)?,
    })
}

pub(crate) fn has_some(terms: &ColumnTerms) -> bool
    ensures { result ≡ meant.has_term (column_terms_of terms.now) }
{
    !terms.equals.is_empty() || !terms.lows.is_empty() || !terms.highs.is_empty()
}
