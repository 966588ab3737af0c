//! The columns that links and chains of links join with a column.
ghost use Rattle.std.specs.Prelude.{◌≡◌, ◌++◌, ◌∷◌, [], IfOk, OnOk, map, not};
ghost use Rattle.std.specs.List.{filter};
ghost use Rattle.std.specs.Ordering.{eq_by_cmp};
ghost use Rattle.list_laws.specs.FirstComing.{keep_first, dedup_behind};
ghost use Rattle.list_laws.specs.Order.{Ascends, sort_by};
ghost use Rattle.sql_meaning.specs.TermLists as meant;
ghost use Rattle.sql_bound.specs.Columns.{column_ref_of};
ghost use Rattle.where_terms.specs.Views.{link_of};
ghost use Rattle.where_terms.specs.Linked.{linked_in};

use crate::columns::{is_same_ref, site_number};
use crate::links::Link;
use sql_bound::ColumnRef;
use sql_value::{Memory, push};
use std::alloc::Global;
use std::cmp::Ordering;
use std::mem::swap;

fn touches(c: ColumnRef, link: Link) -> bool
    ensures { result ≡ meant.touches (column_ref_of c) (link_of link) }
{
    is_same_ref(c, link.first) || is_same_ref(c, link.second)
}

fn other_end(c: ColumnRef, link: Link) -> ColumnRef
    ensures { column_ref_of result ≡ meant.other_end (column_ref_of c) (link_of link) }
{
    if is_same_ref(c, link.first) {
        link.second
    } else {
        link.first
    }
}

/// Visits a column: what links join with it is to be visited next, and the links that don't touch
/// it are left.
fn visit(
    c: ColumnRef,
    links: &[Link],
    next: &mut Vec<ColumnRef>,
    left: &mut Vec<Link>,
) -> Result<(), Memory>
    ensures next { OnOk result (map column_ref_of next.new.items
        ≡ map column_ref_of next.old.items
        ++ map (meant.other_end (column_ref_of c))
        (filter (meant.touches (column_ref_of c)) (map link_of links.now))) }
    ensures left { OnOk result (map link_of left.new.items
        ≡ map link_of left.old.items
        ++ filter (λ p. not (meant.touches (column_ref_of c) p)) (map link_of links.now)) }
{
    for link in links {
        if touches(c, *link) {
            push(next, other_end(c, *link))?;
        } else {
            push(left, *link)?;
        }
    }
    Ok(())
}

/// The column and all that links join with it, in the order of the visits. The last column of
/// `next` is visited first, so the links are looked at from the last one on. Each visit but the
/// first came by a link that is then left out, so there is one visit more than links at most.
fn visited(alloc: Global, links: &[Link], c: ColumnRef) -> Result<Vec<ColumnRef>, Memory>
    ensures { IfOk result (λ found. map column_ref_of found.items
        ≡ meant.visited (column_ref_of c) (map link_of links.now)) }
{
    let mut found: Vec<ColumnRef> = Vec::new(alloc);
    let mut next: Vec<ColumnRef> = Vec::new(alloc);
    push(&mut next, c)?;
    let mut open: Vec<Link> = Vec::from_slice(alloc, links)?;
    open.reverse();
    let mut left: Vec<Link> = Vec::new(alloc);
    for _turn in 0..links.len() + 1 {
        let Some(c) = next.pop() else {
            return Ok(found);
        };
        push(&mut found, c)?;
        visit(c, open.as_slice(), &mut next, &mut left)?;
        swap(&mut open, &mut left);
        left.clear();
    }
    Ok(found)
}

/// By item, and then by column.
fn compare_refs(left: &ColumnRef, right: &ColumnRef) -> Ordering
    ensures { result ≡ meant.ref_cmp (column_ref_of left.now) (column_ref_of right.now) }
{
    left.item
        .cmp(&right.item)
        .then(site_number(left.column).cmp(&site_number(right.column)))
}

fn without(alloc: Global, list: &[ColumnRef], c: ColumnRef) -> Result<Vec<ColumnRef>, Memory>
    ensures { IfOk result (λ others. map column_ref_of others.items
        ≡ filter (λ d. not (meant.same_ref d (column_ref_of c))) (map column_ref_of list.now)) }
{
    let mut others: Vec<ColumnRef> = Vec::new(alloc);
    for d in list {
        if !is_same_ref(*d, c) {
            push(&mut others, *d)?;
        }
    }
    Ok(others)
}

fn sorted(mut list: Vec<ColumnRef>) -> Result<Vec<ColumnRef>, Memory>
    ensures { IfOk result (λ sorted. map column_ref_of sorted.items
        ≡ sort_by meant.ref_cmp (map column_ref_of list.items)) }
{
    list.sort_by(|left, right| compare_refs(left, right))?;
    Ok(list)
}

/// A column, and of those behind it each that differs from the one before.
fn dedup(alloc: Global, first: ColumnRef, rest: &[ColumnRef]) -> Result<Vec<ColumnRef>, Memory>
    ensures { IfOk result (λ kept. map column_ref_of kept.items
        ≡ column_ref_of first ∷ dedup_behind (eq_by_cmp meant.ref_cmp) (column_ref_of first)
        (map column_ref_of rest.now)) }
{
    let mut kept: Vec<ColumnRef> = Vec::new(alloc);
    push(&mut kept, first)?;
    let mut last = first;
    for c in rest {
        if compare_refs(&last, c) != Ordering::Equal {
            push(&mut kept, *c)?;
        }
        last = *c;
    }
    Ok(kept)
}

/// Each column of a list in order once.
fn each_once(alloc: Global, list: &[ColumnRef]) -> Result<Vec<ColumnRef>, Memory>
    ensures { IfOk result (λ kept. Ascends meant.ref_cmp (map column_ref_of list.now)
        → map column_ref_of kept.items
        ≡ keep_first (eq_by_cmp meant.ref_cmp) [] (map column_ref_of list.now)) }
{
    let [first, rest @ ..] = list else {
        return Ok(Vec::new(alloc));
    };
    let kept = dedup(alloc, *first, rest)?;
    Ok(kept)
}

/// The columns that are linked with one, in order, without itself.
pub(crate) fn linked_to(
    alloc: Global,
    links: &[Link],
    c: ColumnRef,
) -> Result<Vec<ColumnRef>, Memory>
    ensures { IfOk result (λ linked. map column_ref_of linked.items
        ≡ linked_in (map link_of links.now) (column_ref_of c)) }
{
    let found = visited(alloc, links, c)?;
    let others = without(alloc, found.as_slice(), c)?;
    let list = sorted(others)?;
    let linked = each_once(alloc, list.as_slice())?;
    Ok(linked)
}
