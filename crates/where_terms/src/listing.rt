//! The columns of an item that have a term, in order.
//!
//! Only columns that a term or a link names are looked at, so that a table's width costs nothing.
ghost use Rattle.std.specs.Prelude.{◌≡◌, ◌++◌, ◌+◌, ◌<◌, ◌≤◌, ℕ, false, IfOk, OnOk, map};
ghost use Rattle.std.specs.List.{flat_map};
ghost use Rattle.sql_meaning.specs.Statements.{has_number};
ghost use Rattle.sql_bound.specs.Columns.{column_ref_of};
ghost use Rattle.where_terms.specs.Views.{term_of, link_of, column_terms_of};
ghost use Rattle.where_terms.specs.Sites.{site_at, term_numbers, ref_numbers, pair_numbers};
ghost use Rattle.where_terms.specs.Sites.{candidates, listed_from, if_some};

use crate::columns::site_number;
use crate::gathering::{Sources, column_terms, has_some};
use crate::links::Link;
use crate::{ColumnTerms, Term};
use bumpalo::Bump;
use bumpalo::collections::into_bump_slice;
use sql_bound::ColumnRef;
use sql_value::{Memory, push};
use std::alloc::Global;

/// The most terms that one list of conjuncts may give an item. Equalities that follow from those of
/// a branch of an OR may be as many as the square of its length.
const MOST_TERMS: usize = 16_777_216;

fn push_term_numbers(numbers: &mut Vec<u64>, terms: &[Term]) -> Result<(), Memory>
    ensures { OnOk result (numbers.new.items
        ≡ numbers.old.items ++ term_numbers (map term_of terms.now)) }
{
    for term in terms {
        push(numbers, site_number(term.column))?;
    }
    Ok(())
}

fn push_ref_number(numbers: &mut Vec<u64>, item: u32, c: ColumnRef) -> Result<(), Memory>
    ensures { OnOk result (numbers.new.items
        ≡ numbers.old.items ++ ref_numbers item (column_ref_of c)) }
{
    if c.item == item {
        push(numbers, site_number(c.column))
    } else {
        Ok(())
    }
}

fn push_pair_numbers(numbers: &mut Vec<u64>, item: u32, link: Link) -> Result<(), Memory>
    ensures { OnOk result (numbers.new.items
        ≡ numbers.old.items ++ pair_numbers item (link_of link)) }
{
    push_ref_number(numbers, item, link.first)?;
    push_ref_number(numbers, item, link.second)?;
    Ok(())
}

fn push_link_numbers(numbers: &mut Vec<u64>, item: u32, links: &[Link]) -> Result<(), Memory>
    ensures { OnOk result (numbers.new.items
        ≡ numbers.old.items ++ flat_map (pair_numbers item) (map link_of links.now)) }
{
    for link in links {
        push_pair_numbers(numbers, item, *link)?;
    }
    Ok(())
}

/// The places of the item's columns that a term or a link names.
fn places(alloc: Global, from: &Sources, item: u32) -> Result<Vec<u64>, Memory>
    ensures { IfOk result (λ numbers. numbers.items ≡ candidates from.now item) }
{
    let mut numbers: Vec<u64> = Vec::new(alloc);
    push_term_numbers(&mut numbers, from.own)?;
    push_term_numbers(&mut numbers, from.likes)?;
    push_link_numbers(&mut numbers, item, from.links)?;
    Ok(numbers)
}

fn nearer(best: u64, number: u64, start: u64) -> u64
    requires { start ≤ best }
    ensures above { start ≤ result }
    ensures below { result ≤ best }
    ensures passed { start ≤ number → result ≤ number }
{
    if start <= number && number < best {
        number
    } else {
        best
    }
}

/// The least place from `start` on, or `end` where there is none below it.
fn next_from(numbers: &[u64], start: u64, end: u64) -> u64
    requires { start ≤ end }
    ensures above { start ≤ result }
    ensures below { result ≤ end }
    ensures passed { (n : ℕ) → start ≤ n → n < result → has_number n numbers.now ≡ false }
{
    let mut best = end;
    for number in numbers {
        best = nearer(best, *number, start);
    }
    best
}

fn column_at(item: u32, number: u64) -> ColumnRef
    requires { number ≤ 4294967296 }
    ensures { column_ref_of result ≡ record { item = item; site = site_at number } }
{
    ColumnRef {
        item,
        column: if number == 0 {
            None
        } else {
            Some((number - 1) as u32)
        },
    }
}

fn push_column<'p>(
    made: &mut Vec<ColumnTerms<'p>, &'p Bump>,
    terms: ColumnTerms<'p>,
) -> Result<(), Memory>
    ensures { OnOk result (map column_terms_of made.new.items
        ≡ map column_terms_of made.old.items ++ if_some (column_terms_of terms.entry)) }
{
    if has_some(&terms) {
        push(made, terms)
    } else {
        Ok(())
    }
}

fn without(room: usize, count: usize) -> Result<usize, Memory> {
    if count <= room {
        Ok(room - count)
    } else {
        Err(Memory)
    }
}

/// How many terms more there may be behind those of a column.
fn room_behind(room: usize, terms: &ColumnTerms) -> Result<usize, Memory> {
    let behind_equals = without(room, terms.equals.len())?;
    let behind_lows = without(behind_equals, terms.lows.len())?;
    without(behind_lows, terms.highs.len())
}

/// The columns of an item that have a term, the rowid first and then by number, in a table of so
/// many columns.
pub(crate) fn listed<'p>(
    alloc: Global,
    arena: &'p Bump,
    from: &Sources<'_, 'p>,
    item: u32,
    width: u32,
) -> Result<&'p [ColumnTerms<'p>], Memory>
    ensures { IfOk result (λ columns. map column_terms_of columns.now
        ≡ listed_from from.now item 0 (width + 1)) }
{
    let numbers = places(alloc, from, item)?;
    let mut made: Vec<ColumnTerms<'p>, &'p Bump> = Vec::new(arena);
    let mut room = MOST_TERMS;
    let end = width as u64 + 1;
    let mut start = next_from(numbers.as_slice(), 0, end);
    while start < end {
        let terms = column_terms(alloc, arena, from, column_at(item, start))?;
        room = room_behind(room, &terms)?;
        push_column(&mut made, terms)?;
        start = next_from(numbers.as_slice(), start + 1, end);
    }
    Ok(into_bump_slice(made))
}
