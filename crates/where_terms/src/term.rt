//! Terms: what a condition says of one column.
//!
//! Terms borrow their keys from the statement, so each is copied as a few words. A column is a
//! number, and `None` for the rowid.
ghost use Rattle.std.specs.Prelude.{◌≡◌};
ghost use Rattle.where_terms.specs.Kinds.{term_kind_of};
ghost use Rattle.where_terms.specs.Masks.{kind_mask};

use crate::TermKind;
use sql_value::Collation;

/// What a conjunct says of a column, or what follows from several, which has no conjunct.
#[derive(Clone, Copy)]
pub struct Term<'p> {
    pub column: Option<u32>,
    pub conjunct: Option<u32>,
    /// The collation of the comparison.
    pub coll: Collation,
    pub kind: TermKind<'p>,
    /// The items that its keys name: bit k stands for item k.
    pub others: u64,
    pub ghost others_are_named: { others ≡ kind_mask (term_kind_of kind) },
}

/// The terms of a column, each kind in the order in which they are tried.
#[derive(Clone, Copy)]
pub struct ColumnTerms<'p> {
    pub column: Option<u32>,
    pub equals: &'p [Term<'p>],
    pub lows: &'p [Term<'p>],
    pub highs: &'p [Term<'p>],
}

/// An OR each of whose branches says something of the item.
#[derive(Clone, Copy)]
pub struct OrTerm<'p> {
    pub conjunct: u32,
    pub branches: &'p [&'p [ColumnTerms<'p>]],
}

/// The terms of an item: the columns that have one, the rowid first and then by number, and the OR
/// terms by conjunct.
#[derive(Clone, Copy)]
pub struct ItemTerms<'p> {
    pub columns: &'p [ColumnTerms<'p>],
    pub ors: &'p [OrTerm<'p>],
}

/// The terms of a statement, for each item.
#[derive(Clone, Copy)]
pub struct Terms<'p> {
    pub items: &'p [ItemTerms<'p>],
}
