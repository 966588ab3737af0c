//! A statement with its names bound.
ghost use Rattle.sql_bound.specs.Fits.{FitsWithIndexes, FittingArePlannable};

use crate::BExpr;
use sql_tree::Cut;
use sql_value::Collation;

/// The most tables of FROM.
pub const MOST_ITEMS: usize = 64;

/// The most conditions that AND joins in the ON conditions and WHERE together.
pub const MOST_CONJUNCTS: usize = 256;

/// A table of FROM, or the one that an UPDATE or DELETE changes.
#[derive(Clone, Copy)]
pub struct BItem<'a> {
    /// The number of its table in the schema.
    pub table: u32,
    pub alias: Option<&'a [u8]>,
    /// Whether CROSS JOIN stands before it, which fixes its place in the join order
    /// (<https://sqlite.org/optoverview.html>, "Manual Control Of Query Plans Using CROSS JOIN").
    pub cross: bool,
    /// Whether LEFT JOIN stands before it, so that it has a missing row where no row fits.
    pub left: bool,
}

/// A member of the AND of the statement's ON and WHERE conditions.
#[derive(Clone, Copy)]
pub struct Conjunct<'a> {
    pub expr: &'a BExpr<'a>,
    /// The item of the LEFT JOIN whose ON it is of. A conjunct of any other condition is common.
    pub owner: Option<u32>,
}

/// A key of ORDER BY, with the collation that it compares texts by.
#[derive(Clone, Copy)]
pub struct BKey<'a> {
    pub expr: &'a BExpr<'a>,
    pub coll: Collation,
    /// Whether it falls.
    pub desc: bool,
}

/// A bound SELECT, or what an UPDATE or DELETE looks for: the rowids of the rows that it changes.
#[derive(Clone, Copy)]
pub struct Bound<'a> {
    /// In the order of FROM.
    pub items: &'a [BItem<'a>],
    /// Whether the statement is an UPDATE or DELETE, which has no results.
    pub rowids: bool,
    pub results: &'a [&'a BExpr<'a>],
    /// Those of the ON conditions in the order of FROM, then those of WHERE, numbered from 0.
    pub conjuncts: &'a [Conjunct<'a>],
    /// The first one orders first.
    pub keys: &'a [BKey<'a>],
    pub limit: Option<Cut>,
    pub offset: Option<Cut>,
    /// For each item the numbers of the columns that the statement needs of it, rising, without the
    /// alias of the rowid.
    pub needs: &'a [&'a [u32]],
}

/// A law: a statement that fits a schema fits it with an index more.
pub fn added_indexes_keep_fits()
    ensures { FitsWithIndexes }
{}

/// A law: a statement that fits a schema is one that the laws of plans speak of.
pub fn fitting_statements_are_plannable()
    ensures { FittingArePlannable }
{}
