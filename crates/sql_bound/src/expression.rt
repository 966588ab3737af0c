//! Expressions whose names are bound to items of FROM and their columns.
//!
//! A bound expression borrows its texts from the statement's text and its parts from the arena, so
//! it is copied as a few words.
use sql_tree::{Lit, Op};
use sql_value::{Affinity, Collation, Conversions};

/// An expression of <https://sqlite.org/lang_expr.html> with its names bound. Items and columns are
/// numbered from 0. A flag is true for the form with NOT. A BETWEEN is the AND of its two
/// comparisons.
#[derive(Clone, Copy)]
#[cycle(bound_expression)]
pub enum BExpr<'a> {
    Lit(Lit<'a>),
    /// A parameter by its number, from 1 on.
    Param(u32),
    Column {
        item: u32,
        column: u32,
    },
    Rowid {
        item: u32,
    },
    Plus(&'a BExpr<'a>),
    Collate(&'a BExpr<'a>, Collation),
    /// A comparison, with what is applied to each side, and the collation of texts.
    Cmp {
        op: Op,
        left: &'a BExpr<'a>,
        right: &'a BExpr<'a>,
        conv: Conversions,
        coll: Collation,
    },
    /// IN a list. The conversion is applied to each entry and never to the left side.
    OneOf {
        not: bool,
        left: &'a BExpr<'a>,
        entries: BExprs<'a>,
        conv: Option<Affinity>,
        coll: Collation,
    },
    /// LIKE: the left side, then the pattern.
    Like(bool, &'a BExpr<'a>, &'a BExpr<'a>),
    IsNull(bool, &'a BExpr<'a>),
    Not(&'a BExpr<'a>),
    /// The AND of the members; true where there are none.
    All(BExprs<'a>),
    /// The OR of the members; false where there are none.
    Any(BExprs<'a>),
}

/// The members of a bound expression, in order.
///
/// The slice stands in a struct of its own because an enum may not hold a slice of references to
/// its own recursion.
#[derive(Clone, Copy)]
#[cycle(bound_expression)]
pub struct BExprs<'a> {
    pub members: &'a [&'a BExpr<'a>],
}
