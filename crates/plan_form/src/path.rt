//! The ways to a table's rows (<https://sqlite.org/eqp.html>, section 1.1).
//!
//! A path borrows its keys from the statement, so it is copied as a few words. A list stands in a
//! struct of its own where an enum holds it, because an enum may not hold a slice of references.
use sql_bound::{KeyExpr, Keys};

/// What an index column, or the rowid, must equal.
#[derive(Clone, Copy)]
pub enum EqPart<'p> {
    /// `= key`
    One(KeyExpr<'p>),
    /// `IN (keys)`
    Many(Keys<'p>),
    /// `IS NULL`
    Null,
}

/// Equality parts, for the columns of an index from its first on.
#[derive(Clone, Copy)]
pub struct EqParts<'p> {
    pub parts: &'p [&'p EqPart<'p>],
}

/// An end of a range.
#[derive(Clone, Copy)]
pub struct Edge<'p> {
    pub key: KeyExpr<'p>,
    pub inclusive: bool,
}

/// A way to the rows of a table. Indexes are numbered as in the schema; a covering one has all
/// columns that the statement needs, so that the table isn't read.
#[derive(Clone, Copy)]
#[cycle(path)]
pub enum Path<'p> {
    /// All rows by rowid.
    TableScan,
    /// The rows of a rowid, or of some.
    RowidEq(EqPart<'p>),
    /// The rows between two rowids: the lower end, then the upper one.
    RowidRange(Option<Edge<'p>>, Option<Edge<'p>>),
    /// All rows in the order of an index.
    IndexScan {
        index: u32,
        covering: bool,
    },
    /// The rows that agree with the equality parts, and lie within a range of the next column.
    IndexSeek {
        index: u32,
        covering: bool,
        eqs: EqParts<'p>,
        low: Option<Edge<'p>>,
        high: Option<Edge<'p>>,
    },
    /// The rows of each branch in turn, each row at its first coming (MULTI-INDEX OR).
    Union(Paths<'p>),
}

/// The branches of a union.
#[derive(Clone, Copy)]
#[cycle(path)]
pub struct Paths<'p> {
    pub branches: &'p [&'p Path<'p>],
}
