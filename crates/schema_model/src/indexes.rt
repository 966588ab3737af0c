//! Indexes.
use sql_value::{Bytes, Collation, Items};

/// A column of an index, with the order in which the index has it
/// (<https://sqlite.org/lang_createindex.html>).
#[derive(Clone, Copy, Debug, PartialEq, Eq)]
pub struct IndexColumn {
    /// The number of the column in its table.
    pub column: u32,
    pub coll: Collation,
    /// Whether it falls.
    pub desc: bool,
}

/// The columns of an index, the first one first.
pub type IndexColumns = Items<IndexColumn>;

/// An index.
#[derive(Drop)]
pub struct Index {
    pub name: Bytes,
    /// The number of its table.
    pub table: u32,
    pub columns: IndexColumns,
    pub unique: bool,
    /// Whether a plan may use it: it has all rows of its table, by columns.
    pub usable: bool,
}
