//! What statements ask of the columns of their items.
use schema_model::{IndexColumn, IndexColumns};
use sql_value::Items;

/// A column of a scan, with the order that is asked of it: what an index would have for it.
pub type ScanColumn = IndexColumn;

/// Columns of a scan.
pub type ScanColumns = IndexColumns;

/// The columns that are equal to what one item alone gives.
#[derive(Drop)]
pub struct JoinColumns {
    /// The number of that item.
    pub item: u32,
    pub columns: ScanColumns,
}

/// Those of each item that gives some.
pub type JoinLists = Items<JoinColumns>;

/// The columns of an item that a statement restricts, or that a branch of an OR does. The rowid
/// isn't among them, and in each list a column stands once.
#[derive(Drop)]
pub struct Scan {
    /// The number of the item's table.
    pub table: u32,
    /// The columns that are equal to what names no column.
    pub equal: ScanColumns,
    /// The others that are equal to something.
    pub joined: ScanColumns,
    /// Of these, those that one item alone gives, by item; no list of them is empty.
    pub by_item: JoinLists,
    /// The columns with a bound.
    pub bounds: ScanColumns,
    /// The columns of ORDER BY.
    pub order: ScanColumns,
}

/// The scans of a statement.
pub type Scans = Items<Scan>;
