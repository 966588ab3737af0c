//! Rows of a schema's tables.
use sql_value::{Items, Values};

/// A row of a table: its rowid, and a value for each column, in the order of the columns.
#[derive(Drop)]
pub struct Row {
    pub rowid: i64,
    pub values: Values,
}

/// The rows of a table.
pub type RowList = Items<Row>;

/// The rows of each table that is read, by the table's number.
pub type Tables = Items<RowList>;
