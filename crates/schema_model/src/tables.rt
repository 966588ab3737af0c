//! Tables.
use crate::columns::Columns;
use sql_value::Bytes;

/// How many columns a table may have.
pub const COLUMN_LIMIT: usize = 2_000;

/// A table that is read: its name, its columns, and the column that is its rowid under another
/// name, where it has one (<https://sqlite.org/lang_createtable.html>, "ROWIDs and the INTEGER
/// PRIMARY KEY").
#[derive(Drop)]
pub struct Table {
    pub name: Bytes,
    pub columns: Columns,
    pub alias: Option<u32>,
}

/// What a schema has under a name.
#[derive(Clone, Copy, Debug, PartialEq, Eq)]
pub enum Found {
    /// The number of a table that is read.
    Read(u32),
    /// A table whose form isn't read: its name is known, and nothing else.
    Unread,
    Missing,
}
