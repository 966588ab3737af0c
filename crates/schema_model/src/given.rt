//! Figures that a dump gives.
use sql_value::{Bytes, Items};

/// A row of `sqlite_stat1`, which ANALYZE writes (<https://sqlite.org/lang_analyze.html>): figures
/// of an index, or of a table where no index is named.
#[derive(Drop)]
pub struct Given {
    pub table: Bytes,
    pub index: Option<Bytes>,
    pub stat: Bytes,
}

/// Rows of `sqlite_stat1` in the order of the dump.
pub type GivenList = Items<Given>;
