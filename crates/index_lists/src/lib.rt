//! The list that an index keeps: the rows of its table by the index's columns, then by rowid
//! (<https://sqlite.org/fileformat2.html>, section 2.6).
#![tactic(auto)]

mod columns;
mod entries;
mod lists;

pub use columns::{compare_in_column, compare_or_null, value_at};
pub use entries::{compare_entries, sorted_entries};
pub use lists::index_list;
