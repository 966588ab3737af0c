//! Walks of a sorted list by values: the rows that agree with equality parts on its first columns,
//! and lie within a range of the next one (<https://sqlite.org/queryplanner.html>, sections 1.3
//! to 1.6; <https://sqlite.org/optoverview.html>, section 2).
#![tactic(auto)]

mod columns;
mod cuts;
mod ends;
mod in_keys;
mod parts;
mod ranges;
mod seeks;
mod stretches;

pub use columns::SortColumn;
pub use ends::End;
pub use parts::Part;
pub use seeks::seek;
