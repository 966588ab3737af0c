//! What a statement asks of the columns of its tables, told by its terms
//! (<https://sqlite.org/queryplanner.html>, <https://sqlite.org/optoverview.html>): the scans that
//! candidate indexes are made for.
#![tactic(auto)]

mod appearing;
mod asked;
mod columns;
mod joins;
mod order;
mod scan;
mod statement;

pub use statement::scans;
