//! Candidates: the indexes that are worth a try for the scans of a script's statements, and their
//! names (<https://sqlite.org/queryplanner.html>, <https://sqlite.org/cli.html>, "Index
//! Recommendations").
#![tactic(auto)]

mod asked;
mod beginnings;
mod found;
mod from_scans;
mod names;
mod search;
mod starts;

pub use asked::{JoinColumns, JoinLists, Scan, ScanColumn, ScanColumns, Scans};
pub use found::{CANDIDATE_LIMIT, CandidateFault, Candidates};
pub use from_scans::{candidates, unusable_indexes_serve_nothing};
pub use starts::numbers_of;
