//! What the advice on a script is made of: the schema with all candidates, the figures over it, the
//! plan of each statement, and which candidates the plans use.
//!
//! `plan_choice` defines the advice as a whole. The calls here give its parts, so that whoever
//! keeps the statements of a script makes each part once.
#![tactic(auto)]

mod figures;
mod full;
mod lines;
mod marks;
mod planned;
mod uses;

pub use figures::full_figures;
pub use full::{full_schema, full_schemas_are_meant, statements_keep_with_candidates};
pub use lines::{CandidateLine, CandidateLines, candidate_lines};
pub use planned::{PlannedStatement, plan_statement};
pub use uses::{Numbers, Uses};
