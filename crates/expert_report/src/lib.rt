//! What the advisor says of a script over a dump: each statement with its plan, or why it has none,
//! the indexes that are recommended, and the text of the report.
#![tactic(auto)]

mod advice;
mod faults;
mod outcomes;
mod planning;
mod report;
mod scanning;
mod script;

pub use advice::{AdviseFault, advise};
pub use expert_advice::{CandidateLine, CandidateLines, Numbers, PlannedStatement};
pub use outcomes::{Report, Script, StatementOutcome, StatementReport, StatementReports};
pub use report::report_text;
