//! Plans: how each table of a statement is walked, and the text that tells it.
//!
//! What a plan answers is said over plain data, in `sql_meaning`; a plan is seen as such a one by
//! `plan_of` of specs/Plans.antt.
#![tactic(auto)]

mod keys;
mod lists;
mod numbers;
mod path;
mod path_rows;
mod plan;
mod scans;
mod text;
mod walks;

pub use bound_rows::{Answer, filter_rows};
pub use path::{Edge, EqPart, EqParts, Path, Paths};
pub use plan::{Loop, Plan};
pub use scans::{scan_plan, table_scans_mean};
pub use text::plan_text;
pub use walks::walk;
