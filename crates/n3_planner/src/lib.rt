//! The plan of a statement: in which order it walks its tables, and by which paths
//! (<https://sqlite.org/queryplanner-ng.html>, "N nearest neighbors").
//!
//! What is chosen is defined in `plan_choice`. The search itself is `nearest_prefixes`; here the
//! nearest prefix that it ends with is compared with the plan in written order, and the chain of
//! the better one becomes a plan.
#![tactic(auto)]

mod choosing;
mod planning;
mod steps;

pub use choosing::{Chosen, choose};
