//! Statements with their names bound to a schema, or the first check that they fail.
#![tactic(auto)]

mod binding;
mod clauses;
mod conditions;
mod keys;
mod needs;
mod parts;
mod results;
mod sources;

pub use binding::bind;
