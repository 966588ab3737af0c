//! The grammar of statements as a relation, and the one tree that a run of lexemes spells.
#![tactic(auto)]

mod laws;
mod numbers;
mod refusals;
mod spelled;

pub use laws::{at_most_one_tree, spelled_where_read};
pub use refusals::{ParseFault, parse};
pub use spelled::parse_lexemes;
