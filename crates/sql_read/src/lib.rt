//! From lexemes to trees: one function for each level of the grammar, descending once from left to
//! right.
#![tactic(auto)]

mod cursor;
mod descent;
mod follow;
mod keys;
mod leaf;
mod levels;
mod lexeme;
mod limits;
mod lists;
mod results;
mod sources;
mod statement;

pub use lexeme::{DescentFault, Direction, Lexeme, Mark};
pub use statement::read_statement;
