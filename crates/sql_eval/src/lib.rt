//! The values of bound expressions, over the rows of the items and the parameters.
#![tactic(auto)]

mod environment;
mod evaluation;
mod likes;
mod logic;
mod reading;

pub use environment::{Env, Place};
pub use evaluation::eval;
