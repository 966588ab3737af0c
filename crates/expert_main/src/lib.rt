//! The program below `main`: from its words and files to its status and what it writes.
#![tactic(auto)]

mod answer;
mod refusal;
mod script;
mod status;
mod top;
mod words;

pub use status::OUT_OF_MEMORY;
pub use top::expert;
