//! Which condition says something of which column, so that a walk may seek by it
//! (<https://sqlite.org/optoverview.html>, "WHERE Clause Analysis").
#![tactic(auto)]

mod branches;
mod columns;
mod derived;
mod direct;
mod gathering;
mod kind;
mod likes;
mod linked;
mod links;
mod listing;
mod masks;
mod ors;
mod own;
mod serving;
mod statement;
mod term;

pub use direct::{direct_branch_terms, direct_terms};
pub use kind::TermKind;
pub use statement::terms;
pub use term::{ColumnTerms, ItemTerms, OrTerm, Term, Terms};
