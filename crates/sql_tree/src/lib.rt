//! Trees of statements in an arena: what the parser makes, and the binder reads.
#![tactic(auto)]

mod expression;
mod nodes;
mod placing;
mod statement;

pub use expression::{Expr, Exprs, Lit, Op};
pub use nodes::{all, any, between, cmp, collate, is_null, like, name, not, one_of, plus};
pub use placing::{place, place_bytes, place_expr, place_list, place_slice};
pub use statement::{Cut, Delete, Item, Key, Select, Source, Stmt, Update};
