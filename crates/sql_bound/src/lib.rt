//! Statements with their names bound, the makers of their expressions, what an expression names,
//! and which condition may serve which table.
#![tactic(auto)]

mod columns;
mod expression;
mod key;
mod naming;
mod nodes;
mod placed;
mod placing;
mod serving;
mod statement;

pub use columns::{ColumnRef, TableColumn, bare_column, is_same_column, own_column, plain_column};
pub use expression::{BExpr, BExprs};
pub use key::{KeyExpr, Keys};
pub use naming::names_item;
pub use nodes::{all, any, cmp, collate, is_null, like, not, one_of, plus};
pub use placed::{no_bit_is_no_item, with_item};
pub use placing::place_list;
pub use serving::{first_at, may_derive, may_serve};
pub use statement::{
    BItem, BKey, Bound, Conjunct, MOST_CONJUNCTS, MOST_ITEMS, added_indexes_keep_fits,
    fitting_statements_are_plannable,
};
