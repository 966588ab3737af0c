//! Names of tables, columns and collations in statements, and expressions with their names bound.
#![tactic(auto)]

mod binding;
mod collating;
mod faults;
mod names;
mod scope;

pub use binding::{bind_expr, bound_is_sound, bound_stays_left};
pub use collating::{bind_collation, collation_of};
pub use faults::BindFault;
pub use names::{bind_name, column_expr, named_in};
pub use scope::Scope;
