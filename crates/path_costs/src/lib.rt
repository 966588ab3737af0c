//! What a path costs (<https://sqlite.org/queryplanner-ng.html>): how much work it is to run it,
//! and how many rows it is thought to give. All numbers are logarithms, as those of `stat_figures`
//! are.
#![tactic(auto)]

mod cost;
mod due;
mod entries;
mod logs;
mod offered;
mod paths;
mod runs;
mod unions;

pub use cost::{Cost, Shape, Size};
pub use due::due_conjuncts;
pub use logs::sort_cost;
pub use offered::offer_cost;
pub use runs::cost_of;
pub use unions::path_size;
