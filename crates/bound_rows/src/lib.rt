//! The rows of a bound statement: an item is placed after another, each conjunct is tested where it
//! is first known, and what is left is sorted, cut and answered
//! (<https://sqlite.org/lang_select.html>, section 2).
#![tactic(auto)]

mod answers;
mod conditions;
mod cuts;
mod filter;
mod levels;
mod places;
mod rows;
mod sorting;

pub use answers::{Answer, images};
pub use conditions::all_hold;
pub use cuts::cut_rows;
pub use filter::filter_rows;
pub use levels::{Level, level_of};
pub use places::{Source, empty_places, has_few_rows, lent_places, table_rows};
pub use rows::{extend, level_item};
pub use sorting::sorted_by_keys;
