//! Words on lists and their laws: same members as often, in order, stretches, first comings, nested
//! loops. Nothing here speaks of a database.
#![tactic(auto)]

mod loops;
mod members;

pub use loops::{blocks_leave_out_what_fails, free_items_change_places, loops_filter_the_product};
pub use members::{sorts_only_move_members, stretches_are_filters, tallies_tell_permutations};
