//! What values, statements, walks and plans mean, over plain data, and the laws of that meaning.
//!
//! The definitions are in specs/, in the order of `specs/Lib.antt`; docs/meaning.md tells them in
//! words. There is no code here: each public function does nothing, and its contract is a law. The
//! law that the advisor is believed by is [`offered_plans_mean`].
#![tactic(auto)]

mod conditions;
mod derivations;
mod likes;
mod nested_loops;
mod offering;
mod values;
mod walks;

pub use conditions::{
    conjuncts_say_their_conditions, values_depend_on_cells, values_depend_on_named_items,
};
pub use derivations::{
    derived_terms_hold, linked_columns_are_equal, or_terms_are_of_conjuncts,
    terms_say_their_conjuncts,
};
pub use likes::{like_terms_hold, likes_stand_in_bounds};
pub use nested_loops::{
    blocks_leave_out_what_fails, loops_give_the_rows, offered_plans_fit, offered_plans_mean,
    plans_give_the_order,
};
pub use offering::chosen_paths_are_offers;
pub use values::{
    conversions_settle, declared_words_stand_in_text, numbers_are_read, order_is_total,
    same_is_an_equivalence, truth_is_of_a_run, written_numbers_read_back,
};
pub use walks::{
    index_lists_are_sorted, unions_are_exact, walks_are_filters, walks_depend_on_cells,
};
