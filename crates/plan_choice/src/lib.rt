//! What the advisor chooses, over plain data: figures and costs, the offers of an item, the plan of
//! a statement, and the indexes that are proposed.
//!
//! The definitions are in specs/, in the order of `specs/Lib.antt`. There is no code here: each
//! public function does nothing, and its contract is a law.
#![tactic(auto)]

mod choosing;

pub use choosing::{
    advice_names_what_plans_use, chosen_paths_fit, chosen_plans_mean, costs_stay_small,
    figures_fit_their_schema, listed_offers_are_offers, names_are_free, states_and_terms_are_kept,
};
