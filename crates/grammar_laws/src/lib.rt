//! Laws of the grammar: what a statement that it spells can't hold. Nothing runs here.
#![tactic(auto)]

mod laws;
mod levels;

pub use laws::{spelled_runs_are_known, spelled_runs_are_refused_for_depth_alone};
pub use levels::levels_split_at_one_place;
