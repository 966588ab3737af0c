//! The prefixes of plans that are nearest (<https://sqlite.org/queryplanner-ng.html>, "N nearest
//! neighbors").
//!
//! What is chosen is defined in `plan_choice`, over sorted lists of all prefixes that are one loop
//! longer. Here a prefix is a chain in an arena, which shares its beginning with others and costs
//! one step to extend; and prefixes are kept one by one as they come, so that no such list is made.
#![tactic(auto)]

mod coming;
mod comparing;
mod entering;
mod extending;
mod growing;
mod item_offers;
mod keeping;
mod level;
mod outside;
mod prefix;
mod written;

pub use coming::may_come;
pub use extending::extended;
pub use item_offers::offers_behind;
pub use keeping::kept_one_by_one;
pub use level::{Level, first_level, nearest, next_level};
pub use prefix::Prefix;
pub use written::written_prefix;
