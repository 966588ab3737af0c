//! LIKE of <https://sqlite.org/lang_expr.html>, and the range of texts that a pattern allows, as in
//! <https://sqlite.org/optoverview.html>.
#![tactic(auto)]

mod bounds;
mod matching;

pub use bounds::{Range, like_bounds};
pub use matching::like;
