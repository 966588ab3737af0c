//! Laws of tokens, each on a function that does nothing: what forms they have, apart from how
//! they are read.
#![tactic(auto)]

mod cuts;
mod kinds;
mod table;
mod values;

pub use cuts::{each_byte_lies_in_one_piece, tokens_are_those_of_the_cut};
pub use kinds::pieces_have_the_form_of_their_kind;
pub use table::{bad_tokens_went_wrong_in_one_way, the_first_rule_that_fits_is_the_piece};
pub use values::quoted_texts_mean_what_was_written;
