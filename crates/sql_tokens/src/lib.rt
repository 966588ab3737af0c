//! Cuts a text into tokens, and says what each token means.
#![tactic(auto)]

mod characters;
mod cut;
mod number_values;
mod numbers;
mod pieces;
mod quotes;
mod runs;
mod symbols;
mod terminal;
mod token;
mod values;

pub use cut::lex;
pub use number_values::{Number, signed_number, token_number};
pub use numbers::MOST_PARAMETERS;
pub use symbols::{Symbol, find_symbol};
pub use terminal::{Terminal, terminal_at, token_text};
pub use token::{Token, TokenKind, Tokens};
pub use values::token_value;
