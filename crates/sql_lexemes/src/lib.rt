//! What tokens mean to the grammar: each as a lexeme, with the numbers of parameters.
#![tactic(auto)]

mod parameters;
mod token_lexemes;

pub use token_lexemes::lexemes;
