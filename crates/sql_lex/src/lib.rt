//! The statements of a text, and what bars a statement from being read.
#![tactic(auto)]

mod constructs;
mod contexts;
mod depth;
mod first_construct;
mod looks;
mod patterns;
mod row_values;
mod statement_runs;

pub use constructs::{Foreign, foreign_name};
pub use depth::too_deep;
pub use first_construct::foreign;
pub use sql_tokens::{
    Symbol, Terminal, Token, TokenKind, Tokens, lex, terminal_at, token_text, token_value,
};
pub use statement_runs::{Span, Spans, run_tokens, statements};
