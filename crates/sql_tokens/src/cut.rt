//! Cuts a text into its tokens.
ghost use Rattle.std.specs.Prelude.{◌≡◌, ℕ, ◌+◌, ◌<◌, ◌≤◌, ◌^◌, ◌++◌, length, All, IfOk};
ghost use Rattle.sql_tokens.specs.Tokens.{tokens_of_piece, tokens_of, IsWithin, IsInOrder};

use crate::pieces::{Piece, front_piece};
use crate::runs::rest_from;
use crate::token::{Token, Tokens};
use sql_value::Memory;
use std::alloc::Global;

/// Adds the token that a piece at this place is, if it is one.
fn push_piece(tokens: &mut Tokens, piece: Piece, start: usize) -> Result<(), Memory>
    requires { start + piece.len < 2 ^ 32 }
    ensures same { IfOk result (λ _. tokens.new ≡ tokens.old ++ tokens_of_piece piece start) }
    ensures within { (n : ℕ) → start + piece.len ≤ n → All (IsWithin n) tokens.old
        → IfOk result (λ _. All (IsWithin n) tokens.new) }
{
    match piece.kind {
        Some(kind) => tokens.push(Token {
            kind,
            start: start as u32,
            end: (start + piece.len) as u32,
        }),
        None => Ok(()),
    }
}

/// The tokens of a text, from left to right. At each place the first form that fits takes the
/// longest run that it allows; spaces and comments between tokens are left out. Every text has
/// tokens: what is none of the language is a bad one. One pass, 12 bytes a token.
///
/// <https://www.sqlite.org/lang_expr.html#literal_values_constants_> and
/// <https://www.sqlite.org/lang_comment.html> have the forms of SQLite.
pub fn lex(alloc: Global, text: &[u8]) -> Result<Tokens, Memory>
    requires { length text.now < 2 ^ 32 }
    ensures same { IfOk result (λ tokens. tokens ≡ tokens_of text.now) }
    ensures within { IfOk result (All (IsWithin (length text.now))) }
    ensures in_order { IfOk result (IsInOrder 0 (length text.now)) }
{
    let mut tokens = Tokens::new(alloc);
    let mut start = 0;
    while start < text.len() {
        let piece = front_piece(rest_from(text, start));
        push_piece(&mut tokens, piece, start)?;
        start += piece.len;
    }
    Ok(tokens)
}
