//! Whether a number token is outside of what is read.
ghost use Rattle.std.specs.Prelude.{◌≡◌, false};
ghost use Rattle.sql_tokens.specs.NumberValues.{number_of};
ghost use Rattle.sql_parse.specs.Refusals.{has_value, is_outside, is_minus, number_outside_from};

use sql_tokens::{Symbol, Terminal, Token, signed_number, terminal_at, token_number, token_text};

fn has_value(negative: bool, bytes: &[u8]) -> bool
    ensures { result ≡ has_value negative (number_of bytes.now) }
{
    match token_number(bytes) {
        Some(number) => signed_number(negative, number).is_some(),
        None => false,
    }
}

#[tactic(auto, unfolding(crate::specs::Refusals::is_outside))]
fn is_outside(text: &[u8], negative: bool, token: Token) -> bool
    ensures { result ≡ is_outside text.now negative token }
{
    match terminal_at(text, token) {
        Terminal::Number => !has_value(negative, token_text(text, token)),
        _ => false,
    }
}

#[tactic(auto, unfolding(crate::specs::Refusals::is_minus))]
fn is_minus(terminal: Terminal) -> bool
    ensures { result ≡ is_minus terminal }
{
    match terminal {
        Terminal::Symbol(Symbol::Minus) => true,
        _ => false,
    }
}

/// Whether a number token stands outside of what is read. 2^63 is within directly behind `-`.
pub(crate) fn has_number_outside(text: &[u8], tokens: &[Token]) -> bool
    ensures { result ≡ number_outside_from text.now false tokens.now }
{
    let mut negative = false;
    for token in tokens {
        if is_outside(text, negative, *token) {
            return true;
        }
        negative = is_minus(terminal_at(text, *token));
    }
    false
}
