//! What the text of a token means.
ghost use Rattle.std.specs.Prelude.{◌≡◌, ◌<◌, IfOk};
ghost use Rattle.sql_tokens.specs.TokenValues.{undoubled, hex_digit, hex_bytes};
ghost use Rattle.sql_tokens.specs.TokenValues.{quoted_value, blob_value, value_of};

use crate::terminal::token_text;
use crate::token::{Token, TokenKind};
use sql_value::{Bytes, Memory};
use std::alloc::Global;

/// The bytes inside a quoted form, with each doubled quote made single.
fn undoubled(alloc: Global, quote: u8, inside: &[u8]) -> Result<Bytes, Memory>
    ensures { IfOk result (λ value. value ≡ undoubled quote inside.now) }
{
    let mut value = Bytes::new(alloc);
    let mut behind_quote = false;
    for byte in inside {
        if behind_quote && *byte == quote {
            behind_quote = false;
        } else {
            value.push(*byte)?;
            behind_quote = *byte == quote;
        }
    }
    Ok(value)
}

/// What a hexadecimal digit stands for; 0 for any other byte.
#[tactic(auto, unfolding(crate::specs::TokenValues::hex_digit))]
fn hex_digit(byte: u8) -> u8
    ensures small { result < 16 }
    ensures same { result ≡ hex_digit byte }
{
    match byte {
        b'0'..=b'9' => byte - b'0',
        b'a'..=b'f' => byte - 87,
        b'A'..=b'F' => byte - 55,
        _ => 0,
    }
}

/// The bytes that pairs of hexadecimal digits write.
fn hex_bytes(alloc: Global, digits: &[u8]) -> Result<Bytes, Memory>
    ensures { IfOk result (λ bytes. bytes ≡ hex_bytes digits.now) }
{
    let mut bytes = Bytes::new(alloc);
    let mut high = None;
    for digit in digits {
        let low = hex_digit(*digit);
        match high {
            None => high = Some(low),
            Some(upper) => {
                bytes.push(16 * upper + low)?;
                high = None;
            }
        }
    }
    Ok(bytes)
}

/// The value of a quoted form: its inside, where a doubled quote stands for one. Nothing is
/// doubled in brackets.
#[tactic(auto, unfolding(crate::specs::TokenValues::quoted_value))]
fn quoted_value(alloc: Global, bytes: &[u8]) -> Result<Bytes, Memory>
    ensures { IfOk result (λ value. value ≡ quoted_value bytes.now) }
{
    match bytes {
        [b'[', inside @ .., _] => Bytes::copy(alloc, inside),
        [quote, inside @ .., _] => undoubled(alloc, *quote, inside),
        _ => Ok(Bytes::new(alloc)),
    }
}

/// The value of a blob: the bytes that the digits between its quotes write.
#[tactic(auto, unfolding(crate::specs::TokenValues::blob_value))]
fn blob_value(alloc: Global, bytes: &[u8]) -> Result<Bytes, Memory>
    ensures { IfOk result (λ value. value ≡ blob_value bytes.now) }
{
    match bytes {
        [_, _, digits @ .., _] => hex_bytes(alloc, digits),
        _ => Ok(Bytes::new(alloc)),
    }
}

/// What the text of a token means: the value of a text, of a quoted name or of a blob, and the
/// bytes as they stand of any other token, such as a name that isn't quoted.
///
/// <https://www.sqlite.org/lang_keywords.html> and
/// <https://www.sqlite.org/lang_expr.html#literal_values_constants_>
#[tactic(auto, unfolding(crate::specs::TokenValues::value_of))]
pub fn token_value(alloc: Global, text: &[u8], token: Token) -> Result<Bytes, Memory>
    ensures { IfOk result (λ value. value ≡ value_of text.now token) }
{
    let bytes = token_text(text, token);
    match token.kind {
        TokenKind::Quoted | TokenKind::Text => quoted_value(alloc, bytes),
        TokenKind::Blob => blob_value(alloc, bytes),
        TokenKind::Word
        | TokenKind::Number
        | TokenKind::Parameter
        | TokenKind::Symbol
        | TokenKind::Bad => Bytes::copy(alloc, bytes),
    }
}
