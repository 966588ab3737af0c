//! What a token is to a schema.
ghost use Rattle.std.specs.Prelude.{◌≡◌};
ghost use Rattle.schema_text.specs.Words as meant;

use sql_tokens::{Token, TokenKind, token_text};
use sql_value::is_same_word;

/// Whether a token is this word, unquoted, whatever the case of its letters.
pub fn is_word(text: &[u8], word: &[u8], token: Token) -> bool
    ensures { result ≡ meant.is_word text.now word.now token }
{
    match token.kind {
        TokenKind::Word => is_same_word(token_text(text, token), word),
        _ => false,
    }
}

/// Whether a token is this symbol of one byte.
pub fn is_mark(text: &[u8], mark: u8, token: Token) -> bool
    ensures { result ≡ meant.is_mark text.now mark token }
{
    match token.kind {
        TokenKind::Symbol => is_only(mark, token_text(text, token)),
        _ => false,
    }
}

fn is_only(byte: u8, bytes: &[u8]) -> bool
    ensures { result ≡ meant.is_only byte bytes.now }
{
    match bytes {
        [only] => *only == byte,
        _ => false,
    }
}

/// Whether a token may be a name. In a schema a word may be, also a reserved one, and so may a
/// quoted name and a text.
pub fn is_name(token: Token) -> bool
    ensures { result ≡ meant.is_name token }
{
    match token.kind {
        TokenKind::Word | TokenKind::Quoted | TokenKind::Text => true,
        _ => false,
    }
}
