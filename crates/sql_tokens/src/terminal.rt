//! What the grammar sees of a token: its kind, its keyword, its symbol.
ghost use Rattle.std.specs.Prelude.{◌≡◌};
ghost use Rattle.sql_tokens.specs.Terminals.{text_of, terminal_of};

use crate::symbols::{Symbol, find_symbol};
use crate::token::{Token, TokenKind};
use sql_value::{Keyword, find_keyword};

/// What the grammar sees of a token: all but the value of a name, a number and the like.
#[derive(Clone, Copy, Debug)]
pub enum Terminal {
    /// A word that the language gives a meaning somewhere; also a name, where it isn't reserved.
    Keyword(Keyword),
    /// Any other word: a name.
    Word,
    /// A name in quotes.
    Quoted,
    /// A text in single quotes.
    Text,
    /// A blob.
    Blob,
    /// A number.
    Number,
    /// A parameter.
    Parameter,
    /// Punctuation or an operator.
    Symbol(Symbol),
    /// What is no token of the language.
    Bad,
}

/// The bytes of a token. A token that doesn't lie within the text has none.
#[tactic(auto, unfolding(crate::specs::Terminals::text_of))]
pub fn token_text(text: &[u8], token: Token) -> &[u8]
    ensures { result.now ≡ text_of text.now token }
{
    let (start, end) = (token.start as usize, token.end as usize);
    if start <= end && end <= text.len() {
        &text[start..end]
    } else {
        &[]
    }
}

/// What the grammar sees of a token.
#[tactic(auto, unfolding(crate::specs::Terminals::terminal_of))]
pub fn terminal_at(text: &[u8], token: Token) -> Terminal
    ensures { result ≡ terminal_of text.now token }
{
    match token.kind {
        TokenKind::Word => match find_keyword(token_text(text, token)) {
            Some(keyword) => Terminal::Keyword(keyword),
            None => Terminal::Word,
        },
        TokenKind::Quoted => Terminal::Quoted,
        TokenKind::Text => Terminal::Text,
        TokenKind::Blob => Terminal::Blob,
        TokenKind::Number => Terminal::Number,
        TokenKind::Parameter => Terminal::Parameter,
        TokenKind::Symbol => match find_symbol(token_text(text, token)) {
            Some(symbol) => Terminal::Symbol(symbol),
            None => Terminal::Bad,
        },
        TokenKind::Bad => Terminal::Bad,
    }
}
