//! Tokens: what kind each is, and where it stands.
use sql_value::Items;

/// What a token is.
#[derive(Clone, Copy, Debug, PartialEq, Eq)]
pub enum TokenKind {
    /// A keyword or a name: letters, digits, `_`, `$` and bytes from 0x80.
    Word,
    /// A name in double quotes, backquotes or brackets.
    Quoted,
    /// A text in single quotes.
    Text,
    /// A blob: `x` before hexadecimal digits in single quotes.
    Blob,
    /// A number, whole, with a point, with an exponent or hexadecimal.
    Number,
    /// A parameter: `?`, `?` and digits, or a name behind `:`, `@` or `$`.
    Parameter,
    /// Punctuation or an operator.
    Symbol,
    /// What is no token of the language, such as a quote that nothing closes.
    Bad,
}

/// A token: its kind, and the bytes of the text from `start` up to `end`.
#[derive(Clone, Copy, Debug, PartialEq, Eq)]
pub struct Token {
    pub kind: TokenKind,
    pub start: u32,
    pub end: u32,
}

/// Tokens in the order of the text.
pub type Tokens = Items<Token>;
