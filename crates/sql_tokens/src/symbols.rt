//! Symbols by what they mean.
ghost use Rattle.std.specs.Prelude.{◌≡◌};
ghost use Rattle.sql_tokens.specs.Symbols.{symbol_of, one_byte_symbol, two_byte_symbol};

/// Punctuation and operators (<https://www.sqlite.org/lang_expr.html>). `<>` and `!=` are one
/// symbol.
#[derive(Clone, Copy, Debug, PartialEq, Eq)]
pub enum Symbol {
    /// `(`
    OpenParenthesis,
    /// `)`
    CloseParenthesis,
    /// `,`
    Comma,
    /// `;`
    Semicolon,
    /// `.`
    Point,
    /// `+`
    Plus,
    /// `-`
    Minus,
    /// `*`
    Star,
    /// `/`
    Slash,
    /// `%`
    Percent,
    /// `=`
    Equal,
    /// `==`, which compares as `=` does, but sets no column
    DoubleEqual,
    /// `<>` or `!=`
    NotEqual,
    /// `<`
    Less,
    /// `<=`
    AtMost,
    /// `>`
    Greater,
    /// `>=`
    AtLeast,
    /// `||`
    Concatenation,
    /// `|`
    BitOr,
    /// `&`
    BitAnd,
    /// `<<`
    ShiftLeft,
    /// `>>`
    ShiftRight,
    /// `~`
    BitNot,
    /// `->`
    Arrow,
    /// `->>`
    LongArrow,
}

#[tactic(auto, unfolding(crate::specs::Symbols::one_byte_symbol))]
fn one_byte_symbol(byte: u8) -> Option<Symbol>
    ensures { result ≡ one_byte_symbol byte }
{
    match byte {
        b'(' => Some(Symbol::OpenParenthesis),
        b')' => Some(Symbol::CloseParenthesis),
        b',' => Some(Symbol::Comma),
        b';' => Some(Symbol::Semicolon),
        b'.' => Some(Symbol::Point),
        b'+' => Some(Symbol::Plus),
        b'-' => Some(Symbol::Minus),
        b'*' => Some(Symbol::Star),
        b'/' => Some(Symbol::Slash),
        b'%' => Some(Symbol::Percent),
        b'=' => Some(Symbol::Equal),
        b'<' => Some(Symbol::Less),
        b'>' => Some(Symbol::Greater),
        b'|' => Some(Symbol::BitOr),
        b'&' => Some(Symbol::BitAnd),
        b'~' => Some(Symbol::BitNot),
        _ => None,
    }
}

#[tactic(auto, unfolding(crate::specs::Symbols::two_byte_symbol))]
fn two_byte_symbol(first: u8, second: u8) -> Option<Symbol>
    ensures { result ≡ two_byte_symbol first second }
{
    match (first, second) {
        (b'=', b'=') => Some(Symbol::DoubleEqual),
        (b'<', b'>') | (b'!', b'=') => Some(Symbol::NotEqual),
        (b'<', b'=') => Some(Symbol::AtMost),
        (b'>', b'=') => Some(Symbol::AtLeast),
        (b'|', b'|') => Some(Symbol::Concatenation),
        (b'<', b'<') => Some(Symbol::ShiftLeft),
        (b'>', b'>') => Some(Symbol::ShiftRight),
        (b'-', b'>') => Some(Symbol::Arrow),
        _ => None,
    }
}

/// The symbol that these bytes write; `None` where they write none.
#[tactic(auto, unfolding(crate::specs::Symbols::symbol_of))]
pub fn find_symbol(bytes: &[u8]) -> Option<Symbol>
    ensures { result ≡ symbol_of bytes.now }
{
    match bytes {
        [byte] => one_byte_symbol(*byte),
        [first, second] => two_byte_symbol(*first, *second),
        [b'-', b'>', b'>'] => Some(Symbol::LongArrow),
        _ => None,
    }
}
