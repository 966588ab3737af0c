//! Lexemes: tokens with what they mean to the grammar.
use sql_value::Memory;

/// A word or symbol whose meaning is its spelling alone. `<>` and `!=` are one mark.
#[derive(Clone, Copy, PartialEq, Eq)]
pub enum Mark {
    Select,
    All,
    From,
    Where,
    Order,
    By,
    Limit,
    Offset,
    As,
    Inner,
    Join,
    Cross,
    Left,
    Outer,
    On,
    Update,
    Set,
    Delete,
    Or,
    And,
    Not,
    Between,
    In,
    Like,
    Is,
    Null,
    Isnull,
    Notnull,
    Collate,
    Star,
    Dot,
    Comma,
    Open,
    Close,
    Plus,
    Minus,
    Eq,
    /// `==`, which compares as `=` does, but sets no column.
    EqEq,
    Ne,
    Lt,
    Le,
    Gt,
    Ge,
}

/// What the words ASC and DESC are behind the expression of a key; elsewhere they are names.
#[derive(Clone, Copy)]
pub enum Direction {
    Asc,
    Desc,
}

/// A token, as the grammar sees it.
#[derive(Clone, Copy)]
pub enum Lexeme<'a> {
    Fixed(Mark),
    /// A name without its quotes; with a direction where it is that word.
    Name(&'a [u8], Option<Direction>),
    /// The inside of a text, each doubled quote made single.
    Text(&'a [u8]),
    /// The bytes that a blob's digits stand for.
    Blob(&'a [u8]),
    /// A number of digits alone, without sign: up to 2^63, which stands for the least i64 behind
    /// `-`.
    Int(u64),
    /// A number with a point, without sign, in units of 1/10000.
    Dec(u64),
    /// A parameter by its number.
    Param(u32),
    /// A token that stands nowhere in the grammar.
    Other,
}

/// Why reading ended without a tree.
#[derive(Clone, Copy)]
pub enum DescentFault {
    Syntax,
    Memory,
}

impl From<Memory> for DescentFault {
    ghost use Rattle.std.specs.Prelude.{◌≡◌};
    ghost use Rattle.sql_read.specs.declared.lexeme.DescentFault.TheVariants as variant;

    ghost from_gives = { λ _ fault. fault ≡ variant.Memory };

    fn from(_: Memory) -> DescentFault {
        DescentFault::Memory
    }
}
