//! Expressions as they are written, before names are looked up.
//!
//! An expression borrows its names from the statement's text or from the arena, and its parts from
//! the arena, so it is copied as a few words. Parentheses leave no trace in it.

/// A constant as it is written: datatype3's storage classes, with decimals in place of floats.
#[derive(Clone, Copy)]
pub enum Lit<'a> {
    Null,
    Int(i64),
    /// In units of 1/10000.
    Dec(i64),
    Text(&'a [u8]),
    Blob(&'a [u8]),
}

/// A comparison: `=`, `<>`, `<`, `<=`, `>`, `>=`.
#[derive(Clone, Copy, Debug)]
pub enum Op {
    Eq,
    Ne,
    Lt,
    Le,
    Gt,
    Ge,
}

/// An expression of lang_expr, as far as this profile goes. A flag is true for the form with NOT.
#[derive(Clone, Copy)]
#[cycle(expr)]
pub enum Expr<'a> {
    Lit(Lit<'a>),
    /// A parameter by its number, from 1 on.
    Param(u32),
    /// A column, with its table where that is written.
    Name(Option<&'a [u8]>, &'a [u8]),
    Plus(&'a Expr<'a>),
    Collate(&'a Expr<'a>, &'a [u8]),
    Cmp(Op, &'a Expr<'a>, &'a Expr<'a>),
    /// The expression, its lower and its upper bound.
    Between(bool, &'a Expr<'a>, &'a Expr<'a>, &'a Expr<'a>),
    /// LIKE with its left side and the pattern.
    Like(bool, &'a Expr<'a>, &'a Expr<'a>),
    /// IN with the entries of its list.
    OneOf(bool, &'a Expr<'a>, Exprs<'a>),
    IsNull(bool, &'a Expr<'a>),
    Not(&'a Expr<'a>),
    /// Two or more members joined by AND.
    All(Exprs<'a>),
    /// Two or more members joined by OR.
    Any(Exprs<'a>),
}

/// The members of an expression, in the order in which they are written.
///
/// The slice stands in a struct of its own because an enum may not hold a slice of references to
/// its own recursion.
#[derive(Clone, Copy)]
#[cycle(expr)]
pub struct Exprs<'a> {
    pub members: &'a [&'a Expr<'a>],
}
