//! Statements: SELECT, UPDATE and DELETE (lang_select, lang_update, lang_delete).
use crate::Expr;

/// A table of FROM, or the one that is changed.
#[derive(Clone, Copy)]
pub struct Source<'a> {
    pub table: &'a [u8],
    pub alias: Option<&'a [u8]>,
    /// Whether CROSS JOIN stands before it, which fixes its place in the join order.
    pub cross: bool,
    /// Whether LEFT JOIN stands before it, which keeps the rows before it that have no partner.
    pub left: bool,
    pub on: Option<&'a Expr<'a>>,
}

/// An entry of the result list.
#[derive(Clone, Copy)]
pub enum Item<'a> {
    /// `*`
    Star,
    /// `table.*`
    TableStar(&'a [u8]),
    /// An expression, with its alias.
    Value(&'a Expr<'a>, Option<&'a [u8]>),
}

/// A key of ORDER BY.
#[derive(Clone, Copy)]
pub struct Key<'a> {
    pub expr: &'a Expr<'a>,
    pub desc: bool,
}

/// A number of rows, for LIMIT and OFFSET.
#[derive(Clone, Copy)]
pub enum Cut {
    Count(i64),
    Param(u32),
}

/// A SELECT. The slices are in the order in which they are written.
#[derive(Clone, Copy)]
pub struct Select<'a> {
    pub items: &'a [Item<'a>],
    pub sources: &'a [Source<'a>],
    pub filter: Option<&'a Expr<'a>>,
    pub keys: &'a [Key<'a>],
    pub limit: Option<Cut>,
    pub offset: Option<Cut>,
}

/// An UPDATE: each column that it sets, with its new value.
#[derive(Clone, Copy)]
pub struct Update<'a> {
    pub source: Source<'a>,
    pub sets: &'a [(&'a [u8], &'a Expr<'a>)],
    pub filter: Option<&'a Expr<'a>>,
}

/// A DELETE.
#[derive(Clone, Copy)]
pub struct Delete<'a> {
    pub source: Source<'a>,
    pub filter: Option<&'a Expr<'a>>,
}

/// A statement.
#[derive(Clone, Copy)]
pub enum Stmt<'a> {
    Select(Select<'a>),
    Update(Update<'a>),
    Delete(Delete<'a>),
}
