//! What terms say of their columns.
use sql_bound::{KeyExpr, Keys};

/// What a term says of its column. A bound says whether the key itself is within it.
#[derive(Clone, Copy)]
pub enum TermKind<'p> {
    /// `= key`
    Equal(KeyExpr<'p>),
    /// `IN (keys)`
    OneOf(Keys<'p>),
    IsNull,
    /// `> key`, or `>= key`
    Low(KeyExpr<'p>, bool),
    /// `< key`, or `<= key`
    High(KeyExpr<'p>, bool),
}
