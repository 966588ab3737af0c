//! The keys that rows are looked up by.
use crate::BExpr;
use sql_value::Affinity;

/// An expression that a row is looked up by, with what is applied to its value.
#[derive(Clone, Copy)]
pub struct KeyExpr<'a> {
    pub expr: &'a BExpr<'a>,
    pub conv: Option<Affinity>,
}

/// Keys that a column is compared with, one after another.
///
/// The slice stands in a struct of its own because an enum may not hold a slice of references.
#[derive(Clone, Copy)]
pub struct Keys<'a> {
    pub keys: &'a [KeyExpr<'a>],
}
