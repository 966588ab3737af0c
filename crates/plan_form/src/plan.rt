//! Plans: nested loops over paths (<https://sqlite.org/eqp.html>, section 1.2).
use crate::Path;
use sql_bound::Bound;

/// A loop over the rows of one item of FROM.
#[derive(Clone, Copy)]
pub struct Loop<'p> {
    pub item: u32,
    pub path: &'p Path<'p>,
    /// Whether the path is walked backward.
    pub reverse: bool,
    /// The numbers of the conjuncts that the path makes true, which aren't tested again.
    pub consumed: &'p [u32],
}

/// The loops of a statement, the outermost first.
#[derive(Clone, Copy)]
pub struct Plan<'p> {
    pub bound: &'p Bound<'p>,
    pub loops: &'p [Loop<'p>],
    /// Whether a sort by the keys of ORDER BY follows.
    pub sort: bool,
}
