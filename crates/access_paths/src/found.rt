//! Seeks: paths with the conjuncts that they make true.
ghost use Rattle.std.specs.Prelude.{◌≡◌, IfOk, map, option_map};
ghost use Rattle.sql_meaning.specs.Choices as meant;
ghost use Rattle.plan_form.specs.Paths.{part_of as seen_part, parts_of as seen_parts};
ghost use Rattle.plan_form.specs.Paths.{edge_of as seen_edge};
ghost use Rattle.where_terms.specs.Views.{term_of};
ghost use Rattle.access_paths.specs.Supplies.{lent_term, lent_terms};
ghost use Rattle.access_paths.specs.Seeks.{seen_seek, path_by};

use crate::consumed::consumed_by;
use bumpalo::Bump;
use bumpalo::collections::into_bump_slice;
use plan_form::{Edge, EqPart, EqParts, Path};
use sql_tree::place;
use sql_value::{Memory, push};
use std::alloc::Global;
use where_terms::{Term, TermKind};

/// A seek.
#[derive(Clone, Copy)]
pub(crate) struct Found<'p> {
    pub path: &'p Path<'p>,
    /// The conjuncts that the path makes true, rising.
    pub consumed: &'p [u32],
}

/// What an equality term says that its column equals.
pub(crate) fn part_of<'p>(term: &Term<'p>) -> EqPart<'p>
    ensures { seen_part result ≡ meant.part_or (term_of term.now).kind }
{
    match term.kind {
        TermKind::Equal(key) => EqPart::One(key),
        TermKind::OneOf(keys) => EqPart::Many(keys),
        TermKind::IsNull => EqPart::Null,
        TermKind::Low(..) => EqPart::Null,
        TermKind::High(..) => EqPart::Null,
    }
}

/// The parts of equality terms.
pub(crate) fn parts_of<'p>(arena: &'p Bump, terms: &[&Term<'p>]) -> Result<EqParts<'p>, Memory>
    ensures { IfOk result (λ parts. seen_parts parts
        ≡ map (λ t. meant.part_or t.kind) (lent_terms terms.now)) }
{
    let mut parts: Vec<&'p EqPart<'p>, &'p Bump> = Vec::new(arena);
    for term in terms {
        let part = place(arena, part_of(term))?;
        push(&mut parts, part)?;
    }
    Ok(EqParts {
        parts: into_bump_slice(parts),
    })
}

fn edge_of_term<'p>(term: &Term<'p>) -> Option<Edge<'p>>
    ensures { option_map seen_edge result ≡ meant.edge_or (term_of term.now).kind }
{
    match term.kind {
        TermKind::Low(key, inclusive) => Some(Edge { key, inclusive }),
        TermKind::High(key, inclusive) => Some(Edge { key, inclusive }),
        TermKind::Equal(_) => None,
        TermKind::OneOf(_) => None,
        TermKind::IsNull => None,
    }
}

/// The end of a range that a bound is.
pub(crate) fn edge_of<'p>(term: Option<&Term<'p>>) -> Option<Edge<'p>>
    ensures { option_map seen_edge result ≡ meant.edge_of (lent_term term.entry) }
{
    edge_of_term(term?)
}

/// The path with the conjuncts of the terms that it uses.
pub(crate) fn found_by<'p>(
    alloc: Global,
    arena: &'p Bump,
    path: Path<'p>,
    used: &[&Term],
) -> Result<Found<'p>, Memory>
    ensures { IfOk result (λ found. seen_seek found ≡ path_by path.entry (lent_terms used.now)) }
{
    Ok(Found {
        path: place(arena, path)?,
        consumed: consumed_by(alloc, arena, used)?,
    })
}
