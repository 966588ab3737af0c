//! Seeks by rowid and by an index.
ghost use Rattle.std.specs.Prelude.{◌≡◌, ◌++◌, ◌∷◌, [], IfOk, OnOk, map, option_map, false};
ghost use Rattle.sql_meaning.specs.Choices as meant;
ghost use Rattle.sql_meaning.specs.Paths as plain;
ghost use Rattle.schema_model.specs.PlainSchemas.{plain_index_column};
ghost use Rattle.plan_form.specs.Paths.{path_of};
ghost use Rattle.plan_form.specs.Plans.{covers};
ghost use Rattle.where_terms.specs.Views.{term_of};
ghost use Rattle.access_paths.specs.Placed.{items_in};
ghost use Rattle.access_paths.specs.Supplies.{supplied, AreReady, lent_term, lent_terms};
ghost use Rattle.access_paths.specs.Taking.{taken_of};
ghost use Rattle.access_paths.specs.Seeks.{seen_seek, told_seek};

use crate::fitting::ROWID;
use crate::found::{Found, edge_of, found_by, part_of, parts_of};
use crate::supply::{Bounds, Supply, bounds_of, equal_term};
use crate::taken::{Taken, take_terms};
use bumpalo::Bump;
use plan_form::Path;
use schema_model::IndexColumn;
use sql_value::{Memory, push};
use std::alloc::Global;
use where_terms::Term;

fn push_term<'p>(terms: &mut Vec<&'p Term<'p>>, term: Option<&'p Term<'p>>) -> Result<(), Memory>
    ensures { OnOk result (lent_terms terms.new.items
        ≡ lent_terms terms.old.items ++ meant.one_or_none (lent_term term.entry)) }
{
    match term {
        Some(term) => push(terms, term),
        None => Ok(()),
    }
}

/// All terms that a seek takes.
fn used_terms<'p>(taken: Taken<'p>) -> Result<Vec<&'p Term<'p>>, Memory>
    ensures { IfOk result (λ used. lent_terms used.items ≡ (taken_of taken.entry).used) }
{
    let mut used = taken.equals;
    push_term(&mut used, taken.bounds.low)?;
    push_term(&mut used, taken.bounds.high)?;
    Ok(used)
}

fn index_path<'p>(
    arena: &'p Bump,
    taken: &Taken<'p>,
    index: u32,
    covering: bool,
) -> Result<Path<'p>, Memory>
    ensures path { IfOk result (λ path. path_of path ≡ plain.IndexSeek index
        (taken_of taken.now).eqs (taken_of taken.now).low (taken_of taken.now).high) }
    ensures covering { IfOk result (λ path. covers path ≡ covering) }
{
    Ok(Path::IndexSeek {
        index,
        covering,
        eqs: parts_of(arena, taken.equals.as_slice())?,
        low: edge_of(taken.bounds.low),
        high: edge_of(taken.bounds.high),
    })
}

/// The seek in an index of these columns, where a term may be used.
pub(crate) fn index_seek<'p>(
    alloc: Global,
    arena: &'p Bump,
    supply: &Supply<'p>,
    columns: &[IndexColumn],
    index: u32,
    covering: bool,
) -> Result<Option<Found<'p>>, Memory>
    requires { AreReady supply.now.columns.now }
    ensures { IfOk result (λ found. option_map seen_seek found ≡ option_map (told_seek covering)
        (meant.seek_offer (items_in supply.now.placed) supply.now.alias (supplied supply.now)
        index (map plain_index_column columns.now))) }
{
    let taken = take_terms(alloc, supply, columns)?;
    let path = index_path(arena, &taken, index, covering)?;
    let used = used_terms(taken)?;
    if used.is_empty() {
        return Ok(None);
    }
    let found = found_by(alloc, arena, path, used.as_slice())?;
    Ok(Some(found))
}

fn rowid_equal<'p>(alloc: Global, arena: &'p Bump, term: &'p Term<'p>) -> Result<Found<'p>, Memory>
    ensures { IfOk result (λ found. seen_seek found ≡ told_seek false (record {
      path = plain.RowidEq (meant.part_or (term_of term.now).kind);
      used = term_of term.now ∷ [];
    })) }
{
    let mut used: Vec<&'p Term<'p>> = Vec::new(alloc);
    push(&mut used, term)?;
    let found = found_by(alloc, arena, Path::RowidEq(part_of(term)), used.as_slice())?;
    Ok(found)
}

fn rowid_range<'p>(
    alloc: Global,
    arena: &'p Bump,
    bounds: Bounds<'p>,
) -> Result<Option<Found<'p>>, Memory>
    ensures { IfOk result (λ found. option_map seen_seek found ≡ option_map (told_seek false)
        (meant.rowid_range (lent_term bounds.entry.low) (lent_term bounds.entry.high))) }
{
    let mut used: Vec<&'p Term<'p>> = Vec::new(alloc);
    push_term(&mut used, bounds.low)?;
    push_term(&mut used, bounds.high)?;
    if used.is_empty() {
        return Ok(None);
    }
    let path = Path::RowidRange(edge_of(bounds.low), edge_of(bounds.high));
    let found = found_by(alloc, arena, path, used.as_slice())?;
    Ok(Some(found))
}

/// The seek by rowid, where a term of the rowid may be used: by the first equality, or else by the
/// first bounds.
pub(crate) fn rowid_seek<'p>(
    alloc: Global,
    arena: &'p Bump,
    supply: &Supply<'p>,
) -> Result<Option<Found<'p>>, Memory>
    requires { AreReady supply.now.columns.now }
    ensures { IfOk result (λ found. option_map seen_seek found ≡ option_map (told_seek false)
        (meant.rowid_offer (items_in supply.now.placed) (supplied supply.now))) }
{
    if let Some(term) = equal_term(supply, ROWID) {
        let found = rowid_equal(alloc, arena, term)?;
        return Ok(Some(found));
    }
    rowid_range(alloc, arena, bounds_of(supply, ROWID))
}
