//! Which terms a seek takes along the columns of an index.
ghost use Rattle.std.specs.Prelude.{◌≡◌, ◌≤◌, ◌++◌, ◌∷◌, [], IfOk, OnOk, map, length, drop};
ghost use Rattle.sql_meaning.specs.Choices as meant;
ghost use Rattle.schema_model.specs.PlainSchemas.{plain_index_column};
ghost use Rattle.where_terms.specs.Views.{term_of};
ghost use Rattle.access_paths.specs.Placed.{items_in};
ghost use Rattle.access_paths.specs.Fitting.{bounds_at, behind_equals};
ghost use Rattle.access_paths.specs.Supplies.{supplied, AreReady, lent_term, lent_terms};
ghost use Rattle.access_paths.specs.Taking.{taken_of};

use crate::fitting::seek_column;
use crate::supply::{Bounds, Supply, bounds_of, equal_term};
use schema_model::IndexColumn;
use sql_value::{Memory, push};
use std::alloc::Global;
use where_terms::Term;

/// The terms that a seek takes: an equality for each of an index's first columns, and the bounds of
/// the next.
#[derive(Drop)]
pub(crate) struct Taken<'p> {
    pub equals: Vec<&'p Term<'p>>,
    pub bounds: Bounds<'p>,
}

pub(crate) fn push_term<'p>(terms: &mut Vec<&'p Term<'p>>, term: &'p Term<'p>) -> Result<(), Memory>
    ensures { OnOk result (lent_terms terms.new.items
        ≡ lent_terms terms.old.items ++ term_of term.now ∷ []) }
{
    push(terms, term)
}

/// For each column, from the first on, its first equality term that fits, until one has none.
fn equal_terms<'p>(
    alloc: Global,
    supply: &Supply<'p>,
    columns: &[IndexColumn],
) -> Result<Vec<&'p Term<'p>>, Memory>
    requires { AreReady supply.now.columns.now }
    ensures within { IfOk result (λ equals. length equals.items ≤ length columns.now) }
    ensures taken { IfOk result (λ equals.
        meant.seek_terms (items_in supply.now.placed) supply.now.alias (supplied supply.now)
        (map plain_index_column columns.now)
        ≡ behind_equals (lent_terms equals.items)
        (bounds_at (items_in supply.now.placed) supply.now.alias (supplied supply.now)
        (map plain_index_column (drop (length equals.items) columns.now)))) }
{
    let mut equals: Vec<&'p Term<'p>> = Vec::new(alloc);
    for column in columns {
        let Some(term) = equal_term(supply, seek_column(supply.alias, *column)) else {
            return Ok(equals);
        };
        push_term(&mut equals, term)?;
    }
    Ok(equals)
}

/// The bounds of the first of these columns, where there is one.
fn bounds_of_first<'p>(supply: &Supply<'p>, columns: &[IndexColumn]) -> Bounds<'p>
    requires { AreReady supply.now.columns.now }
    ensures { meant.take_bounds (lent_term result.low) (lent_term result.high)
        ≡ bounds_at (items_in supply.now.placed) supply.now.alias (supplied supply.now)
        (map plain_index_column columns.now) }
{
    match columns {
        [] => Bounds {
            low: None,
            high: None,
        },
        [first, ..] => bounds_of(supply, seek_column(supply.alias, *first)),
    }
}

/// What a seek takes along these columns of an index.
pub(crate) fn take_terms<'p>(
    alloc: Global,
    supply: &Supply<'p>,
    columns: &[IndexColumn],
) -> Result<Taken<'p>, Memory>
    requires { AreReady supply.now.columns.now }
    ensures { IfOk result (λ taken. taken_of taken
        ≡ meant.seek_terms (items_in supply.now.placed) supply.now.alias (supplied supply.now)
        (map plain_index_column columns.now)) }
{
    let equals = equal_terms(alloc, supply, columns)?;
    let bounds = bounds_of_first(supply, &columns[equals.len()..]);
    Ok(Taken { equals, bounds })
}
