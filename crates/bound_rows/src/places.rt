//! Places of the items of a statement: where each has a row, or none yet.
ghost use Rattle.std.specs.Prelude.{◌≡◌, ◌<◌, ◌++◌, [], ◌∷◌, cond, true, IfOk, OnOk, length};
ghost use Rattle.std.specs.Prelude.{slice_index_or};
ghost use Rattle.schema_model.specs.PlainSchemas.{plain_database, plain_rows};
ghost use Rattle.bound_rows.specs.Answers.{HasFewRows};
ghost use Rattle.bound_rows.specs.Places as meant;

use schema_model::{Row, Tables};
use sql_bound::Bound;
use sql_eval::Place;
use sql_value::{Memory, Values, push};
use std::alloc::Global;

/// What is read: the tables, and the parameters.
#[derive(Clone, Copy)]
pub struct Source<'e> {
    pub tables: &'e Tables,
    pub params: &'e Values,
}

/// Whether 32 bits number the rows of each table.
pub fn has_few_rows(tables: &Tables) -> bool
    ensures { result ≡ true → HasFewRows tables.now }
{
    for rows in tables.as_slice() {
        if rows.as_slice().len() >= 1 << 32 {
            return false;
        }
    }
    true
}

/// The rows of a table.
pub fn table_rows<'e>(source: &Source<'e>, table: u32) -> &'e [Row]
    requires { table < length source.now.tables.now }
    ensures { plain_rows result.now
        ≡ slice_index_or (plain_database source.now.tables.now) table [] }
{
    source.tables.as_slice()[table as usize].as_slice()
}

/// A place for each item, without rows.
pub fn empty_places(alloc: Global, bound: &Bound) -> Result<Vec<Place>, Memory>
    ensures { IfOk result (λ places. places.items ≡ meant.empty_places bound.now.items.now) }
{
    let mut places = Vec::new(alloc);
    for item in bound.items {
        let place = Place {
            table: item.table,
            row: None,
        };
        push(&mut places, place)?;
    }
    Ok(places)
}

/// The places, as a list of its own.
pub(crate) fn copied(alloc: Global, places: &[Place]) -> Result<Vec<Place>, Memory>
    ensures { IfOk result (λ copy. copy.items ≡ places.now) }
{
    let copy = Vec::from_slice(alloc, places)?;
    Ok(copy)
}

/// The lists of places, each lent by itself, so that a sort moves no places.
pub fn lent_places<'r>(alloc: Global, lists: &'r [Vec<Place>]) -> Result<Vec<&'r [Place]>, Memory>
    ensures { IfOk result (λ list. meant.lent list.items ≡ meant.held lists.now) }
{
    let mut lent = Vec::new(alloc);
    for places in lists {
        push(&mut lent, places.as_slice())?;
    }
    Ok(lent)
}

/// Appends one, if it is wanted.
pub(crate) fn push_if<T: Copy>(list: &mut Vec<T>, wanted: bool, item: T) -> Result<(), Memory>
    ensures { OnOk result (list.new.items ≡ cond wanted (list.old.items ++ item ∷ [])
        list.old.items) }
{
    if wanted {
        push(list, item)?;
    }
    Ok(())
}

/// Appends a copy of the places, if it is wanted.
pub(crate) fn push_copy_if(
    alloc: Global,
    lists: &mut Vec<Vec<Place>>,
    wanted: bool,
    places: &[Place],
) -> Result<(), Memory>
    ensures { OnOk result (meant.held lists.new.items
        ≡ cond wanted (meant.held lists.old.items ++ places.now ∷ [])
        (meant.held lists.old.items)) }
{
    if wanted {
        let copy = copied(alloc, places)?;
        lists.push(copy)?;
    }
    Ok(())
}
