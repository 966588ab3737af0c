//! A list cut into the stretches of keys, column by column: breadth first and so without recursion.
ghost use Rattle.std.specs.Prelude.{◌≡◌, ◌≤◌, ◌++◌, [], length, map, drop, OnOk, IfOk, Option};
ghost use Rattle.std.specs.List.{AllByRecursion, flat_map};
ghost use Rattle.sql_meaning.specs.Walks.{End, key_stretch};
ghost use Rattle.sql_value.specs.View.{plain_value};
ghost use Rattle.index_lists.specs.Lent.{lent_rows};
ghost use Rattle.path_walks.specs.Columns.{plain_sort_column};
ghost use Rattle.path_walks.specs.Keys.{lent_keys};
ghost use Rattle.path_walks.specs.Ordered.{AreEntries, FollowColumn};
ghost use Rattle.path_walks.specs.Seeks.{lent_lists, seek_keys};

use crate::columns::{SortColumn, column_at};
use crate::stretches::{Side, stretch};
use schema_model::Row;
use sql_value::{Memory, Value, push};
use std::alloc::Global;

/// The stretch of each key, one after another.
fn push_stretches<'s, 't>(
    pieces: &mut Vec<&'s [&'t Row]>,
    column: SortColumn,
    keys: &[&Value],
    rows: &'s [&'t Row],
) -> Result<(), Memory>
    requires { FollowColumn (plain_sort_column column) (lent_rows rows.now) }
    ensures { OnOk result (lent_lists pieces.new.items ≡ lent_lists pieces.old.items
        ++ map (λ key. key_stretch (plain_sort_column column) (plain_value key.now)
        (lent_rows rows.now)) keys.now) }
{
    for key in keys {
        let piece = stretch(Side::Before(column, key), Side::After(column, key), rows);
        push(pieces, piece)?;
    }
    Ok(())
}

/// Each piece of a list, cut into the stretches of the keys of a column.
fn cut_by_column<'s, 't>(
    alloc: Global,
    column: SortColumn,
    keys: &[&Value],
    pieces: &[&'s [&'t Row]],
) -> Result<Vec<&'s [&'t Row]>, Memory>
    requires { AllByRecursion (FollowColumn (plain_sort_column column)) (lent_lists pieces.now) }
    ensures { IfOk result (λ cut. lent_lists cut.items
        ≡ flat_map (λ rows. map (λ key. key_stretch (plain_sort_column column)
        (plain_value key.now) rows) keys.now) (lent_lists pieces.now)) }
{
    let mut cut = Vec::new(alloc);
    for rows in pieces {
        push_stretches(&mut cut, column, keys, rows)?;
    }
    Ok(cut)
}

/// The list, cut by the keys of each of its first columns in turn: whatever the ends are, what is
/// left of the seek goes over the pieces alone.
pub(crate) fn cut_by_columns<'s, 't>(
    alloc: Global,
    columns: &[SortColumn],
    keys: &[Vec<&Value>],
    rows: &'s [&'t Row],
) -> Result<Vec<&'s [&'t Row]>, Memory>
    requires few { length keys.now ≤ length columns.now }
    requires ordered { AreEntries (map plain_sort_column columns.now) (lent_rows rows.now) }
    ensures ordered { IfOk result (λ pieces.
        AllByRecursion (AreEntries (drop (length keys.now) (map plain_sort_column columns.now)))
        (lent_lists pieces.items)) }
    ensures pieces { IfOk result (λ pieces. (low high : Option End)
        → flat_map (seek_keys (drop (length keys.now) (map plain_sort_column columns.now)) []
        low high) (lent_lists pieces.items)
        ≡ seek_keys (map plain_sort_column columns.now) (lent_keys keys.now) low high
        (lent_rows rows.now)) }
{
    let mut pieces = Vec::new(alloc);
    push(&mut pieces, rows)?;
    for (number, list) in keys.iter().enumerate() {
        let column = column_at(columns, number);
        pieces = cut_by_column(alloc, column, list.as_slice(), pieces.as_slice())?;
    }
    Ok(pieces)
}
