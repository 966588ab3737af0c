//! Seeks: equality parts on the first columns of a sorted list, and a range of the next one.
ghost use Rattle.std.specs.Prelude.{◌≡◌, ◌≤◌, ◌++◌, length, map, OnOk, IfOk, option_map};
ghost use Rattle.std.specs.List.{AllByRecursion, flat_map};
ghost use Rattle.sql_meaning.specs.Walks as walks;
ghost use Rattle.index_lists.specs.Lent.{lent_rows};
ghost use Rattle.path_walks.specs.Columns.{plain_sort_column};
ghost use Rattle.path_walks.specs.Ends.{plain_end};
ghost use Rattle.path_walks.specs.Keys.{lent_keys};
ghost use Rattle.path_walks.specs.Ordered.{AreEntries, FollowNext};
ghost use Rattle.path_walks.specs.Parts.{plain_part};
ghost use Rattle.path_walks.specs.Seeks.{lent_lists, rows_within, seek_keys};

use crate::columns::{SortColumn, first_column};
use crate::cuts::cut_by_columns;
use crate::ends::End;
use crate::parts::{Part, keys_of_parts};
use crate::ranges::within_ends;
use schema_model::Row;
use sql_value::{Memory, Value, push};
use std::alloc::Global;

fn append_rows<'t>(list: &mut Vec<&'t Row>, rows: &[&'t Row]) -> Result<(), Memory>
    ensures { OnOk result (lent_rows list.new.items ≡ lent_rows list.old.items
        ++ lent_rows rows.now) }
{
    for row in rows {
        push(list, *row)?;
    }
    Ok(())
}

/// The rows that lie within the ends, where a column is left for these.
fn within<'s, 't>(
    column: Option<SortColumn>,
    low: Option<&End>,
    high: Option<&End>,
    rows: &'s [&'t Row],
) -> &'s [&'t Row]
    requires { FollowNext (option_map plain_sort_column column) (lent_rows rows.now) }
    ensures { lent_rows result.now
        ≡ rows_within (option_map plain_sort_column column) (plain_end low.entry)
        (plain_end high.entry) (lent_rows rows.now) }
{
    match column {
        Some(column) => within_ends(column, low, high, rows),
        None => rows,
    }
}

/// The rows of each piece that lie within the ends, one piece after another.
fn join_within<'s, 't>(
    alloc: Global,
    column: Option<SortColumn>,
    low: Option<&End>,
    high: Option<&End>,
    pieces: &[&'s [&'t Row]],
) -> Result<Vec<&'t Row>, Memory>
    requires { AllByRecursion (FollowNext (option_map plain_sort_column column))
        (lent_lists pieces.now) }
    ensures { IfOk result (λ list. lent_rows list.items
        ≡ flat_map (rows_within (option_map plain_sort_column column) (plain_end low.entry)
        (plain_end high.entry)) (lent_lists pieces.now)) }
{
    let mut list = Vec::new(alloc);
    for rows in pieces {
        append_rows(&mut list, within(column, low, high, rows))?;
    }
    Ok(list)
}

/// The rows of a sorted list that have one of the keys in each of its first columns, and lie within
/// the ends in the next one, in the order of the keys.
fn seek_by_keys<'t>(
    alloc: Global,
    columns: &[SortColumn],
    keys: &[Vec<&Value>],
    low: Option<&End>,
    high: Option<&End>,
    rows: &[&'t Row],
) -> Result<Vec<&'t Row>, Memory>
    requires few { length keys.now ≤ length columns.now }
    requires ordered { AreEntries (map plain_sort_column columns.now) (lent_rows rows.now) }
    ensures { IfOk result (λ list. lent_rows list.items
        ≡ seek_keys (map plain_sort_column columns.now) (lent_keys keys.now)
        (plain_end low.entry) (plain_end high.entry) (lent_rows rows.now)) }
{
    let pieces = cut_by_columns(alloc, columns, keys, rows)?;
    let next = first_column(&columns[keys.len()..]);
    let list = join_within(alloc, next, low, high, pieces.as_slice())?;
    Ok(list)
}

/// The rows of a list, sorted by the columns and then by rowid, that agree with each equality part,
/// and lie within the ends in the column behind the parts, in the list's order. Each stretch is
/// found by halving.
pub fn seek<'t>(
    alloc: Global,
    columns: &[SortColumn],
    parts: &[Part],
    low: Option<&End>,
    high: Option<&End>,
    rows: &[&'t Row],
) -> Result<Vec<&'t Row>, Memory>
    requires few { length parts.now ≤ length columns.now }
    requires ordered { AreEntries (map plain_sort_column columns.now) (lent_rows rows.now) }
    ensures { IfOk result (λ list. lent_rows list.items
        ≡ walks.seek (map plain_sort_column columns.now) (map plain_part parts.now)
        (plain_end low.entry) (plain_end high.entry) (lent_rows rows.now)) }
{
    let null = Value::Null;
    let keys = keys_of_parts(alloc, columns, parts, &null)?;
    let list = seek_by_keys(alloc, columns, keys.as_slice(), low, high, rows)?;
    Ok(list)
}
