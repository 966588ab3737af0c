//! The rows of a path, for given rows of the items placed before.
ghost use Rattle.std.specs.Prelude.{◌≡◌, ◌++◌, ◌≤◌, List, [], ◌∷◌, cond, not, reverse, map, length, IfOk, OnOk};
ghost use Rattle.std.specs.List.{AllByRecursion};
ghost use Rattle.std.specs.Ordering.{int_eq};
ghost use Rattle.indexmap.specs.IndexSet.{contains, insert_key};
ghost use Rattle.list_laws.specs.FirstComing.{keep_first};
ghost use Rattle.sql_meaning.specs.Paths as meant;
ghost use Rattle.sql_meaning.specs.Plans.{directed_walk};
ghost use Rattle.sql_meaning.specs.Rows as plain;
ghost use Rattle.sql_meaning.specs.Schemas as schemas;
ghost use Rattle.sql_meaning.specs.Walks as walks;
ghost use Rattle.schema_model.specs.PlainSchemas.{plain_database, plain_row};
ghost use Rattle.sql_eval.specs.Environments.{assignment_of, params_of};
ghost use Rattle.index_lists.specs.Lent.{lent_rows};
ghost use Rattle.path_walks.specs.Columns.{plain_sort_column};
ghost use Rattle.plan_form.specs.LoopRows.{branch_rows, kept_rows};
ghost use Rattle.plan_form.specs.Paths.{path_of};
ghost use Rattle.plan_form.specs.Plans.{loop_of};
ghost use Rattle.plan_form.specs.Seeks.{FormGives, keys_form, lent_paths, walked_paths};
ghost use Rattle.plan_form.specs.SortedLists.{AreListsOf, AreSearchable, IsSearchable};

use crate::keys::seek_values;
use crate::lists::{SortedList, list_at, path_at};
use crate::path::Path;
use crate::plan::Loop;
use indexmap::IndexSet;
use path_walks::seek;
use schema_model::Row;
use sql_eval::Env;
use sql_value::{Memory, push};
use std::alloc::Global;

/// The paths that a loop walks in turn: the branches of a union, or its path.
#[tactic(auto, using(crate::proofs::PathViews::seen_paths))]
pub(crate) fn walked_paths<'l, 'p>(each: &'l Loop<'p>) -> &'l [&'p Path<'p>]
    ensures { lent_paths result.now ≡ walked_paths (loop_of each.now).path }
{
    match each.path {
        Path::Union(paths) => paths.branches,
        _ => std::slice::from_ref(&each.path),
    }
}

#[tactic(auto, using(crate::proofs::PathViews::seen_paths))]
fn is_union(path: &Path) -> bool
    ensures { result ≡ meant.is_union (path_of path.now) }
{
    matches!(path, Path::Union(_))
}

/// The rows that a path which is no union gives of its list.
fn seek_along<'t>(
    alloc: Global,
    path: &Path,
    list: &SortedList<'t>,
    env: &Env,
) -> Result<Vec<&'t Row>, Memory>
    requires gives { FormGives (plain_database env.now.tables.now)
        env.now.places.now (keys_form (path_of path.now)) }
    requires searchable { IsSearchable (path_of path.now) list.now }
    ensures { IfOk result (λ rows. lent_rows rows.items
        ≡ walks.seek (map plain_sort_column list.now.columns.items)
        (map (meant.part_value (assignment_of env.now) (params_of env.now))
        (keys_form (path_of path.now)).eqs)
        (meant.end_value (assignment_of env.now) (params_of env.now)
        (keys_form (path_of path.now)).low)
        (meant.end_value (assignment_of env.now) (params_of env.now)
        (keys_form (path_of path.now)).high)
        (lent_rows list.now.rows.items)) }
{
    let values = seek_values(alloc, path, env)?;
    let rows = seek(
        alloc,
        list.columns.as_slice(),
        values.parts.as_slice(),
        values.low.as_ref(),
        values.high.as_ref(),
        list.rows.as_slice(),
    )?;
    Ok(rows)
}

fn append_rows<'t>(list: &mut Vec<&'t Row>, rows: &[&'t Row]) -> Result<(), Memory>
    ensures { OnOk result (lent_rows list.new.items ≡ lent_rows list.old.items
        ++ lent_rows rows.now) }
{
    for row in rows {
        push(list, *row)?;
    }
    Ok(())
}

/// The rows of each path in turn, each along its own list.
fn rows_of_paths<'p, 't>(
    alloc: Global,
    paths: &[&'p Path<'p>],
    lists: &[SortedList<'t>],
    env: &Env,
) -> Result<Vec<&'t Row>, Memory>
    requires gives { AllByRecursion (λ path. FormGives (plain_database env.now.tables.now)
        env.now.places.now (keys_form path))
        (lent_paths paths.now) }
    requires searchable { AreSearchable (lent_paths paths.now) lists.now }
    ensures { IfOk result (λ found. (schema : schemas.Schema) → (rows : List plain.Row)
        → AreListsOf schema rows (lent_paths paths.now) lists.now
        → lent_rows found.items ≡ branch_rows schema (params_of env.now) (lent_paths paths.now) rows
        (assignment_of env.now)) }
{
    let mut found = Vec::new(alloc);
    for number in 0..paths.len() {
        let rows = seek_along(alloc, path_at(paths, number), list_at(lists, number), env)?;
        append_rows(&mut found, rows.as_slice())?;
    }
    Ok(found)
}

/// Appends a row, if it is wanted.
fn push_row_if<'t>(list: &mut Vec<&'t Row>, wanted: bool, row: &'t Row) -> Result<(), Memory>
    ensures { OnOk result (lent_rows list.new.items ≡ cond wanted
        (lent_rows list.old.items ++ plain_row row.now ∷ []) (lent_rows list.old.items)) }
{
    if wanted {
        push(list, row)?;
    }
    Ok(())
}

/// Notes the rowid of a row; whether it is new.
fn is_new(seen: &mut IndexSet<i64>, row: &Row) -> Result<bool, Memory>
    ensures new { IfOk result (λ new. new ≡ not (contains int_eq seen.old row.now.rowid)) }
    ensures keys { OnOk result (seen.new.keys ≡ insert_key int_eq seen.old.keys row.now.rowid) }
{
    let new = seen.insert(row.rowid)?;
    Ok(new)
}

/// Each row at its first coming.
fn first_comings<'t>(alloc: Global, rows: &[&'t Row]) -> Result<Vec<&'t Row>, Memory>
    ensures { IfOk result (λ kept. lent_rows kept.items
        ≡ keep_first meant.same_rowid [] (lent_rows rows.now)) }
{
    let mut seen = IndexSet::new(alloc);
    let mut kept = Vec::new(alloc);
    for row in rows {
        let new = is_new(&mut seen, row)?;
        push_row_if(&mut kept, new, row)?;
    }
    Ok(kept)
}

/// The rows, of a union each at its first coming.
fn kept<'t>(alloc: Global, union: bool, rows: Vec<&'t Row>) -> Result<Vec<&'t Row>, Memory>
    ensures { IfOk result (λ kept. lent_rows kept.items
        ≡ kept_rows union (lent_rows rows.entry.items)) }
{
    if union {
        let firsts = first_comings(alloc, rows.as_slice())?;
        return Ok(firsts);
    }
    Ok(rows)
}

#[tactic(auto, using(list_laws::proofs::Turns::map_reverse))]
fn reversed<'t>(mut rows: Vec<&'t Row>) -> Vec<&'t Row>
    ensures { lent_rows result.items ≡ reverse (lent_rows rows.entry.items) }
{
    rows.reverse();
    rows
}

fn directed<'t>(backward: bool, rows: Vec<&'t Row>) -> Vec<&'t Row>
    ensures { lent_rows result.items ≡ directed_walk backward (lent_rows rows.entry.items) }
{
    if backward {
        return reversed(rows);
    }
    rows
}

/// The rows of a loop's path, along the lists of its branches, in the loop's direction: of a union
/// each at its first coming.
pub(crate) fn directed_rows<'t>(
    alloc: Global,
    each: &Loop,
    lists: &[SortedList<'t>],
    env: &Env,
) -> Result<Vec<&'t Row>, Memory>
    requires gives { AllByRecursion (λ path. FormGives (plain_database env.now.tables.now)
        env.now.places.now (keys_form path))
        (walked_paths (loop_of each.now).path) }
    requires searchable { AreSearchable (walked_paths (loop_of each.now).path) lists.now }
    ensures { IfOk result (λ found. (schema : schemas.Schema) → (rows : List plain.Row)
        → AreListsOf schema rows (walked_paths (loop_of each.now).path) lists.now
        → lent_rows found.items ≡ directed_walk each.now.reverse
        (kept_rows (meant.is_union (loop_of each.now).path)
        (branch_rows schema (params_of env.now) (walked_paths (loop_of each.now).path) rows
        (assignment_of env.now)))) }
{
    let rows = rows_of_paths(alloc, walked_paths(each), lists, env)?;
    let kept = kept(alloc, is_union(each.path), rows)?;
    Ok(directed(each.reverse, kept))
}
