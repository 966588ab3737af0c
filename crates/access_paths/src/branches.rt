//! Unions: for each branch of an OR the seek that is cheapest to run.
ghost use Rattle.std.specs.Prelude.{◌≡◌, ◌<◌, ◌++◌, ◌∷◌, [], IfOk, OnOk, IfSome, pos};
ghost use Rattle.std.specs.Prelude.{map, option_map, false};
ghost use Rattle.std.specs.List.{AllByRecursion};
ghost use Rattle.plan_choice.specs.Offers as meant;
ghost use Rattle.plan_form.specs.Paths.{path_of};
ghost use Rattle.where_terms.specs.Views.{column_terms_of, branches_of};
ghost use Rattle.access_paths.specs.Placed.{items_in};
ghost use Rattle.access_paths.specs.Supplies.{AreReady};
ghost use Rattle.access_paths.specs.Seeks.{seen_seek, told_seek, IsPlain};
ghost use Rattle.access_paths.specs.NextItems.{setting_for, IsNext};
ghost use Rattle.access_paths.specs.Branches.{seen_run, lighter_of};
ghost use Rattle.access_paths.specs.Branches.{lent_paths, seen_paths, seek_paths, AllArePlain};

use crate::found::Found;
use crate::next_item::{NextItem, seek_in, seek_rowid};
use bumpalo::Bump;
use bumpalo::collections::into_bump_slice;
use path_costs::path_size;
use plan_form::{Path, Paths};
use sql_value::{Memory, push};
use std::alloc::Global;
use where_terms::ColumnTerms;

fn run_of(next: &NextItem, seek: Found) -> i32
    requires next { IsNext next.now }
    requires plain { IsPlain false seek }
    ensures { result ≡ pos (seen_run (setting_for next.now) next.now.item (seen_seek seek.entry)) }
{
    path_size(next.setting.figures, next.table, seek.path).run
}

/// The seek that is cheaper to run, the first of two that cost the same.
fn cheaper<'p>(
    next: &NextItem<'_, '_, 'p>,
    best: Option<Found<'p>>,
    found: Option<Found<'p>>,
) -> Option<Found<'p>>
    requires next { IsNext next.now }
    requires best { IfSome best (IsPlain false) }
    requires found { IfSome found (IsPlain false) }
    ensures told { option_map seen_seek result ≡ lighter_of
        (seen_run (setting_for next.now) next.now.item) (option_map seen_seek best.entry)
        (option_map seen_seek found.entry) }
    ensures plain { IfSome result (IsPlain false) }
{
    let Some(first) = best else {
        return found;
    };
    let Some(second) = found else {
        return best;
    };
    if run_of(next, second) < run_of(next, first) {
        found
    } else {
        best
    }
}

/// The seek by these terms that is cheapest to run.
fn cheapest_seek<'p>(
    alloc: Global,
    arena: &'p Bump,
    next: &NextItem<'_, '_, 'p>,
    columns: &'p [ColumnTerms<'p>],
) -> Result<Option<Found<'p>>, Memory>
    requires next { IsNext next.now }
    requires columns { AreReady columns.now }
    ensures told { IfOk result (λ best. option_map seen_seek best
        ≡ option_map (told_seek false) (meant.branch_seek (setting_for next.now)
        (items_in next.now.placed) next.now.item (map column_terms_of columns.now))) }
    ensures plain { IfOk result (λ best. IfSome best (IsPlain false)) }
{
    let mut best = seek_rowid(alloc, arena, next, columns)?;
    for index in next.indexes {
        let found = seek_in(alloc, arena, next, columns, *index, false)?;
        best = cheaper(next, best, found);
    }
    Ok(best)
}

fn push_path<'p>(paths: &mut Vec<&'p Path<'p>, &'p Bump>, path: &'p Path<'p>) -> Result<(), Memory>
    ensures { OnOk result (lent_paths paths.new.items
        ≡ lent_paths paths.old.items ++ path_of path.now ∷ []) }
{
    push(paths, path)
}

fn listed<'p>(paths: Vec<&'p Path<'p>, &'p Bump>) -> Paths<'p>
    ensures { seen_paths result ≡ lent_paths paths.entry.items }
{
    Paths {
        branches: into_bump_slice(paths),
    }
}

/// For each branch its cheapest seek, where each has one.
pub(crate) fn branch_paths<'p>(
    alloc: Global,
    arena: &'p Bump,
    next: &NextItem<'_, '_, 'p>,
    branches: &'p [&'p [ColumnTerms<'p>]],
) -> Result<Option<Paths<'p>>, Memory>
    requires next { IsNext next.now }
    requires branches { AllByRecursion (λ columns. AreReady columns.now) branches.now }
    ensures told { IfOk result (λ paths. option_map seen_paths paths
        ≡ option_map seek_paths (meant.union_seeks (setting_for next.now)
        (items_in next.now.placed) next.now.item (branches_of branches.now))) }
    ensures plain { IfOk result (λ paths. IfSome paths AllArePlain) }
{
    let mut paths: Vec<&'p Path<'p>, &'p Bump> = Vec::new(arena);
    for columns in branches {
        let found = cheapest_seek(alloc, arena, next, columns)?;
        let Some(seek) = found else {
            return Ok(None);
        };
        push_path(&mut paths, seek.path)?;
    }
    Ok(Some(listed(paths)))
}
