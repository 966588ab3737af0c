//! The rows of an item, for given rows of the items placed before it.
ghost use Rattle.std.specs.Prelude.{◌≡◌, ◌++◌, ◌<◌, Some, map, length, OnOk, IfOk, slice_index_or};
ghost use Rattle.std.specs.Prelude.{[], slice_get, slice_set};
ghost use Rattle.std.specs.List.{AllByRecursion};
ghost use Rattle.sql_meaning.specs.Plans.{missing_if};
ghost use Rattle.sql_meaning.specs.Statements.{is_left};
ghost use Rattle.sql_value.specs.View.{plain_value};
ghost use Rattle.schema_model.specs.PlainSchemas.{plain_database};
ghost use Rattle.sql_bound.specs.Statements.{bound_of, item_of};
ghost use Rattle.sql_eval.specs.Environments.{placed};
ghost use Rattle.bound_rows.specs.Levels as meant;
ghost use Rattle.bound_rows.specs.Levels.{all_true};
ghost use Rattle.bound_rows.specs.Places.{AllFit, FitPlaces, IsRowOf, assignments, held};
ghost use Rattle.bound_rows.specs.Places.{rows_at};
ghost use Rattle.bound_rows.specs.Readable.{AreReadable, lent_exprs};
ghost use Rattle.bound_rows.specs.Tested.{IsTestable, level_table};

use crate::conditions::all_hold;
use crate::levels::Level;
use crate::places::{Source, copied, push_copy_if, push_if};
use sql_bound::{BExpr, BItem};
use sql_eval::{Env, Place};
use sql_value::Memory;
use std::alloc::Global;

/// The item of a level.
pub fn level_item<'p>(level: &Level<'p>) -> BItem<'p>
    requires { level.now.item < length level.now.bound.now.items.now }
    ensures { slice_get (bound_of level.now.bound.now).items level.now.item
        ≡ Some (item_of result) }
{
    level.bound.items[level.item as usize]
}

/// Whether conditions are true where the item of the level has the row, which is its place from
/// then on.
fn hold_with(
    alloc: Global,
    source: &Source,
    level: &Level,
    exprs: &[&BExpr],
    places: &mut Vec<Place>,
    row: Option<u32>,
) -> Result<bool, Memory>
    requires item { level.now.item < length level.now.bound.now.items.now }
    requires readable { AreReadable (plain_database source.now.tables.now)
        (bound_of level.now.bound.now).items (lent_exprs exprs.now) }
    requires places { FitPlaces (plain_database source.now.tables.now)
        (bound_of level.now.bound.now).items places.old.items }
    requires row { IsRowOf (plain_database source.now.tables.now) (level_table level.now) row }
    ensures placed { IfOk result (λ all. places.new.items ≡ slice_set places.old.items
        level.now.item (record { table = level_table level.now; row = row })) }
    ensures fit { IfOk result (λ all. FitPlaces (plain_database source.now.tables.now)
        (bound_of level.now.bound.now).items places.new.items) }
    ensures truth { IfOk result (λ all. all ≡ all_true (map plain_value source.now.params.now)
        (lent_exprs exprs.now) (placed (plain_database source.now.tables.now)
        places.new.items)) }
{
    let table = level_item(level).table;
    places[level.item as usize] = Place { table, row };
    let env = Env {
        tables: source.tables,
        places: places.as_slice(),
        params: source.params,
    };
    let all = all_hold(alloc, exprs, &env)?;
    Ok(all)
}

/// Of the rows, those on which the conjuncts hold that the item owns; for an item of LEFT that has
/// none, the missing row.
fn level_rows(
    alloc: Global,
    source: &Source,
    level: &Level,
    outer: &[Place],
    rows: &[u32],
) -> Result<Vec<Option<u32>>, Memory>
    requires level { IsTestable (plain_database source.now.tables.now) level.now }
    requires outer { FitPlaces (plain_database source.now.tables.now)
        (bound_of level.now.bound.now).items outer.now }
    requires rows { AllByRecursion (λ row. row < length (slice_index_or
        (plain_database source.now.tables.now) (level_table level.now) [])) rows.now }
    ensures fit { IfOk result (λ kept. AllByRecursion (IsRowOf
        (plain_database source.now.tables.now) (level_table level.now)) kept.items) }
    ensures kept { IfOk result (λ kept.
        rows_at (plain_database source.now.tables.now) (level_table level.now) kept.items
        ≡ meant.level_rows (is_left (bound_of level.now.bound.now) level.now.item)
        (map plain_value source.now.params.now) (lent_exprs level.now.owned.items) level.now.item
        (rows_at (plain_database source.now.tables.now) (level_table level.now)
        (map Some rows.now)) (placed (plain_database source.now.tables.now) outer.now)) }
{
    let mut places = copied(alloc, outer)?;
    let mut kept = Vec::new(alloc);
    for number in rows {
        let row = Some(*number);
        let holds = hold_with(
            alloc,
            source,
            level,
            level.owned.as_slice(),
            &mut places,
            row,
        )?;
        push_if(&mut kept, holds, row)?;
    }
    let missing = level_item(level).left && kept.is_empty();
    push_if(&mut kept, missing, None)?;
    Ok(kept)
}

/// The places with each of the rows with which the common conjuncts hold, behind those found.
fn push_with_rows(
    alloc: Global,
    source: &Source,
    level: &Level,
    outer: &[Place],
    rows: &[Option<u32>],
    found: &mut Vec<Vec<Place>>,
) -> Result<(), Memory>
    requires level { IsTestable (plain_database source.now.tables.now) level.now }
    requires outer { FitPlaces (plain_database source.now.tables.now)
        (bound_of level.now.bound.now).items outer.now }
    requires rows { AllByRecursion (IsRowOf (plain_database source.now.tables.now)
        (level_table level.now)) rows.now }
    ensures fit { OnOk result (AllFit (plain_database source.now.tables.now)
        (bound_of level.now.bound.now).items (held found.old.items)
        → AllFit (plain_database source.now.tables.now) (bound_of level.now.bound.now).items
        (held found.new.items)) }
    ensures found { OnOk result (assignments (plain_database source.now.tables.now) (held found.new.items)
        ≡ assignments (plain_database source.now.tables.now) (held found.old.items)
        ++ meant.with_rows (map plain_value source.now.params.now)
        (lent_exprs level.now.common.items) level.now.item
        (rows_at (plain_database source.now.tables.now) (level_table level.now) rows.now)
        (placed (plain_database source.now.tables.now) outer.now)) }
{
    let mut places = copied(alloc, outer)?;
    for row in rows {
        let holds = hold_with(
            alloc,
            source,
            level,
            level.common.as_slice(),
            &mut places,
            *row,
        )?;
        push_copy_if(alloc, found, holds, places.as_slice())?;
    }
    Ok(())
}

/// The places of the items before, with each row that the item has of those given, behind those
/// found.
pub fn extend(
    alloc: Global,
    source: &Source,
    level: &Level,
    outer: &[Place],
    rows: &[u32],
    found: &mut Vec<Vec<Place>>,
) -> Result<(), Memory>
    requires level { IsTestable (plain_database source.now.tables.now) level.now }
    requires outer { FitPlaces (plain_database source.now.tables.now)
        (bound_of level.now.bound.now).items outer.now }
    requires rows { AllByRecursion (λ row. row < length (slice_index_or
        (plain_database source.now.tables.now) (level_table level.now) [])) rows.now }
    ensures fit { OnOk result (AllFit (plain_database source.now.tables.now)
        (bound_of level.now.bound.now).items (held found.old.items)
        → AllFit (plain_database source.now.tables.now) (bound_of level.now.bound.now).items
        (held found.new.items)) }
    ensures found { OnOk result (assignments (plain_database source.now.tables.now) (held found.new.items)
        ≡ assignments (plain_database source.now.tables.now) (held found.old.items)
        ++ meant.with_rows (map plain_value source.now.params.now)
        (lent_exprs level.now.common.items) level.now.item
        (meant.level_rows (is_left (bound_of level.now.bound.now) level.now.item)
        (map plain_value source.now.params.now) (lent_exprs level.now.owned.items) level.now.item
        (rows_at (plain_database source.now.tables.now) (level_table level.now)
        (map Some rows.now)) (placed (plain_database source.now.tables.now) outer.now))
        (placed (plain_database source.now.tables.now) outer.now)) }
{
    let kept = level_rows(alloc, source, level, outer, rows)?;
    push_with_rows(alloc, source, level, outer, kept.as_slice(), found)?;
    Ok(())
}
