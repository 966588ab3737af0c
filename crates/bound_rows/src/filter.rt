//! The rows of a statement by its conditions alone: no index, order or plan stands here.
ghost use Rattle.std.specs.Prelude.{◌≡◌, ◌<◌, map, Some, None, [], length, IfOk, slice_index_or};
ghost use Rattle.std.specs.Prelude.{◌≤◌, ◌^◌, replicate};
ghost use Rattle.std.specs.List.{AllByRecursion, flat_map};
ghost use Rattle.list_laws.specs.Nest.{nested};
ghost use Rattle.sql_meaning.specs.Statements.{image, is_left, numbers_from, statement_rows};
ghost use Rattle.sql_meaning.specs.Statements.{OwnersAreLeft};
ghost use Rattle.sql_value.specs.View.{plain_value};
ghost use Rattle.schema_model.specs.Databases.{IsDatabase};
ghost use Rattle.schema_model.specs.PlainSchemas.{plain_database, plain_schema};
ghost use Rattle.sql_bound.specs.Fits.{Fits};
ghost use Rattle.sql_bound.specs.Statements.{bound_of, needs_of};
ghost use Rattle.bound_rows.specs.Answers.{HasFewRows, rows_of_answer};
ghost use Rattle.bound_rows.specs.Levels as meant;
ghost use Rattle.bound_rows.specs.Places.{AllFit, assignments, held, rows_at};
ghost use Rattle.bound_rows.specs.Readable.{IsReadableBound, lent_exprs};
ghost use Rattle.bound_rows.specs.Tested.{IsTestable, level_table};

use crate::answers::{Answer, images};
use crate::levels::{Level, level_of};
use crate::places::{Source, empty_places, has_few_rows, lent_places, table_rows};
use crate::rows::{extend, level_item};
use schema_model::{Schema, Tables};
use sql_bound::{Bound, no_bit_is_no_item, with_item};
use sql_eval::Place;
use sql_value::{Memory, Values, push};
use std::alloc::Global;

/// The numbers below a count.
fn numbers_below(alloc: Global, count: usize) -> Result<Vec<u32>, Memory>
    requires { count < 2 ^ 32 }
    ensures { IfOk result (λ numbers. numbers.items ≡ numbers_from 0 count) }
{
    let mut numbers = Vec::new(alloc);
    for number in 0..count {
        push(&mut numbers, number as u32)?;
    }
    Ok(numbers)
}

/// The numbers of all rows of a table.
fn all_numbers(alloc: Global, source: &Source, table: u32) -> Result<Vec<u32>, Memory>
    requires table { table < length source.now.tables.now }
    requires few { HasFewRows source.now.tables.now }
    ensures within { IfOk result (λ numbers. AllByRecursion (λ row. row
        < length (slice_index_or (plain_database source.now.tables.now) table []))
        numbers.items) }
    ensures rows { IfOk result (λ numbers.
        rows_at (plain_database source.now.tables.now) table (map Some numbers.items)
        ≡ map Some (slice_index_or (plain_database source.now.tables.now) table [])) }
{
    let numbers = numbers_below(alloc, table_rows(source, table).len())?;
    Ok(numbers)
}

/// Each of the places, with each row of the item on which the tests of the level hold.
fn with_each_row(
    alloc: Global,
    source: &Source,
    level: &Level,
    lists: &[Vec<Place>],
) -> Result<Vec<Vec<Place>>, Memory>
    requires level { IsTestable (plain_database source.now.tables.now) level.now }
    requires lists { AllFit (plain_database source.now.tables.now)
        (bound_of level.now.bound.now).items (held lists.now) }
    requires table { level_table level.now < length source.now.tables.now }
    requires few { HasFewRows source.now.tables.now }
    ensures fit { IfOk result (λ found. AllFit (plain_database source.now.tables.now)
        (bound_of level.now.bound.now).items (held found.items)) }
    ensures found { IfOk result (λ found.
        assignments (plain_database source.now.tables.now) (held found.items)
        ≡ flat_map (λ env. meant.with_rows (map plain_value source.now.params.now)
        (lent_exprs level.now.common.items) level.now.item
        (meant.level_rows (is_left (bound_of level.now.bound.now) level.now.item)
        (map plain_value source.now.params.now) (lent_exprs level.now.owned.items) level.now.item
        (map Some (slice_index_or (plain_database source.now.tables.now) (level_table level.now) []))
        env) env) (assignments (plain_database source.now.tables.now) (held lists.now))) }
{
    let numbers = all_numbers(alloc, source, level_item(level).table)?;
    let mut found = Vec::new(alloc);
    for outer in lists {
        extend(
            alloc,
            source,
            level,
            outer.as_slice(),
            numbers.as_slice(),
            &mut found,
        )?;
    }
    Ok(found)
}

/// The rows of the statement, the first item varying slowest.
fn all_rows(alloc: Global, source: &Source, bound: &Bound) -> Result<Vec<Vec<Place>>, Memory>
    requires readable { IsReadableBound (plain_database source.now.tables.now) (bound_of bound.now) }
    requires few_items { length bound.now.items.now ≤ 64 }
    requires few_conjuncts { length bound.now.conjuncts.now ≤ 256 }
    requires tables { AllByRecursion (λ i. i.table < length source.now.tables.now)
        (bound_of bound.now).items }
    requires few { HasFewRows source.now.tables.now }
    ensures fit { IfOk result (λ found. AllFit (plain_database source.now.tables.now)
        (bound_of bound.now).items (held found.items)) }
    ensures found { IfOk result (λ found.
        OwnersAreLeft (bound_of bound.now) →
        assignments (plain_database source.now.tables.now) (held found.items)
        ≡ nested (meant.item_steps (plain_database source.now.tables.now) (bound_of bound.now)
        (map plain_value source.now.params.now) []
        (numbers_from 0 (length (bound_of bound.now).items)))
        (replicate (length (bound_of bound.now).items) (Some None))) }
{
    let mut found = Vec::new(alloc);
    let start = empty_places(alloc, bound)?;
    found.push(start)?;
    let mut placed = 0;
    no_bit_is_no_item();
    for number in 0..bound.items.len() {
        let level = level_of(alloc, &*bound, &[], placed, number as u32)?;
        found = with_each_row(alloc, source, &level, found.as_slice())?;
        placed = with_item(placed, number as u32);
    }
    Ok(found)
}

/// The results of a statement's rows, where 32 bits number the rows of each table.
fn numbered_rows(
    alloc: Global,
    schema: &Schema,
    bound: &Bound,
    tables: &Tables,
    params: &Values,
) -> Result<Answer, Memory>
    requires fits { Fits (plain_schema schema.now) (bound_of bound.now) (needs_of bound.now) }
    requires conform { IsDatabase schema.now tables.now }
    requires few { HasFewRows tables.now }
    ensures { IfOk result (λ answer. rows_of_answer answer
        ≡ map (image (bound_of bound.now) (map plain_value params.now))
        (statement_rows (bound_of bound.now) (plain_database tables.now)
        (map plain_value params.now))) }
{
    let source = Source { tables, params };
    let found = all_rows(alloc, &source, bound)?;
    let rows = lent_places(alloc, found.as_slice())?;
    let answer = images(alloc, &source, bound, rows.as_slice())?;
    Ok(answer)
}

/// The results of a statement's rows, in the order of FROM and of rowids, whatever its ORDER BY and
/// LIMIT say. A conjunct is tested as soon as the items are placed that it names. A table with 2^32
/// rows is answered as want of memory.
pub fn filter_rows(
    alloc: Global,
    schema: &Schema,
    bound: &Bound,
    tables: &Tables,
    params: &Values,
) -> Result<Answer, Memory>
    requires fits { Fits (plain_schema schema.now) (bound_of bound.now) (needs_of bound.now) }
    requires conform { IsDatabase schema.now tables.now }
    ensures { IfOk result (λ answer. rows_of_answer answer
        ≡ map (image (bound_of bound.now) (map plain_value params.now))
        (statement_rows (bound_of bound.now) (plain_database tables.now)
        (map plain_value params.now))) }
{
    if !has_few_rows(tables) {
        return Err(Memory);
    }
    numbered_rows(alloc, schema, bound, tables, params)
}
