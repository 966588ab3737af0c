//! The walk of a plan: what the plan answers over the rows of a database
//! (<https://sqlite.org/eqp.html>, section 1.2).
ghost use Rattle.std.specs.Prelude.{◌≡◌, ◌<◌, ◌^◌, ◌++◌, ℕ, List, [], map, Some, None, length, IfOk};
ghost use Rattle.std.specs.Prelude.{cond, false, replicate, slice_get, slice_index_or};
ghost use Rattle.std.specs.List.{AllByRecursion, flat_map};
ghost use Rattle.list_laws.specs.Nest.{nested};
ghost use Rattle.list_laws.specs.Order.{sort_by};
ghost use Rattle.sql_meaning.specs.Asked as asked;
ghost use Rattle.sql_meaning.specs.Orders.{by_keys};
ghost use Rattle.sql_meaning.specs.Plans.{consumed_by, steps_of};
ghost use Rattle.sql_meaning.specs.Schemas as schemas;
ghost use Rattle.sql_meaning.specs.Schemas.{RisingRows};
ghost use Rattle.sql_meaning.specs.Statements.{is_left};
ghost use Rattle.sql_value.specs.View.{plain_value};
ghost use Rattle.schema_model.specs.Databases.{IsDatabase};
ghost use Rattle.schema_model.specs.PlainSchemas.{plain_database, plain_rows, plain_schema};
ghost use Rattle.sql_bound.specs.Statements.{bound_of, needs_of};
ghost use Rattle.sql_eval.specs.Environments.{placed};
ghost use Rattle.bound_rows.specs.Answers.{HasFewRows, rows_of_answer};
ghost use Rattle.bound_rows.specs.Levels as levels;
ghost use Rattle.bound_rows.specs.Levels.{Marks};
ghost use Rattle.bound_rows.specs.Places.{AllFit, assignments, held, lent};
ghost use Rattle.bound_rows.specs.Readable.{IsReadableBound, lent_exprs};
ghost use Rattle.bound_rows.specs.Tested.{IsTestable, level_table};
ghost use Rattle.plan_form.specs.Fits.{FitsSchema};
ghost use Rattle.plan_form.specs.LoopRows.{walked_rows};
ghost use Rattle.plan_form.specs.Plans.{loop_of, plan_of};
ghost use Rattle.plan_form.specs.Seeks.{FormGives, HasIndex, IsReadableForm, keys_form};
ghost use Rattle.plan_form.specs.Seeks.{walked_paths};
ghost use Rattle.plan_form.specs.SortedLists.{AreListsOf, AreSearchable, IsAlong};

use crate::lists::{SortedList, lists_of};
use crate::numbers::row_numbers;
use crate::path_rows::{directed_rows, walked_paths};
use crate::plan::{Loop, Plan};
use bound_rows::{
    Answer, Level, Source, cut_rows, empty_places, extend, has_few_rows, images, lent_places,
    level_item, level_of, sorted_by_keys, table_rows,
};
use schema_model::{Row, Schema, Tables};
use sql_bound::{no_bit_is_no_item, with_item};
use sql_eval::{Env, Place};
use sql_value::{Memory, Values, push};
use std::alloc::Global;

/// A mark for each conjunct, none of them set.
fn no_marks(alloc: Global, count: usize) -> Result<Vec<bool>, Memory>
    ensures { IfOk result (λ marks. marks.items ≡ replicate count false) }
{
    let mut marks = Vec::new(alloc);
    for number in 0..count {
        let _ = number;
        push(&mut marks, false)?;
    }
    Ok(marks)
}

/// Sets the mark of each number.
fn mark_all(marks: &mut Vec<bool>, numbers: &[u32])
    requires { AllByRecursion (λ number. number < length marks.old.items) numbers.now }
    ensures counted { length marks.new.items ≡ length marks.old.items }
    ensures marked { (before : List ℕ) → Marks marks.old.items before
        → Marks marks.new.items (before ++ numbers.now) }
{
    for number in numbers {
        marks[*number as usize] = true;
    }
}

/// The conjuncts that the paths of the loops make true, each marked.
fn consumed_marks(alloc: Global, plan: &Plan) -> Result<Vec<bool>, Memory>
    requires { AllByRecursion (λ l. AllByRecursion (λ number.
        number < length (plan_of plan.now).bound.conjuncts) l.consumed) (plan_of plan.now).loops }
    ensures { IfOk result (λ marks. Marks marks.items (consumed_by (plan_of plan.now).loops)) }
{
    let mut marks = no_marks(alloc, plan.bound.conjuncts.len())?;
    for number in 0..plan.loops.len() {
        mark_all(&mut marks, loop_at(plan, number).consumed);
    }
    Ok(marks)
}

/// The numbers of the rows that a loop walks where each item has the row at its place.
fn loop_numbers(
    alloc: Global,
    source: &Source,
    each: &Loop,
    lists: &[SortedList],
    table: &[Row],
    places: &[Place],
) -> Result<Vec<u32>, Memory>
    requires gives { AllByRecursion (λ path. FormGives (plain_database source.now.tables.now)
        places.now (keys_form path)) (walked_paths (loop_of each.now).path) }
    requires along { IsAlong (plain_rows table.now) (walked_paths (loop_of each.now).path)
        lists.now }
    requires searchable { AreSearchable (walked_paths (loop_of each.now).path) lists.now }
    requires rising { RisingRows (plain_rows table.now) }
    requires few { length table.now < 2 ^ 32 }
    ensures within { IfOk result (λ numbers. AllByRecursion (λ number. number < length table.now)
        numbers.items) }
    ensures rows { IfOk result (λ numbers. (schema : schemas.Schema)
        → AreListsOf schema (plain_rows table.now) (walked_paths (loop_of each.now).path) lists.now
        → map (slice_get (plain_rows table.now)) numbers.items
        ≡ map Some (walked_rows schema (map plain_value source.now.params.now)
        (loop_of each.now) (plain_rows table.now)
        (placed (plain_database source.now.tables.now) places.now))) }
{
    let env = Env {
        tables: source.tables,
        places,
        params: source.params,
    };
    let rows = directed_rows(alloc, each, lists, &env)?;
    let numbers = row_numbers(alloc, table, rows.as_slice())?;
    Ok(numbers)
}

fn places_at<'l>(lists: &'l [Vec<Place>], number: usize) -> &'l [Place]
    requires { number < length lists.now }
    ensures { slice_get (held lists.now) number ≡ Some result.now }
{
    lists[number].as_slice()
}

/// Each of the places with each row that the loop has for them.
fn with_loop_rows(
    alloc: Global,
    source: &Source,
    each: &Loop,
    level: &Level,
    lists: &[SortedList],
    table: &[Row],
    outer: &[Vec<Place>],
) -> Result<Vec<Vec<Place>>, Memory>
    requires level { IsTestable (plain_database source.now.tables.now) level.now }
    requires outer { AllFit (plain_database source.now.tables.now)
        (bound_of level.now.bound.now).items (held outer.now) }
    requires readable { AllByRecursion (λ path. IsReadableForm
        (plain_database source.now.tables.now) (bound_of level.now.bound.now).items
        (keys_form path)) (walked_paths (loop_of each.now).path) }
    requires table { plain_rows table.now
        ≡ slice_index_or (plain_database source.now.tables.now) (level_table level.now) [] }
    requires along { IsAlong (plain_rows table.now) (walked_paths (loop_of each.now).path)
        lists.now }
    requires searchable { AreSearchable (walked_paths (loop_of each.now).path) lists.now }
    requires rising { RisingRows (plain_rows table.now) }
    requires few { length table.now < 2 ^ 32 }
    ensures fit { IfOk result (λ found. AllFit (plain_database source.now.tables.now)
        (bound_of level.now.bound.now).items (held found.items)) }
    ensures found { IfOk result (λ found. (schema : schemas.Schema)
        → AreListsOf schema (plain_rows table.now) (walked_paths (loop_of each.now).path) lists.now
        → assignments (plain_database source.now.tables.now) (held found.items)
        ≡ flat_map (λ env. levels.with_rows (map plain_value source.now.params.now)
        (lent_exprs level.now.common.items) level.now.item
        (levels.level_rows (is_left (bound_of level.now.bound.now) level.now.item)
        (map plain_value source.now.params.now) (lent_exprs level.now.owned.items)
        level.now.item (map Some (walked_rows schema (map plain_value source.now.params.now)
        (loop_of each.now) (plain_rows table.now) env)) env) env)
        (assignments (plain_database source.now.tables.now) (held outer.now))) }
{
    let mut found = Vec::new(alloc);
    for number in 0..outer.len() {
        let places = places_at(outer, number);
        let numbers = loop_numbers(alloc, source, each, lists, table, places)?;
        extend(alloc, source, level, places, numbers.as_slice(), &mut found)?;
    }
    Ok(found)
}

/// Each of the places with each row that the loop has for them, along lists that are sorted once.
fn run_loop(
    alloc: Global,
    schema: &Schema,
    source: &Source,
    each: &Loop,
    level: &Level,
    outer: &[Vec<Place>],
) -> Result<Vec<Vec<Place>>, Memory>
    requires level { IsTestable (plain_database source.now.tables.now) level.now }
    requires outer { AllFit (plain_database source.now.tables.now)
        (bound_of level.now.bound.now).items (held outer.now) }
    requires readable { AllByRecursion (λ path. IsReadableForm
        (plain_database source.now.tables.now) (bound_of level.now.bound.now).items
        (keys_form path)) (walked_paths (loop_of each.now).path) }
    requires indexes { AllByRecursion (HasIndex (plain_schema schema.now))
        (walked_paths (loop_of each.now).path) }
    requires conform { IsDatabase schema.now source.now.tables.now }
    requires few { HasFewRows source.now.tables.now }
    requires table { level_table level.now < length source.now.tables.now }
    ensures fit { IfOk result (λ found. AllFit (plain_database source.now.tables.now)
        (bound_of level.now.bound.now).items (held found.items)) }
    ensures found { IfOk result (λ found.
        assignments (plain_database source.now.tables.now) (held found.items)
        ≡ flat_map (λ env. levels.with_rows (map plain_value source.now.params.now)
        (lent_exprs level.now.common.items) level.now.item
        (levels.level_rows (is_left (bound_of level.now.bound.now) level.now.item)
        (map plain_value source.now.params.now) (lent_exprs level.now.owned.items)
        level.now.item (map Some (walked_rows (plain_schema schema.now)
        (map plain_value source.now.params.now) (loop_of each.now)
        (slice_index_or (plain_database source.now.tables.now) (level_table level.now) [])
        env)) env) env)
        (assignments (plain_database source.now.tables.now) (held outer.now))) }
{
    let table = table_rows(source, level_item(level).table);
    let lists = lists_of(alloc, schema, walked_paths(each), table)?;
    let found = with_loop_rows(alloc, source, each, level, lists.as_slice(), table, outer)?;
    Ok(found)
}

/// The rows of the nested loops, in their order.
fn plan_rows(
    alloc: Global,
    schema: &Schema,
    source: &Source,
    plan: &Plan,
) -> Result<Vec<Vec<Place>>, Memory>
    requires fits { FitsSchema (plain_schema schema.now) (plan_of plan.now)
        (needs_of plan.now.bound.now) }
    requires conform { IsDatabase schema.now source.now.tables.now }
    requires few { HasFewRows source.now.tables.now }
    ensures fit { IfOk result (λ found. AllFit (plain_database source.now.tables.now)
        (plan_of plan.now).bound.items (held found.items)) }
    ensures found { IfOk result (λ found.
        assignments (plain_database source.now.tables.now) (held found.items)
        ≡ nested (steps_of (plain_schema schema.now) (plain_database source.now.tables.now)
        (plan_of plan.now).bound (map plain_value source.now.params.now)
        (consumed_by (plan_of plan.now).loops) [] (plan_of plan.now).loops)
        (replicate (length (plan_of plan.now).bound.items) (Some None))) }
{
    let marks = consumed_marks(alloc, plan)?;
    let mut found = Vec::new(alloc);
    let start = empty_places(alloc, plan.bound)?;
    found.push(start)?;
    let mut placed = 0;
    no_bit_is_no_item();
    for number in 0..plan.loops.len() {
        let each = loop_at(plan, number);
        let level = level_of(alloc, plan.bound, marks.as_slice(), placed, each.item)?;
        found = run_loop(alloc, schema, source, &each, &level, found.as_slice())?;
        placed = with_item(placed, each.item);
    }
    Ok(found)
}

fn loop_at<'p>(plan: &Plan<'p>, number: usize) -> Loop<'p>
    requires { number < length plan.now.loops.now }
    ensures { slice_get (plan_of plan.now).loops number ≡ Some (loop_of result) }
{
    plan.loops[number]
}

/// The rows in the order that the plan gives them in: sorted by the keys where it sorts.
fn ordered<'r>(
    alloc: Global,
    source: &Source,
    plan: &Plan,
    rows: Vec<&'r [Place]>,
) -> Result<Vec<&'r [Place]>, Memory>
    requires readable { IsReadableBound (plain_database source.now.tables.now)
        (plan_of plan.now).bound }
    requires fit { AllFit (plain_database source.now.tables.now) (plan_of plan.now).bound.items
        (lent rows.items) }
    ensures fit { IfOk result (λ list. AllFit (plain_database source.now.tables.now)
        (plan_of plan.now).bound.items (lent list.items)) }
    ensures list { IfOk result (λ list.
        assignments (plain_database source.now.tables.now) (lent list.items)
        ≡ cond plan.now.sort
        (sort_by (by_keys (map plain_value source.now.params.now) (plan_of plan.now).bound.keys)
        (assignments (plain_database source.now.tables.now) (lent rows.entry.items)))
        (assignments (plain_database source.now.tables.now) (lent rows.entry.items))) }
{
    if plan.sort {
        let sorted = sorted_by_keys(alloc, source, plan.bound, rows.as_slice())?;
        return Ok(sorted);
    }
    Ok(rows)
}

/// What the plan answers, where 32 bits number the rows of each table.
fn walk_numbered(
    alloc: Global,
    schema: &Schema,
    plan: &Plan,
    tables: &Tables,
    params: &Values,
) -> Result<Answer, Memory>
    requires fits { FitsSchema (plain_schema schema.now) (plan_of plan.now)
        (needs_of plan.now.bound.now) }
    requires conform { IsDatabase schema.now tables.now }
    requires few { HasFewRows tables.now }
    ensures { IfOk result (λ answer. rows_of_answer answer
        ≡ asked.answer (plain_schema schema.now) (plain_database tables.now) (plan_of plan.now)
        (map plain_value params.now)) }
{
    let source = Source { tables, params };
    let found = plan_rows(alloc, schema, &source, plan)?;
    let lent = lent_places(alloc, found.as_slice())?;
    let rows = ordered(alloc, &source, plan, lent)?;
    let left = cut_rows(plan.bound, params, rows.as_slice());
    let answer = images(alloc, &source, plan.bound, left)?;
    Ok(answer)
}

/// What the plan answers over the rows: its nested loops, sorted where it sorts, cut by OFFSET and
/// LIMIT, and then the results of a SELECT, or the rowids that an UPDATE or DELETE changes. A
/// parameter that isn't given is NULL. A table with 2^32 rows is answered as want of memory.
pub fn walk(
    alloc: Global,
    schema: &Schema,
    plan: &Plan,
    tables: &Tables,
    params: &Values,
) -> Result<Answer, Memory>
    requires fits { FitsSchema (plain_schema schema.now) (plan_of plan.now)
        (needs_of plan.now.bound.now) }
    requires conform { IsDatabase schema.now tables.now }
    ensures { IfOk result (λ answer. rows_of_answer answer
        ≡ asked.answer (plain_schema schema.now) (plain_database tables.now) (plan_of plan.now)
        (map plain_value params.now)) }
{
    if !has_few_rows(tables) {
        return Err(Memory);
    }
    walk_numbered(alloc, schema, plan, tables, params)
}
