//! Figures of a schema's tables and indexes.
ghost use Rattle.std.specs.Prelude.{◌≡◌, ◌≤◌, length, map, option_map, IfOk};
ghost use Rattle.plan_choice.specs.FigureLaws.{AreOfSchema};
ghost use Rattle.plan_choice.specs.Figures as meant;
ghost use Rattle.plan_choice.specs.GivenFigures as meant_given;
ghost use Rattle.schema_model.specs.Databases.{IsDatabase};
ghost use Rattle.schema_model.specs.PlainSchemas.{plain_database, plain_index, plain_schema};
ghost use Rattle.schema_model.specs.declared.indexes.Index.{Index};
ghost use Rattle.std.specs.Prelude.{◌<◌, Some, None, slice_get, slice_index_or};
ghost use Rattle.stat_figures.specs.GivenCounts.{plain_counts, plain_slots};
ghost use Rattle.stat_figures.specs.Requests.{names_of, plain_given, uniques};

use crate::counted::index_counts;
use crate::defaults::index_figures;
use crate::given_counts::{GivenCounts, tells_unordered};
use crate::given_rows::given_of_indexes;
use crate::given_tables::given_tables;
use crate::held::Figures;
use crate::samples::table_figure;
use schema_model::{GivenList, RowList, Schema, Tables, schema_is_sound};
use sql_value::{Items, Memory, push};
use std::alloc::Global;

fn counted_tables(alloc: Global, tables: &[RowList], percent: u8) -> Result<Vec<u16>, Memory>
    requires { percent ≤ 100 }
    ensures { IfOk result (λ figures. figures.items
        ≡ meant.rows_of_tables percent (length tables.now) (plain_database tables.now)) }
{
    let mut figures = Vec::new(alloc);
    for rows in tables {
        push(&mut figures, table_figure(rows.as_slice(), percent))?;
    }
    Ok(figures)
}

fn copy_numbers(alloc: Global, numbers: &[u64]) -> Result<Items<u64>, Memory>
    ensures { IfOk result (λ copy. copy ≡ numbers.now) }
{
    let mut copy = Items::new(alloc);
    for number in numbers {
        copy.push(*number)?;
    }
    Ok(copy)
}

/// The counts of an index: those that are given, or else those of the sampled rows of its table.
fn counts_of_index(
    alloc: Global,
    schema: &Schema,
    number: u32,
    tables: &[RowList],
    percent: u8,
    given: Option<&GivenCounts>,
) -> Result<Items<u64>, Memory>
    requires few { percent ≤ 100 }
    requires counted { length tables.now ≡ length schema.now.tables }
    requires number { number < length schema.now.indexes }
    ensures { IfOk result (λ counts. (index : Index)
        → slice_get schema.now.indexes number ≡ Some index
        → counts ≡ meant_given.numbers_or
        (meant.counts_of percent (plain_database tables.now) (plain_index index))
        (option_map (λ held. plain_counts held.now) given.entry)) }
{
    if let Some(given) = given {
        let numbers = copy_numbers(alloc, given.numbers.as_slice())?;
        return Ok(numbers);
    }
    schema_is_sound(schema);
    let index = schema.index(number);
    let rows = tables[index.table as usize].as_slice();
    let counts = index_counts(alloc, index.columns.as_slice(), rows, percent)?;
    Ok(counts)
}

/// For each index the counts that are given, if there are any, or else those of the sampled rows.
fn counts_of_indexes(
    alloc: Global,
    schema: &Schema,
    tables: &[RowList],
    percent: u8,
    slots: &[Option<GivenCounts>],
) -> Result<Items<Items<u64>>, Memory>
    requires few { percent ≤ 100 }
    requires counted { length tables.now ≡ length schema.now.tables }
    ensures { IfOk result (λ counted. counted
        ≡ meant_given.each_or meant_given.numbers_or
        (map (meant.counts_of percent (plain_database tables.now))
        (plain_schema schema.now).indexes) (plain_slots slots.now)) }
{
    let mut counted = Items::new(alloc);
    for number in 0..schema.index_count() {
        let given = slot(slots, number);
        counted.push(counts_of_index(alloc, schema, number, tables, percent, given)?)?;
    }
    Ok(counted)
}

/// What stands at a number, where anything does.
fn slot<'s, 'g>(slots: &'s [Option<GivenCounts<'g>>], number: u32) -> Option<&'s GivenCounts<'g>>
    ensures { option_map (λ held. plain_counts held.now) result
        ≡ slice_index_or (plain_slots slots.now) number None }
{
    match slots.get(number as usize) {
        Some(Some(counts)) => Some(counts),
        _ => None,
    }
}

/// For each index its figures, by its counts.
fn figures_of_indexes(
    alloc: Global,
    schema: &Schema,
    counted: &[Items<u64>],
) -> Result<Items<Items<u16>>, Memory>
    requires { length counted.now ≡ length schema.now.indexes }
    ensures { IfOk result (λ figures. figures
        ≡ meant.figures_of_indexes (uniques schema.now) 0 (plain_schema schema.now).indexes
        counted.now) }
{
    let mut figures = Items::new(alloc);
    for number in 0..schema.index_count() {
        let index = schema.index(number);
        let columns = index.columns.as_slice().len();
        let counts = counted[number as usize].as_slice();
        figures.push(index_figures(alloc, index.unique, columns, counts)?)?;
    }
    Ok(figures)
}

fn unordered_indexes(alloc: Global, slots: &[Option<GivenCounts>]) -> Result<Items<bool>, Memory>
    ensures { IfOk result (λ unordered. unordered
        ≡ map meant_given.tells_unordered (plain_slots slots.now)) }
{
    let mut unordered = Items::new(alloc);
    for counts in slots {
        unordered.push(tells_unordered(counts.as_ref()))?;
    }
    Ok(unordered)
}

/// The figures of a schema's tables and indexes, counted over so many rows of each hundred.
pub fn figures(
    alloc: Global,
    schema: &Schema,
    rows: &Tables,
    percent: u8,
) -> Result<Figures, Memory>
    requires few { percent ≤ 100 }
    requires conform { IsDatabase schema.now rows.now }
    ensures told { IfOk result (λ figures. figures
        ≡ meant.figures (plain_schema schema.now) (uniques schema.now) (plain_database rows.now)
        percent) }
    ensures fit { IfOk result (AreOfSchema (plain_schema schema.now)) }
{
    let tables = counted_tables(alloc, rows.as_slice(), percent)?;
    let counted = counts_of_indexes(alloc, schema, rows.as_slice(), percent, &[])?;
    let indexes = figures_of_indexes(alloc, schema, counted.as_slice())?;
    Ok(Figures {
        tables,
        indexes,
        counted,
        unordered: Items::new(alloc),
    })
}

/// Figures that rows of `sqlite_stat1` give in place of counted ones. The first `own` indexes of
/// the schema are those that such a row may count for; the others are candidates.
///
/// A row counts for an index by its name and its table's, where its text begins with a number for
/// no column and one for each. Of several that count the last one is taken.
pub fn given_figures(
    alloc: Global,
    schema: &Schema,
    rows: &Tables,
    percent: u8,
    given: &GivenList,
    own: u32,
) -> Result<Figures, Memory>
    requires few { percent ≤ 100 }
    requires conform { IsDatabase schema.now rows.now }
    requires own { own ≤ length schema.now.indexes }
    ensures told { IfOk result (λ figures. figures
        ≡ meant_given.given_figures (names_of schema.now own) (map plain_given given.now)
        (plain_schema schema.now).indexes
        (meant.figures (plain_schema schema.now) (uniques schema.now) (plain_database rows.now)
        percent)) }
    ensures fit { IfOk result (AreOfSchema (plain_schema schema.now)) }
{
    let held = given_of_indexes(alloc, schema, own, given.as_slice())?;
    let slots = held.as_slice();
    let sampled = counted_tables(alloc, rows.as_slice(), percent)?;
    let tables = given_tables(alloc, schema, given.as_slice(), slots, sampled)?;
    let counted = counts_of_indexes(alloc, schema, rows.as_slice(), percent, slots)?;
    let indexes = figures_of_indexes(alloc, schema, counted.as_slice())?;
    let unordered = unordered_indexes(alloc, slots)?;
    Ok(Figures {
        tables,
        indexes,
        counted,
        unordered,
    })
}
