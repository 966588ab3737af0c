//! The rows of tables, where sqlite_stat1 gives them.
ghost use Rattle.std.specs.Prelude.{◌≡◌, ◌≤◌, ◌<◌, ℕ, length, map, slice_get, slice_index_or};
ghost use Rattle.std.specs.Prelude.{Some, None, IfOk, OnOk};
ghost use Rattle.plan_choice.specs.GivenFigures as meant;
ghost use Rattle.schema_model.specs.PlainSchemas.{plain_schema};
ghost use Rattle.stat_figures.specs.GivenCounts.{plain_slots};
ghost use Rattle.stat_figures.specs.Requests.{names_of, plain_given};

use crate::given_counts::{GivenCounts, first_log, read_counts};
use schema_model::{Found, Given, Schema, find_table, schema_is_sound};
use sql_value::{Memory, fold};
use std::alloc::Global;

/// Takes what the first index of a table for which a row counts gives. From the last index on, so
/// that the first one stays.
fn take_indexes(schema: &Schema, slots: &[Option<GivenCounts>], tables: &mut Vec<u16>)
    requires slots { length slots.now ≡ length schema.now.indexes }
    requires tables { length tables.old.items ≡ length schema.now.tables }
    ensures len { length tables.new.items ≡ length tables.old.items }
    ensures taken { (k : ℕ) → k < length tables.old.items
        → slice_index_or tables.new.items k 0
        ≡ meant.first_of_table k (plain_schema schema.now).indexes (plain_slots slots.now)
        (slice_index_or tables.old.items k 0) }
{
    schema_is_sound(schema);
    let count = schema.index_count();
    for passed in 0..count {
        let number = count - 1 - passed;
        if let Some(counts) = &slots[number as usize] {
            tables[schema.index(number).table as usize] = first_log(counts);
        }
    }
}

/// Takes what a row gives that counts for a table.
fn take_row(
    alloc: Global,
    schema: &Schema,
    row: &Given,
    tables: &mut Vec<u16>,
) -> Result<(), Memory>
    requires { length tables.old.items ≡ length schema.now.tables }
    ensures len { OnOk result (length tables.new.items ≡ length tables.old.items) }
    ensures taken { OnOk result ((k : ℕ) → k < length tables.old.items
        → slice_index_or tables.new.items k 0
        ≡ meant.table_or (meant.table_counts (names_of schema.now 0) k (plain_given row.now))
        (slice_index_or tables.old.items k 0)) }
{
    schema_is_sound(schema);
    if row.index.is_some() {
        return Ok(());
    }
    let folded = fold(alloc, row.table.as_slice())?;
    let Found::Read(number) = find_table(schema, folded.as_slice()) else {
        return Ok(());
    };
    if let Some(counts) = read_counts(alloc, 1, row.stat.as_slice())? {
        tables[number as usize] = first_log(&counts);
    }
    Ok(())
}

fn take_rows(
    alloc: Global,
    schema: &Schema,
    given: &[Given],
    tables: &mut Vec<u16>,
) -> Result<(), Memory>
    requires { length tables.old.items ≡ length schema.now.tables }
    ensures len { OnOk result (length tables.new.items ≡ length tables.old.items) }
    ensures taken { OnOk result ((k : ℕ) → k < length tables.old.items
        → slice_index_or tables.new.items k 0
        ≡ meant.table_or (meant.last_counts (meant.table_counts (names_of schema.now 0) k) None
        (map plain_given given.now)) (slice_index_or tables.old.items k 0)) }
{
    for row in given {
        take_row(alloc, schema, row, tables)?;
    }
    Ok(())
}

/// The rows of each table: what a row gives; else what its first index gives; else what is counted.
pub(crate) fn given_tables(
    alloc: Global,
    schema: &Schema,
    given: &[Given],
    slots: &[Option<GivenCounts>],
    mut counted: Vec<u16>,
) -> Result<Vec<u16>, Memory>
    requires slots { length slots.now ≡ length schema.now.indexes }
    requires tables { length counted.items ≡ length schema.now.tables }
    ensures { IfOk result (λ tables. (own : ℕ) → tables.items
        ≡ meant.given_tables (names_of schema.now own) (map plain_given given.now)
        (plain_schema schema.now).indexes (plain_slots slots.now) 0 counted.items) }
{
    take_indexes(schema, slots, &mut counted);
    take_rows(alloc, schema, given, &mut counted)?;
    Ok(counted)
}
