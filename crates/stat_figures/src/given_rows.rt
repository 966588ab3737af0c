//! Rows of sqlite_stat1 that count for an index.
ghost use Rattle.std.specs.Prelude.{◌≡◌, ◌≤◌, ◌<◌, ℕ, length, map, slice_get, slice_index_or};
ghost use Rattle.std.specs.Prelude.{Some, None, ◌&&◌, nat_lt, true, [], IfOk, OnOk};
ghost use Rattle.plan_choice.specs.GivenFigures as meant;
ghost use Rattle.schema_model.specs.PlainSchemas.{plain_schema};
ghost use Rattle.schema_model.specs.declared.indexes.Index.{Index};
ghost use Rattle.stat_figures.specs.GivenCounts.{plain_slots, said_at, is_number};
ghost use Rattle.stat_figures.specs.Requests.{names_of, plain_given};

use crate::given_counts::{GivenCounts, read_counts};
use crate::words::is_same_name;
use schema_model::{Given, Schema, find_index, schema_is_sound};
use sql_value::{Memory, fold};
use std::alloc::Global;

/// Whether a row names the table of an index.
fn is_of_table(schema: &Schema, number: u32, row: &Given) -> bool
    requires { number < length schema.now.indexes }
    ensures { (index : Index) → slice_get schema.now.indexes number ≡ Some index
        → result ≡ meant.same_name (slice_index_or
        (names_of schema.now 0).tables index.table []) row.now.table }
{
    schema_is_sound(schema);
    let table = schema.table(schema.index(number).table);
    is_same_name(table.name.as_slice(), row.table.as_slice())
}

/// The number of the index that a row names, if it is one of the first so many.
fn named_index(alloc: Global, schema: &Schema, own: u32, row: &Given) -> Result<Option<u32>, Memory>
    ensures within { IfOk result (λ found. (k : ℕ) → is_number k found ≡ true
        → k < length schema.now.indexes) }
    ensures named { IfOk result (λ found. (k : ℕ) (index : Index)
        → slice_get schema.now.indexes k ≡ Some index
        → is_number k found
        ≡ (nat_lt k own && meant.is_of_index (slice_index_or
        (names_of schema.now 0).tables index.table []) index.name (plain_given row.now)
        row.now.index)) }
{
    schema_is_sound(schema);
    let Some(name) = &row.index else {
        return Ok(None);
    };
    let folded = fold(alloc, name.as_slice())?;
    let Some(number) = find_index(schema, folded.as_slice()) else {
        return Ok(None);
    };
    if number >= own {
        return Ok(None);
    }
    if is_of_table(schema, number, row) {
        return Ok(Some(number));
    }
    Ok(None)
}

/// Puts the counts that a row gives at the index that it counts for, in place of what stands there.
fn take_row<'g>(
    alloc: Global,
    schema: &Schema,
    own: u32,
    row: &'g Given,
    slots: &mut Vec<Option<GivenCounts<'g>>>,
) -> Result<(), Memory>
    requires { length slots.old.items ≡ length schema.now.indexes }
    ensures len { OnOk result (length slots.new.items ≡ length slots.old.items) }
    ensures taken { OnOk result ((k : ℕ) → k < length schema.now.indexes
        → slice_index_or (plain_slots slots.new.items) k None
        ≡ meant.or_before (said_at schema.now own row.now k)
        (slice_index_or (plain_slots slots.old.items) k None)) }
{
    let Some(number) = named_index(alloc, schema, own, row)? else {
        return Ok(());
    };
    let columns = schema.index(number).columns.as_slice().len();
    if columns == 0 {
        return Ok(());
    }
    if let Some(counts) = read_counts(alloc, columns + 1, row.stat.as_slice())? {
        slots[number as usize] = Some(counts);
    }
    Ok(())
}

fn no_counts<'g>(alloc: Global, count: u32) -> Result<Vec<Option<GivenCounts<'g>>>, Memory>
    ensures len { IfOk result (λ slots. length slots.items ≡ count) }
    ensures none { IfOk result (λ slots. (k : ℕ)
        → slice_index_or (plain_slots slots.items) k None ≡ None) }
{
    let mut slots = Vec::new(alloc);
    for _slot in 0..count {
        slots.push(None)?;
    }
    Ok(slots)
}

/// For each index of a schema what the last row gives that counts for it; nothing behind the first
/// so many.
pub(crate) fn given_of_indexes<'g>(
    alloc: Global,
    schema: &Schema,
    own: u32,
    given: &'g [Given],
) -> Result<Vec<Option<GivenCounts<'g>>>, Memory>
    requires { own ≤ length schema.now.indexes }
    ensures { IfOk result (λ slots. plain_slots slots.items
        ≡ meant.given_of_indexes (names_of schema.now own) (map plain_given given.now)
        (plain_schema schema.now).indexes (names_of schema.now own).indexes) }
{
    let mut slots = no_counts(alloc, schema.index_count())?;
    for row in given {
        take_row(alloc, schema, own, row, &mut slots)?;
    }
    Ok(slots)
}
