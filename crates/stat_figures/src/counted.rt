//! Counts of an index over sampled rows.
ghost use Rattle.std.specs.Prelude.{◌≡◌, ◌≤◌, List, map, length, IfOk, slice_index_or, []};
ghost use Rattle.index_lists.specs.Lent.{lent_rows};
ghost use Rattle.index_lists.specs.SortColumns.{sort_column_of};
ghost use Rattle.plan_choice.specs.Figures as meant;
ghost use Rattle.schema_model.specs.PlainSchemas.{plain_index_column, plain_rows};
ghost use Rattle.sql_meaning.specs.IndexLists.{index_entries};
ghost use Rattle.sql_meaning.specs.Rows as rows;

use crate::averages::averages;
use crate::changes::count_values;
use crate::samples::sample;
use index_lists::sorted_entries;
use schema_model::{IndexColumn, Row};
use sql_value::{Items, Memory};
use std::alloc::Global;

/// The counts of an index, by one pass along its list.
fn listed_counts(
    alloc: Global,
    columns: &[IndexColumn],
    entries: &[&Row],
) -> Result<Items<u64>, Memory>
    ensures { IfOk result (λ counts. (rows : List rows.Row)
        → lent_rows entries.now ≡ index_entries (map sort_column_of columns.now) rows
        → counts ≡ meant.counts (map plain_index_column columns.now) rows) }
{
    let [first, rest @ ..] = entries else {
        return Ok(Items::new(alloc));
    };
    let distinct = count_values(alloc, columns, first, rest)?;
    let counts = averages(alloc, entries.len() as u64, distinct.as_slice())?;
    Ok(counts)
}

/// The counts of an index of these columns, by one sort of the sampled rows and one pass along
/// them.
pub(crate) fn index_counts(
    alloc: Global,
    columns: &[IndexColumn],
    rows: &[Row],
    percent: u8,
) -> Result<Items<u64>, Memory>
    requires { percent ≤ 100 }
    ensures { IfOk result (λ counts. counts
        ≡ meant.counts (map plain_index_column columns.now)
        (meant.sampled percent (plain_rows rows.now))) }
{
    let list = sample(alloc, rows, percent)?;
    let entries = sorted_entries(columns, list)?;
    let counts = listed_counts(alloc, columns, entries.as_slice())?;
    Ok(counts)
}
