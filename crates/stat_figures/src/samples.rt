//! So many rows of each hundred.
ghost use Rattle.std.specs.Prelude.{◌≡◌, ◌≤◌, length, IfOk};
ghost use Rattle.index_lists.specs.Lent.{lent_rows};
ghost use Rattle.plan_choice.specs.Figures as meant;
ghost use Rattle.schema_model.specs.PlainSchemas.{plain_rows};

use crate::logarithms::log_of;
use schema_model::Row;
use sql_value::{Memory, push};
use std::alloc::Global;

/// So many rows of each hundred, spread evenly.
pub(crate) fn sample(alloc: Global, rows: &[Row], percent: u8) -> Result<Vec<&Row>, Memory>
    requires { percent ≤ 100 }
    ensures { IfOk result (λ list. lent_rows list.items
        ≡ meant.sampled percent (plain_rows rows.now)) }
{
    let mut list = Vec::new(alloc);
    let mut owed = 0;
    for row in rows {
        owed += percent;
        if owed >= 100 {
            owed -= 100;
            push(&mut list, row)?;
        }
    }
    Ok(list)
}

/// How many rows a sample takes.
fn sampled_count(rows: &[Row], percent: u8) -> u64
    requires { percent ≤ 100 }
    ensures { result ≡ length (meant.sampled percent (plain_rows rows.now)) }
{
    (rows.len() as u128 * percent as u128 / 100) as u64
}

/// The figure of a table.
pub(crate) fn table_figure(rows: &[Row], percent: u8) -> u16
    requires { percent ≤ 100 }
    ensures { result ≡ meant.table_figure (meant.sampled percent (plain_rows rows.now)) }
{
    let count = sampled_count(rows, percent);
    if count == 0 {
        return 200;
    }
    log_of(count)
}
