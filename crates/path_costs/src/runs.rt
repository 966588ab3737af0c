//! What it costs to run a path, by its shape.
ghost use Rattle.std.specs.Prelude.{◌≡◌, ◌≤◌, ◌+◌, ◌-◌, ℕ, pos, ◌≤ℤ◌};
ghost use Rattle.plan_choice.specs.Costs as meant;
ghost use Rattle.plan_choice.specs.Logarithms as logs;
ghost use Rattle.path_costs.specs.Views.{shape_of, told_cost, told_size};

use crate::logs::{log_sum, seek_cost};
use crate::{Cost, Shape, Size};

/// What seeks cost, and the entries behind them, each of which costs `more` than a bare one.
fn seek_run(rows: u32, entries: u32, seeks: u32, more: u32) -> u32
    requires entries { entries ≤ 1000000 }
    requires seeks { seeks ≤ 1000000 }
    requires more { more ≤ 21 }
    ensures told { result ≡ logs.log_add (logs.seek_cost rows + seeks) (entries + more) }
    ensures small { result ≤ 1000649 }
{
    log_sum(seek_cost(rows) + seeks, entries + more)
}

fn run_cost(shape: Shape, rows: u32, entries: u32, seeks: u32) -> u32
    requires entries { entries ≤ 1000000 }
    requires seeks { seeks ≤ 1000000 }
    ensures told { result ≡ meant.run_cost (shape_of shape) rows entries seeks }
    ensures small { result ≤ 1000649 }
{
    match shape {
        Shape::TableScan => entries + 16,
        Shape::CoveringScan => entries + 10,
        Shape::PlainScan => entries + 26,
        Shape::Rowid => seek_run(rows, entries, seeks, 10),
        Shape::CoveringSeek => seek_run(rows, entries, seeks, 5),
        Shape::PlainSeek => seek_run(rows, entries, seeks, 21),
    }
}

/// What a path of this shape costs to run, with its entries.
pub(crate) fn sized(shape: Shape, rows: u32, entries: u32, seeks: u32) -> Size
    requires entries { entries ≤ 1000000 }
    requires seeks { seeks ≤ 1000000 }
    ensures { result ≡ told_size (meant.sized (shape_of shape) rows entries seeks) }
{
    Size {
        run: run_cost(shape, rows, entries, seeks) as i32,
        entries: entries as i32,
    }
}

/// How many rows are left of so many entries.
fn rows_left(entries: i32, tested: u64) -> i32
    ensures { (e : ℕ) → entries ≡ pos e → result ≡ pos (e - tested) }
{
    (entries.max(0) as u64).saturating_sub(tested) as i32
}

/// What a path of this size costs where so many conjuncts are tested on its rows.
pub(crate) fn thinned(size: Size, tested: u64) -> Cost
    ensures { (z : meant.Size) → size ≡ told_size z
        → result ≡ told_cost (meant.thinned z tested) }
{
    Cost {
        run: size.run,
        rows: rows_left(size.entries, tested),
    }
}

/// What a path that is no union costs: by its shape, the rows of its table, its entries, the seeks
/// that its IN lists ask for, all as logarithms, and by how many conjuncts are tested on its rows.
/// Takes no memory.
pub fn cost_of(shape: Shape, table_rows: i32, entries: i32, seeks: i32, tested: u32) -> Cost
    requires rows_low { pos 0 ≤ℤ table_rows }
    requires rows_high { table_rows ≤ℤ pos 1000000 }
    requires entries_low { pos 0 ≤ℤ entries }
    requires entries_high { entries ≤ℤ pos 1000000 }
    requires seeks_low { pos 0 ≤ℤ seeks }
    requires seeks_high { seeks ≤ℤ pos 1000000 }
    ensures { (t e s : ℕ) → table_rows ≡ pos t → entries ≡ pos e → seeks ≡ pos s
        → result ≡ told_cost (meant.cost_of (shape_of shape) t e s tested) }
{
    let size = sized(shape, table_rows as u32, entries as u32, seeks as u32);
    thinned(size, tested as u64)
}
