//! Logarithms and their sums, and what a seek and a sort cost.
ghost use Rattle.std.specs.Prelude.{◌≡◌, ◌≤◌, ℕ, pos, ◌≤ℤ◌};
ghost use Rattle.plan_choice.specs.Logarithms as meant;

use stat_figures::{log_add, log_est};

/// The logarithm of a count.
pub(crate) fn log_of(count: u64) -> u32
    ensures told { result ≡ meant.log_est count }
    ensures small { result ≤ 639 }
{
    log_est(count) as u32
}

/// The logarithm of the sum of two numbers, by theirs.
pub(crate) fn log_sum(a: u32, b: u32) -> u32
    requires a { a ≤ 1000639 }
    requires b { b ≤ 1000639 }
    ensures told { result ≡ meant.log_add a b }
    ensures small { result ≤ 1000649 }
{
    log_add(a as i32, b as i32) as u32
}

/// What a seek costs in a table of that many rows: the depth of its tree.
pub(crate) fn seek_cost(rows: u32) -> u32
    ensures told { result ≡ meant.seek_cost rows }
    ensures small { result ≤ 639 }
{
    if rows <= 10 {
        return 0;
    }
    log_of(rows as u64).saturating_sub(33)
}

/// What it costs to sort that many rows. Takes no memory.
pub fn sort_cost(rows: i32) -> i32
    requires low { pos 0 ≤ℤ rows }
    requires high { rows ≤ℤ pos 1000000 }
    ensures { (r : ℕ) → rows ≡ pos r → result ≡ pos (meant.sort_cost r) }
{
    let count = rows as u32;
    (count + seek_cost(count) + 30) as i32
}
