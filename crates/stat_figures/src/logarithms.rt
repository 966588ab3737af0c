//! Numbers of rows and costs as logarithms: ten for each doubling, to a tenth or so.
ghost use Rattle.std.specs.Prelude.{◌≡◌, ◌^◌, ◌≤◌, ◌<◌, ◌*◌, ◌/◌, ◌-◌, pos, negsuc, ◌≤ℤ◌, ◌+ℤ◌};
ghost use Rattle.std.specs.Prelude.{ℕ, slice_index_or};
ghost use Rattle.plan_choice.specs.Logarithms as meant;
ghost use Rattle.stat_figures.specs.Sums.{log_sum};

/// How far a number is above a power of two: 0 at the power, 8 at the next one.
fn eighths(x: u64, power: u32) -> u64
    requires low { 2 ^ power ≤ x }
    requires high { x < 2 * 2 ^ power }
    requires small { power < 64 }
    ensures { result ≡ 8 * x / 2 ^ power - 8 }
{
    ((x as u128 * 8) >> power) as u64 - 8
}

/// Ten times the logarithm of 1 and so many eighths.
fn tenths(eighths: u64) -> u32
    ensures within { result ≤ 9 }
    ensures told { result ≡ slice_index_or meant.tenths eighths 0 }
{
    match eighths {
        1 => 2,
        2 => 3,
        3 => 5,
        4 => 6,
        5 => 7,
        6 => 8,
        7 => 9,
        _ => 0,
    }
}

/// Ten times the logarithm of a number to the base 2, and 0 below 2.
pub(crate) fn log_of(x: u64) -> u16
    ensures within { result ≤ 639 }
    ensures told { result ≡ meant.log_est x }
{
    if x < 2 {
        return 0;
    }
    let power = x.ilog2();
    (10 * power + tenths(eighths(x, power))) as u16
}

/// Ten times the logarithm of a number to the base 2, cut to the eighth below, and 0 below 2. Takes
/// no memory.
pub fn log_est(x: u64) -> i32
    ensures { result ≡ pos (meant.log_est x) }
{
    log_of(x) as i32
}

/// What the logarithm of a sum is above that of its greater part, by how far the other is below.
fn sum_step(distance: u32) -> u32
    ensures within { result ≤ 10 }
    ensures told { result ≡ meant.sum_step distance }
{
    match distance {
        0..=1 => 10,
        2..=3 => 9,
        4..=5 => 8,
        6..=8 => 7,
        9..=11 => 6,
        12..=14 => 5,
        15..=18 => 4,
        19..=24 => 3,
        25..=31 => 2,
        32..=49 => 1,
        _ => 0,
    }
}

fn raised(log: i32, by: u32) -> i32
    requires high { log ≤ℤ pos 2000000 }
    requires few { by ≤ 10 }
    ensures { result ≡ log +ℤ pos by }
{
    log + by as i32
}

/// The logarithm of the sum of two numbers, by theirs. Takes no memory.
pub fn log_add(a: i32, b: i32) -> i32
    requires a_low { negsuc 1999999 ≤ℤ a }
    requires a_high { a ≤ℤ pos 2000000 }
    requires b_low { negsuc 1999999 ≤ℤ b }
    requires b_high { b ≤ℤ pos 2000000 }
    ensures sum { result ≡ log_sum a b }
    ensures numbers { (n m : ℕ) → a ≡ pos n → b ≡ pos m → result ≡ pos (meant.log_add n m) }
{
    raised(a.max(b), sum_step(a.abs_diff(b)))
}
