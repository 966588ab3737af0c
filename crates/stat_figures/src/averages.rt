//! How many rows stand for each value.
ghost use Rattle.std.specs.Prelude.{◌≡◌, ◌<◌, ℕ, map, length, slice_index, IfOk};
ghost use Rattle.plan_choice.specs.Figures as meant;
ghost use Rattle.plan_choice.specs.Logarithms as plain;

use crate::logarithms::log_of;
use sql_value::{Items, Memory};
use std::alloc::Global;

fn average(total: u64, values: u64) -> u64
    requires { 0 < values }
    ensures { result ≡ meant.quotient_up total values }
{
    total.div_ceil(values)
}

/// So many rows for each distinct value, upwards.
pub(crate) fn averages(alloc: Global, total: u64, distinct: &[u64]) -> Result<Items<u64>, Memory>
    requires { (k : ℕ) → k < length distinct.now → 0 < slice_index distinct.now k }
    ensures { IfOk result (λ counts. counts ≡ map (meant.quotient_up total) distinct.now) }
{
    let mut counts = Items::new(alloc);
    for values in distinct {
        counts.push(average(total, *values))?;
    }
    Ok(counts)
}

pub(crate) fn logs(alloc: Global, counts: &[u64]) -> Result<Items<u16>, Memory>
    ensures { IfOk result (λ figures. figures ≡ map plain.log_est counts.now) }
{
    let mut figures = Items::new(alloc);
    for count in counts {
        figures.push(log_of(*count))?;
    }
    Ok(figures)
}
