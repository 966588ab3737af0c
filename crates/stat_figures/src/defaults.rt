//! What is taken of an index of which nothing is known.
ghost use Rattle.std.specs.Prelude.{◌≡◌, ◌≤◌, IfOk, length};
ghost use Rattle.plan_choice.specs.Figures as meant;

use crate::averages::logs;
use sql_value::{Items, Memory};
use std::alloc::Global;

fn default_figure(unique: bool, columns: usize, k: usize) -> u16
    requires { k ≤ columns }
    ensures { result ≡ meant.default_figure unique columns k }
{
    if unique && k > 0 && k == columns {
        return 0;
    }
    match k {
        0 => 200,
        1 => 33,
        2 => 32,
        3 => 30,
        4 => 28,
        5 => 27,
        _ => 23,
    }
}

fn default_figures(alloc: Global, unique: bool, columns: usize) -> Result<Items<u16>, Memory>
    ensures { IfOk result (λ figures. figures ≡ meant.default_figures unique columns) }
{
    let mut figures = Items::new(alloc);
    for k in 0..columns {
        figures.push(default_figure(unique, columns, k))?;
    }
    figures.push(default_figure(unique, columns, columns))?;
    Ok(figures)
}

/// The figures of an index of so many columns by its counts, or its defaults where there are none.
pub(crate) fn index_figures(
    alloc: Global,
    unique: bool,
    columns: usize,
    counts: &[u64],
) -> Result<Items<u16>, Memory>
    ensures { IfOk result (λ figures. figures ≡ meant.index_figures unique columns counts.now) }
{
    if counts.is_empty() {
        let figures = default_figures(alloc, unique, columns)?;
        return Ok(figures);
    }
    let figures = logs(alloc, counts)?;
    Ok(figures)
}
