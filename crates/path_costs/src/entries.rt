//! How many entries a path looks at, and how many seeks its IN lists ask for.
ghost use Rattle.std.specs.Prelude.{◌≡◌, ◌≤◌, ◌+◌, ◌∷◌, [], min, option_map};
ghost use Rattle.plan_choice.specs.Costs as meant;
ghost use Rattle.plan_form.specs.Paths.{edge_of, part_of, parts_of};

use crate::logs::log_of;
use plan_form::{Edge, EqPart, EqParts};

/// The most that seeks are counted as.
const MOST_SEEKS: u32 = 100_000;

/// How many seeks a part asks for: one for each of its keys.
fn part_seeks(part: &EqPart) -> u32
    ensures told { result ≡ meant.part_seeks (part_of part.now) }
    ensures small { result ≤ 639 }
{
    match part {
        EqPart::One(_) => 0,
        EqPart::Many(keys) => log_of(keys.keys.len() as u64),
        EqPart::Null => 0,
    }
}

/// How many seeks some parts ask for: one for each combination of their keys.
pub(crate) fn seeks_of(eqs: &EqParts) -> u32
    ensures told { result ≡ meant.seeks_of (parts_of eqs.now) }
    ensures small { result ≤ 100000 }
{
    let mut seeks = 0;
    for part in eqs.parts {
        seeks = (seeks + part_seeks(part)).min(MOST_SEEKS);
    }
    seeks
}

/// How many seeks by rowid a part asks for.
pub(crate) fn rowid_seeks(part: &EqPart) -> u32
    ensures told { result ≡ meant.seeks_of (part_of part.now ∷ []) }
    ensures small { result ≤ 639 }
{
    part_seeks(part)
}

/// The entries of a seek by rowid: one, or one for each key that the table has.
pub(crate) fn rowid_entries(rows: u32, part: &EqPart) -> u32
    ensures told { result ≡ meant.rowid_entries rows (part_of part.now) }
    ensures small { result ≤ 639 }
{
    match part {
        EqPart::One(_) => 0,
        EqPart::Many(_) => rows.min(rowid_seeks(part)),
        EqPart::Null => 0,
    }
}

fn bound_count(edge: &Option<Edge>) -> u32
    ensures told { result ≡ meant.bound_count (option_map edge_of edge.now) }
    ensures small { result ≤ 1 }
{
    match edge {
        Some(_) => 1,
        None => 0,
    }
}

/// The entries that are left within bounds: of each bound a quarter.
pub(crate) fn within_bounds(low: &Option<Edge>, high: &Option<Edge>, entries: u32) -> u32
    ensures told { result ≡ meant.within_bounds (option_map edge_of low.now)
        (option_map edge_of high.now) entries }
    ensures small { result ≤ entries }
{
    entries.saturating_sub(20 * (bound_count(low) + bound_count(high)))
}
