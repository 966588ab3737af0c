//! Candidates for the scans of planned statements.
ghost use Rattle.std.specs.Prelude.{◌≡◌, ◌≤◌, map, length, IfOk, IfErr};
ghost use Rattle.std.specs.List.{AllByRecursion};
ghost use Rattle.plan_choice.specs.Candidates.{candidate_limit};
ghost use Rattle.plan_choice.specs.CandidateNames.{candidate_names};
ghost use Rattle.schema_model.specs.PlainSchemas.{plain_index};
ghost use Rattle.candidate_index.specs.Faults.{IsWhy};
ghost use Rattle.candidate_index.specs.Known.{candidates_of, IsCandidateOf, UnusableServeNothing};
ghost use Rattle.candidate_index.specs.Naming.{naming};
ghost use Rattle.candidate_index.specs.Scans.{scans_of, AllScansOf};

use crate::asked::Scans;
use crate::found::{CandidateFault, Candidates};
use crate::search::Search;
use schema_model::Schema;
use std::alloc::Global;

/// The indexes that are worth a try for these scans, one list for each statement: on the columns
/// that are equal to something, behind them those of the order or one with a bound, and none that
/// a usable index or an earlier candidate begins with
/// (<https://sqlite.org/queryplanner.html>, sections 1.6 to 3.2). Each has the name that SQLite's
/// shell would give it.
///
/// The search ends as soon as there are more than the limit. A list of columns costs as many
/// hashes as it has columns, however many indexes there are; a name may cost one for each name
/// that is taken, where all have sums that follow each other.
pub fn candidates(
    alloc: Global,
    schema: &Schema,
    scans: &[Scans],
) -> Result<Candidates, CandidateFault>
    requires { AllScansOf schema.now.tables scans.now }
    ensures lists { IfOk result (λ made. map plain_index made
        ≡ candidates_of schema.now (scans_of scans.now)) }
    ensures names { IfOk result (λ made. map (λ index. index.name) made
        ≡ candidate_names (naming schema.now) (map plain_index made)) }
    ensures sound { IfOk result (λ made. AllByRecursion (IsCandidateOf schema.now.tables) made) }
    ensures few { IfOk result (λ made. length made ≤ candidate_limit) }
    ensures many { IfErr result (IsWhy (candidates_of schema.now (scans_of scans.now))) }
{
    let mut search = Search::new(alloc, schema)?;
    for statement in scans {
        search.try_scans(alloc, schema, statement.as_slice())?;
    }
    Ok(search.found)
}

/// A law: an index without columns serves nothing. So where each index that isn't usable has none,
/// as in the schema of a dump, the candidates are those that stand behind all indexes.
pub fn unusable_indexes_serve_nothing()
    ensures { UnusableServeNothing }
{}
