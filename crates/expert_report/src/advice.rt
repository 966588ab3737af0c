//! From a dump and a script to the report.
ghost use Rattle.std.specs.Prelude.{◌≡◌, ◌<◌, ◌≤◌, ◌^◌, Some, length, IfOk, IfErr, OnOk};
ghost use Rattle.std.specs.List.{AllByRecursion};
ghost use Rattle.plan_choice.specs.Advice.{full_schema};
ghost use Rattle.schema_model.specs.Databases.{IsDatabase};
ghost use Rattle.schema_model.specs.PlainSchemas.{plain_schema};
ghost use Rattle.schema_model.specs.Schemas.{size};
ghost use Rattle.schema_model.specs.UsableIndexes.{IsEmptyUnlessUsable};
ghost use Rattle.schema_read.specs.Dumps.{seen_dump};
ghost use Rattle.expert_advice.specs.Full.{IsFull};
ghost use Rattle.expert_report.specs.Advice.{IsSound, script_report, script_request};
ghost use Rattle.expert_report.specs.AdviseFaults.{IsWhy};
ghost use Rattle.expert_report.specs.Planning.{AdviceMeans, report_by};
ghost use Rattle.expert_report.specs.Readings.{script_statements};

use crate::outcomes::{Report, Script};
use crate::planning::{Ground, plan_script};
use crate::scanning::script_scans;
use access_paths::TableIndexes;
use candidate_index::{CandidateFault, candidates};
use expert_advice::{Uses, candidate_lines, full_figures, full_schema, full_schemas_are_meant};
use schema_model::Schema;
use schema_read::Dump;
use sql_value::Memory;
use stat_figures::StatSource;
use std::alloc::Global;
use thiserror::Error;

/// Why there is no advice.
#[derive(Clone, Copy, Debug, PartialEq, Eq, Error)]
pub enum AdviseFault {
    /// There are more than 2,000 candidates.
    #[error("too many candidates")]
    TooManyCandidates,
    /// Want of memory.
    #[error("out of memory")]
    Memory,
}

impl From<Memory> for AdviseFault {
    ghost use Rattle.expert_report.specs.AdviseFaults.{IsMemory};

    ghost from_gives = { λ memory fault. IsMemory fault };

    fn from(_: Memory) -> AdviseFault {
        AdviseFault::Memory
    }
}

impl From<CandidateFault> for AdviseFault {
    ghost use Rattle.std.specs.Prelude.{◌≡◌};
    ghost use Rattle.expert_report.specs.AdviseFaults.{of_candidates};

    ghost from_gives = { λ fault why. why ≡ of_candidates fault };

    fn from(fault: CandidateFault) -> AdviseFault {
        match fault {
            CandidateFault::TooMany => AdviseFault::TooManyCandidates,
            CandidateFault::Memory => AdviseFault::Memory,
        }
    }
}

/// The report, over the schema with all candidates.
fn report_over(
    alloc: Global,
    dump: &Dump,
    full: &Schema,
    script: &Script,
    percent: u8,
    source: StatSource,
) -> Result<Report, Memory>
    requires percent { percent ≤ 100 }
    requires conform { IsDatabase dump.now.schema dump.now.rows }
    requires full { IsFull dump.now.schema full.now }
    requires meant { plain_schema full.now
        ≡ full_schema (script_request (seen_dump dump.now) source percent script.now) }
    requires pieces { AllByRecursion (λ piece. length piece < 2 ^ 32) script.now }
    ensures report { IfOk result (λ report. report ≡ report_by (seen_dump dump.now) source percent
        (script_statements dump.now.schema script.now) full.now) }
    ensures means { OnOk result (AdviceMeans
        (script_request (seen_dump dump.now) source percent script.now)) }
{
    let own = dump.schema.index_count();
    let figures = full_figures(alloc, dump, full, source, percent)?;
    let indexes = TableIndexes::of(alloc, full)?;
    let ground = Ground {
        own: &dump.schema,
        full,
        figures: &figures,
        indexes: &indexes,
    };
    let mut uses = Uses::none(alloc, full.index_count() - own)?;
    let statements = plan_script(alloc, &ground, script, &mut uses)?;
    Ok(Report {
        tables: dump.schema.table_count(),
        unread: dump.schema.unread_count(),
        statements_passed: dump.statements_passed,
        rows_passed: dump.rows_passed,
        candidates: candidate_lines(alloc, full, &figures, own)?,
        statements,
        recommended: uses.listed(alloc)?,
    })
}

/// What the advisor says of a script over a dump, of whose rows `percent` of each hundred are
/// sampled where figures are counted.
///
/// All statements are bound first. Candidates are made for those that aren't refused, and each of
/// these is planned over the schema with all candidates. On every database of that schema, and for
/// all parameters, each plan gives the rows that its statement asks for, as often and in the asked
/// order, and costs no more than the plan in written order; and the recommended candidates are just
/// those that some plan uses.
///
/// `TooManyCandidates` comes exactly where there are more than 2,000.
pub fn advise(
    alloc: Global,
    dump: &Dump,
    script: &Script,
    percent: u8,
    source: StatSource,
) -> Result<Report, AdviseFault>
    requires percent { percent ≤ 100 }
    requires conform { IsDatabase dump.now.schema dump.now.rows }
    requires unusable { AllByRecursion IsEmptyUnlessUsable dump.now.schema.indexes }
    requires room { size dump.now.schema < 10 ^ 9 }
    requires pieces { AllByRecursion (λ piece. length piece < 2 ^ 32) script.now }
    ensures report { IfOk result (λ report.
        script_report (seen_dump dump.now) source percent script.now ≡ Some report) }
    ensures sound { IfOk result
        (IsSound (script_request (seen_dump dump.now) source percent script.now)) }
    ensures fault { IfErr result
        (IsWhy (script_report (seen_dump dump.now) source percent script.now)) }
{
    full_schemas_are_meant();
    let asked = script_scans(alloc, &dump.schema, script)?;
    let found = candidates(alloc, &dump.schema, asked.as_slice())?;
    let full = full_schema(alloc, &dump.schema, found.as_slice())?;
    let report = report_over(alloc, dump, &full, script, percent, source)?;
    Ok(report)
}
