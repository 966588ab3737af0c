//! Figures over all candidates.
ghost use Rattle.std.specs.Prelude.{◌≡◌, ◌≤◌, List, IfOk};
ghost use Rattle.plan_choice.specs.Advice as meant;
ghost use Rattle.plan_choice.specs.FigureLaws.{AreOfSchema};
ghost use Rattle.plan_choice.specs.Settings.{Statement};
ghost use Rattle.schema_model.specs.Databases.{IsDatabase};
ghost use Rattle.schema_model.specs.PlainSchemas.{plain_schema};
ghost use Rattle.schema_read.specs.Dumps.{seen_dump};
ghost use Rattle.expert_advice.specs.Full.{IsFull};
ghost use Rattle.expert_advice.specs.Requests.{request_of};

use schema_model::Schema;
use schema_read::Dump;
use sql_value::Memory;
use stat_figures::{Figures, StatSource, figures, given_figures};
use std::alloc::Global;

/// The figures of a dump's schema with candidates behind its indexes: counted over so many rows of
/// each hundred, or those that the dump gives. No row of `sqlite_stat1` counts for a candidate.
pub fn full_figures(
    alloc: Global,
    dump: &Dump,
    full: &Schema,
    source: StatSource,
    percent: u8,
) -> Result<Figures, Memory>
    requires few { percent ≤ 100 }
    requires conform { IsDatabase dump.now.schema dump.now.rows }
    requires full { IsFull dump.now.schema full.now }
    ensures told { IfOk result (λ figures. (statements : List Statement)
        → figures ≡ meant.full_figures
        (request_of (seen_dump dump.now) source percent statements) (plain_schema full.now)) }
    ensures fit { IfOk result (AreOfSchema (plain_schema full.now)) }
{
    match source {
        StatSource::Sampled => figures(alloc, full, &dump.rows, percent),
        StatSource::Given => {
            let own = dump.schema.index_count();
            given_figures(alloc, full, &dump.rows, percent, &dump.given, own)
        }
    }
}
