//! From a database's dump and a script to the report.
ghost use Rattle.std.specs.Prelude.{◌≡◌, ◌≢◌, ◌≤◌, [], length, IfOk, IfErr};
ghost use Rattle.expert_main.specs.Answers.{gives, Finds};
ghost use Rattle.expert_main.specs.Rans.{answered};
ghost use Rattle.expert_main.specs.Refusals.{IsOfPieces, ran_of, status_of};
ghost use Rattle.expert_main.specs.Run.{database_limit, read, run_dump};
ghost use Rattle.expert_main.specs.Scripts.{script_limit, total};
ghost use Rattle.expert_main.specs.Seen.{seen_command};
ghost use Rattle.expert_main.specs.Statuses.{out_of_memory};

use crate::refusal::Refusal;
use crate::status::{ALL_PLANNED, SOME_REFUSED};
use crate::words::Command;
use expert_report::{Report, Script, advise, report_text};
use schema_read::read_dump;
use sql_value::{Bytes, Memory};
use std::alloc::Global;

/// The text of a report, and the exit status that goes with it.
#[derive(Drop)]
pub struct Answer {
    pub status: u8,
    pub text: Bytes,
}

/// The text of a report with its status, which says whether some statement is refused.
fn printed(alloc: Global, verbose: bool, report: &Report) -> Result<Answer, Memory>
    ensures { IfOk result (λ answer. gives answer ≡ answered verbose report.now) }
{
    Ok(Answer {
        status: if report.refuses_some() {
            SOME_REFUSED
        } else {
            ALL_PLANNED
        },
        text: report_text(alloc, report, verbose)?,
    })
}

/// The answer on a script over a dump, or why there is none.
pub fn answer_texts<'a>(
    alloc: Global,
    command: &Command,
    database: &[u8],
    script: &Script,
) -> Result<Answer, Refusal<'a>>
    requires percent { command.now.percent ≤ 100 }
    requires database { length database.now ≤ database_limit }
    requires script { total script.now ≤ script_limit }
    ensures found { IfOk result (Finds (seen_command command.now) database.now script.now) }
    ensures refused { IfErr result (λ why. status_of why ≢ out_of_memory
        → run_dump (seen_command command.now) (read database.now) script.now ≡ ran_of why) }
    ensures known { IfErr result (IsOfPieces []) }
{
    let dump = read_dump(alloc, database)?;
    let report = advise(alloc, &dump, script, command.percent, command.source)?;
    Ok(printed(alloc, command.verbose, &report)?)
}
