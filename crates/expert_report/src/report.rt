//! The text of the report.
ghost use Rattle.std.specs.Prelude.{◌≡◌, ◌++◌, ◌∷◌, decimal, slice_get, None, MatchOption};
ghost use Rattle.std.specs.Prelude.{IfOk, OnOk};
ghost use Rattle.std.specs.Fmt.{signed_decimal};
ghost use Rattle.std.specs.List.{flat_map};
ghost use Rattle.expert_report.specs.Reports as meant;

use crate::outcomes::{Report, StatementOutcome, StatementReport};
use expert_advice::{CandidateLine, PlannedStatement};
use sql_value::{Bytes, Memory};
use std::alloc::Global;

fn append_number(alloc: Global, text: &mut Bytes, number: u64) -> Result<(), Memory>
    ensures { OnOk result (text.new ≡ text.old ++ decimal number) }
{
    match format!(in alloc; "{number}") {
        Ok(digits) => text.append(digits.as_bytes()),
        Err(_) => Err(Memory),
    }
}

fn append_cost(alloc: Global, text: &mut Bytes, cost: &i32) -> Result<(), Memory>
    ensures { OnOk result (text.new ≡ text.old ++ signed_decimal cost.now) }
{
    let cost = *cost;
    match format!(in alloc; "{cost}") {
        Ok(digits) => text.append(digits.as_bytes()),
        Err(_) => Err(Memory),
    }
}

/// The CREATE line of the candidate of a number.
fn append_create(text: &mut Bytes, candidates: &[CandidateLine], number: u32) -> Result<(), Memory>
    ensures { OnOk result (text.new
        ≡ text.old ++ meant.create_line (slice_get candidates.now number)) }
{
    let Some(candidate) = candidates.get(number as usize) else {
        return Ok(());
    };
    text.append(candidate.create.as_slice())?;
    text.append(b";\n")?;
    Ok(())
}

fn append_creates(
    text: &mut Bytes,
    candidates: &[CandidateLine],
    numbers: &[u32],
) -> Result<(), Memory>
    ensures { OnOk result (text.new
        ≡ text.old ++ meant.create_lines candidates.now numbers.now) }
{
    for number in numbers {
        append_create(text, candidates, *number)?;
    }
    Ok(())
}

/// The CREATE lines of candidates, or that there are none.
fn append_new_indexes(
    text: &mut Bytes,
    candidates: &[CandidateLine],
    numbers: &[u32],
) -> Result<(), Memory>
    ensures { OnOk result (text.new
        ≡ text.old ++ meant.new_indexes candidates.now numbers.now) }
{
    if numbers.is_empty() {
        return text.append(b"(no new indexes)\n");
    }
    append_creates(text, candidates, numbers)
}

fn append_costs(alloc: Global, text: &mut Bytes, planned: &PlannedStatement) -> Result<(), Memory>
    ensures { OnOk result (text.new ≡ text.old ++ meant.cost_line planned.now) }
{
    text.append(b"cost ")?;
    append_cost(alloc, text, &planned.cost)?;
    text.append(b", written order ")?;
    append_cost(alloc, text, &planned.written)?;
    text.append(b"\n")?;
    Ok(())
}

fn append_planned(
    alloc: Global,
    text: &mut Bytes,
    verbose: bool,
    candidates: &[CandidateLine],
    planned: &PlannedStatement,
) -> Result<(), Memory>
    ensures { OnOk result (text.new
        ≡ text.old ++ meant.planned_text verbose candidates.now planned.now) }
{
    append_new_indexes(text, candidates, planned.fresh.as_slice())?;
    text.append(b"\n")?;
    text.append(planned.lines.as_slice())?;
    if verbose {
        append_costs(alloc, text, planned)?;
    }
    text.append(b"\n")?;
    Ok(())
}

fn append_refused(text: &mut Bytes, why: &Bytes) -> Result<(), Memory>
    ensures { OnOk result (text.new ≡ text.old ++ meant.refused_text why.now) }
{
    text.append(b"refused: ")?;
    text.append(why.as_slice())?;
    text.append(b"\n\n")?;
    Ok(())
}

fn append_outcome(
    alloc: Global,
    text: &mut Bytes,
    verbose: bool,
    candidates: &[CandidateLine],
    outcome: &StatementOutcome,
) -> Result<(), Memory>
    ensures { OnOk result (text.new
        ≡ text.old ++ meant.outcome_text verbose candidates.now outcome.now) }
{
    match outcome {
        StatementOutcome::Planned(planned) => {
            append_planned(alloc, text, verbose, candidates, planned)
        }
        StatementOutcome::Refused(why) => append_refused(text, why),
    }
}

/// A statement's number, and in the verbose form its text.
fn append_title(
    alloc: Global,
    text: &mut Bytes,
    verbose: bool,
    number: u64,
    statement: &Bytes,
) -> Result<(), Memory>
    ensures { OnOk result (text.new
        ≡ text.old ++ meant.title verbose number statement.now) }
{
    text.append(b"-- Statement ")?;
    append_number(alloc, text, number)?;
    text.append(b"\n")?;
    if verbose {
        text.append(statement.as_slice())?;
        text.append(b"\n")?;
    }
    Ok(())
}

fn append_block(
    alloc: Global,
    text: &mut Bytes,
    verbose: bool,
    candidates: &[CandidateLine],
    number: u64,
    statement: &StatementReport,
) -> Result<(), Memory>
    ensures { OnOk result (text.new
        ≡ text.old ++ meant.block verbose candidates.now number statement.now) }
{
    append_title(alloc, text, verbose, number, &statement.text)?;
    append_outcome(alloc, text, verbose, candidates, &statement.outcome)?;
    Ok(())
}

fn append_blocks(
    alloc: Global,
    text: &mut Bytes,
    verbose: bool,
    candidates: &[CandidateLine],
    statements: &[StatementReport],
) -> Result<(), Memory>
    ensures { OnOk result (text.new
        ≡ text.old ++ meant.blocks verbose candidates.now 1 statements.now) }
{
    let mut number = 0;
    for statement in statements {
        number += 1;
        append_block(alloc, text, verbose, candidates, number, statement)?;
    }
    Ok(())
}

/// A candidate, with what `sqlite_stat1` would have of it.
fn append_candidate(text: &mut Bytes, candidate: &CandidateLine) -> Result<(), Memory>
    ensures { OnOk result (text.new ≡ text.old ++ meant.candidate_text candidate.now) }
{
    text.append(candidate.create.as_slice())?;
    text.append(b"; -- stat1: ")?;
    text.append(candidate.stat.as_slice())?;
    text.append(b"\n")?;
    Ok(())
}

fn append_each_candidate(text: &mut Bytes, candidates: &[CandidateLine]) -> Result<(), Memory>
    ensures { OnOk result (text.new
        ≡ text.old ++ flat_map meant.candidate_text candidates.now) }
{
    for candidate in candidates {
        append_candidate(text, candidate)?;
    }
    Ok(())
}

fn append_candidates(text: &mut Bytes, candidates: &[CandidateLine]) -> Result<(), Memory>
    ensures { OnOk result (text.new ≡ text.old ++ meant.candidate_list candidates.now) }
{
    if candidates.is_empty() {
        return text.append(b"(none)\n");
    }
    append_each_candidate(text, candidates)
}

/// What was read of the database, and what was passed over.
fn append_counts(alloc: Global, text: &mut Bytes, report: &Report) -> Result<(), Memory>
    ensures { OnOk result (text.new ≡ text.old ++ meant.count_line report.now) }
{
    text.append(b"tables ")?;
    append_number(alloc, text, report.tables as u64)?;
    text.append(b", unread ")?;
    append_number(alloc, text, report.unread as u64)?;
    text.append(b", passed over ")?;
    append_number(alloc, text, report.statements_passed)?;
    text.append(b" statements and ")?;
    append_number(alloc, text, report.rows_passed)?;
    text.append(b" rows\n")?;
    Ok(())
}

/// What stands before the statements in the verbose form.
fn append_front(alloc: Global, text: &mut Bytes, report: &Report) -> Result<(), Memory>
    ensures { OnOk result (text.new ≡ text.old ++ meant.front report.now) }
{
    text.append(b"-- Database\n")?;
    append_counts(alloc, text, report)?;
    text.append(b"\n-- Candidates\n")?;
    append_candidates(text, report.candidates.as_slice())?;
    text.append(b"\n")?;
    Ok(())
}

/// The statements, each under its number, and then the indexes that are recommended.
fn append_body(
    alloc: Global,
    text: &mut Bytes,
    report: &Report,
    verbose: bool,
) -> Result<(), Memory>
    ensures { OnOk result (text.new ≡ text.old ++ meant.body verbose report.now) }
{
    let candidates = report.candidates.as_slice();
    append_blocks(
        alloc,
        text,
        verbose,
        candidates,
        report.statements.as_slice(),
    )?;
    text.append(b"-- Recommended\n")?;
    append_new_indexes(text, candidates, report.recommended.as_slice())?;
    Ok(())
}

/// The report as it is printed: each statement under its number, with the indexes that its plan
/// wants and the plan, or with why it is refused; and then the indexes that are recommended. The
/// verbose form begins with what was read of the database and all candidates, and has of each
/// statement its text and what its plan costs.
pub fn report_text(alloc: Global, report: &Report, verbose: bool) -> Result<Bytes, Memory>
    ensures { IfOk result (λ text. text ≡ meant.text_of verbose report.now) }
{
    let mut text = Bytes::new(alloc);
    if verbose {
        append_front(alloc, &mut text, report)?;
    }
    append_body(alloc, &mut text, report, verbose)?;
    Ok(text)
}
