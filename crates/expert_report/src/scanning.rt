//! What the statements of a script ask of the columns of their tables.
ghost use Rattle.std.specs.Prelude.{◌<◌, ◌^◌, ◌∷◌, [], length, IfOk, OnOk};
ghost use Rattle.std.specs.List.{AllByRecursion};
ghost use Rattle.expert_report.specs.Planning.{AddsScans};
ghost use Rattle.expert_report.specs.ReadStatements.{IsReady, reading};
ghost use Rattle.expert_report.specs.Readings.{bound_if_any, bound_in, piece_statements};
ghost use Rattle.expert_report.specs.Readings.{run_statements, script_statement, script_statements};

use crate::outcomes::Script;
use crate::script::{Reading, cut_piece, run_reading};
use bumpalo::Bump;
use candidate_index::Scans;
use schema_model::Schema;
use sql_lex::{Span, Token, run_tokens};
use sql_value::{Items, Memory};
use statement_scans::scans;
use std::alloc::Global;

/// The scans of statements, one list for each.
pub(crate) type ScansOfAll = Items<Scans>;

/// Appends the scans of a statement, if it is bound.
fn push_reading<'a>(
    alloc: Global,
    arena: &'a Bump,
    schema: &Schema,
    statement: &Reading<'a>,
    made: &mut ScansOfAll,
) -> Result<(), Memory>
    requires { IsReady schema.now statement.now }
    ensures { OnOk result (AddsScans schema.now made.old made.new
        (bound_if_any (reading statement.now))) }
{
    match statement {
        Reading::Bound(statement) => {
            let asked = scans(alloc, arena, schema, statement.bound, &statement.terms)?;
            made.push(asked)
        }
        Reading::Refused(_) => Ok(()),
    }
}

/// Appends the scans of a statement by its tokens. What it is bound to is given up.
fn push_run(
    alloc: Global,
    schema: &Schema,
    text: &[u8],
    tokens: &[Token],
    made: &mut ScansOfAll,
) -> Result<(), Memory>
    ensures { OnOk result (AddsScans schema.now made.old made.new
        (bound_in (script_statement schema.now text.now tokens.now ∷ []))) }
{
    let arena = Bump::new(alloc);
    let reading = run_reading(alloc, &arena, schema, text, tokens)?;
    push_reading(alloc, &arena, schema, &reading, made)?;
    Ok(())
}

/// Appends the scans of the statements that stand at these spans.
fn push_spans(
    alloc: Global,
    schema: &Schema,
    text: &[u8],
    tokens: &[Token],
    spans: &[Span],
    made: &mut ScansOfAll,
) -> Result<(), Memory>
    ensures { OnOk result (AddsScans schema.now made.old made.new
        (bound_in (run_statements schema.now text.now tokens.now spans.now))) }
{
    for span in spans {
        push_run(alloc, schema, text, run_tokens(tokens, *span), made)?;
    }
    Ok(())
}

/// Appends the scans of the statements of a piece of a script.
fn push_piece(
    alloc: Global,
    schema: &Schema,
    text: &[u8],
    made: &mut ScansOfAll,
) -> Result<(), Memory>
    requires { length text.now < 2 ^ 32 }
    ensures { OnOk result (AddsScans schema.now made.old made.new
        (bound_in (piece_statements schema.now text.now))) }
{
    let cut = cut_piece(alloc, text)?;
    push_spans(
        alloc,
        schema,
        text,
        cut.tokens.as_slice(),
        cut.spans.as_slice(),
        made,
    )?;
    Ok(())
}

/// The scans of each statement of a script that is bound.
pub(crate) fn script_scans(
    alloc: Global,
    schema: &Schema,
    script: &Script,
) -> Result<ScansOfAll, Memory>
    requires { AllByRecursion (λ piece. length piece < 2 ^ 32) script.now }
    ensures { IfOk result (λ made. AddsScans schema.now [] made
        (bound_in (script_statements schema.now script.now))) }
{
    let mut made = ScansOfAll::new(alloc);
    for piece in script.as_slice() {
        push_piece(alloc, schema, piece.as_slice(), &mut made)?;
    }
    Ok(made)
}
