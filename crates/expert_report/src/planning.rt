//! The plans of a script's statements, and the candidates that they use.
ghost use Rattle.std.specs.Prelude.{◌≡◌, ◌<◌, ◌^◌, ◌++◌, [], ◌∷◌, length, map, IfOk, OnOk};
ghost use Rattle.std.specs.List.{AllByRecursion};
ghost use Rattle.plan_form.specs.Texts.{aliases_of};
ghost use Rattle.expert_advice.specs.Planned.{statement_of};
ghost use Rattle.expert_report.specs.Planning.{EachPlanMeans, IsMeant, IsOver, MarksOf, MarksPlans};
ghost use Rattle.expert_report.specs.Planning.{PlanMeans, outcome_over, planned_for, told_over};
ghost use Rattle.expert_report.specs.ReadStatements.{IsBoundTo, IsReady, reading};
ghost use Rattle.expert_report.specs.Readings.{bound_if_any, piece_statements, run_statements};
ghost use Rattle.expert_report.specs.Readings.{script_statement, script_statements};

use crate::outcomes::{Script, StatementOutcome, StatementReport, StatementReports};
use crate::script::{BoundStatement, Reading, cut_piece, run_reading, run_text};
use access_paths::{Setting, TableIndexes};
use bumpalo::Bump;
use expert_advice::{PlannedStatement, Uses, plan_statement, statements_keep_with_candidates};
use schema_model::Schema;
use sql_lex::{Span, Token, run_tokens};
use sql_value::{Bytes, Memory};
use stat_figures::Figures;
use std::alloc::Global;

/// What statements are planned over: a schema with candidates behind the indexes of the schema that
/// the statements are bound to, with its figures and the usable indexes of each table.
#[derive(Clone, Copy)]
pub(crate) struct Ground<'s> {
    pub own: &'s Schema,
    pub full: &'s Schema,
    pub figures: &'s Figures,
    pub indexes: &'s TableIndexes,
}

/// Plans a statement. What its plan is made of stands in the arena.
#[tactic(auto, unfolding(crate::specs::Planning::plan_over))]
fn plan_bound<'p>(
    alloc: Global,
    arena: &'p Bump,
    ground: &Ground,
    statement: &BoundStatement<'p>,
) -> Result<PlannedStatement, Memory>
    requires over { IsOver ground.now }
    requires ready { IsBoundTo ground.now.own.now statement.now }
    ensures told { IfOk result (λ planned. planned ≡ planned_for ground.now
        (statement_of statement.now.bound.now) (aliases_of statement.now.bound.now.items.now)) }
    ensures means { OnOk result (IsMeant ground.now (statement_of statement.now.bound.now)) }
{
    statements_keep_with_candidates();
    let setting = Setting {
        schema: ground.full,
        figures: ground.figures,
        indexes: ground.indexes,
        bound: statement.bound,
        terms: &statement.terms,
    };
    let planned = plan_statement(alloc, arena, &setting, ground.own.index_count())?;
    Ok(planned)
}

/// What becomes of a statement. The candidates that its plan uses are marked.
fn plan_reading<'p>(
    alloc: Global,
    arena: &'p Bump,
    ground: &Ground,
    statement: &Reading<'p>,
    uses: &mut Uses,
) -> Result<StatementOutcome, Memory>
    requires over { IsOver ground.now }
    requires ready { IsReady ground.now.own.now statement.now }
    ensures told { IfOk result (λ outcome. outcome ≡ outcome_over ground.now
        (reading statement.now)) }
    ensures means { OnOk result (PlanMeans ground.now (reading statement.now)) }
    ensures uses { OnOk result (MarksOf ground.now uses.old uses.new
        (bound_if_any (reading statement.now))) }
{
    match statement {
        Reading::Bound(statement) => {
            let planned = plan_bound(alloc, arena, ground, statement)?;
            uses.mark(planned.fresh.as_slice());
            Ok(StatementOutcome::Planned(planned))
        }
        Reading::Refused(why) => {
            Ok(StatementOutcome::Refused(Bytes::copy(alloc, why.as_slice())?))
        }
    }
}

/// What is told of a statement. The candidates that its plan uses are marked.
fn plan_run(
    alloc: Global,
    ground: &Ground,
    text: &[u8],
    tokens: &[Token],
    uses: &mut Uses,
) -> Result<StatementReport, Memory>
    requires over { IsOver ground.now }
    ensures told { IfOk result (λ told. told
        ≡ told_over ground.now (script_statement ground.now.own.now text.now tokens.now)) }
    ensures means { OnOk result (EachPlanMeans ground.now
        (script_statement ground.now.own.now text.now tokens.now ∷ [])) }
    ensures uses { OnOk result (MarksPlans ground.now uses.old uses.new
        (script_statement ground.now.own.now text.now tokens.now ∷ [])) }
{
    let arena = Bump::new(alloc);
    let reading = run_reading(alloc, &arena, ground.own, text, tokens)?;
    let outcome = plan_reading(alloc, &arena, ground, &reading, uses)?;
    Ok(StatementReport {
        text: Bytes::copy(alloc, run_text(text, tokens))?,
        outcome,
    })
}

/// Appends what is told of the statements that stand at these spans.
fn plan_spans(
    alloc: Global,
    ground: &Ground,
    text: &[u8],
    tokens: &[Token],
    spans: &[Span],
    uses: &mut Uses,
    told: &mut StatementReports,
) -> Result<(), Memory>
    requires over { IsOver ground.now }
    ensures told { OnOk result (told.new ≡ told.old
        ++ map (told_over ground.now) (run_statements ground.now.own.now text.now tokens.now spans.now)) }
    ensures means { OnOk result (EachPlanMeans ground.now
        (run_statements ground.now.own.now text.now tokens.now spans.now)) }
    ensures uses { OnOk result (MarksPlans ground.now uses.old uses.new
        (run_statements ground.now.own.now text.now tokens.now spans.now)) }
{
    for span in spans {
        told.push(plan_run(alloc, ground, text, run_tokens(tokens, *span), uses)?)?;
    }
    Ok(())
}

/// Appends what is told of the statements of a piece of a script.
fn plan_piece(
    alloc: Global,
    ground: &Ground,
    text: &[u8],
    uses: &mut Uses,
    told: &mut StatementReports,
) -> Result<(), Memory>
    requires over { IsOver ground.now }
    requires size { length text.now < 2 ^ 32 }
    ensures told { OnOk result (told.new ≡ told.old
        ++ map (told_over ground.now) (piece_statements ground.now.own.now text.now)) }
    ensures means { OnOk result (EachPlanMeans ground.now
        (piece_statements ground.now.own.now text.now)) }
    ensures uses { OnOk result (MarksPlans ground.now uses.old uses.new
        (piece_statements ground.now.own.now text.now)) }
{
    let cut = cut_piece(alloc, text)?;
    let (tokens, spans) = (cut.tokens.as_slice(), cut.spans.as_slice());
    plan_spans(alloc, ground, text, tokens, spans, uses, told)?;
    Ok(())
}

/// What is told of the statements of a script, in order. The candidates that their plans use are
/// marked.
pub(crate) fn plan_script(
    alloc: Global,
    ground: &Ground,
    script: &Script,
    uses: &mut Uses,
) -> Result<StatementReports, Memory>
    requires over { IsOver ground.now }
    requires pieces { AllByRecursion (λ piece. length piece < 2 ^ 32) script.now }
    ensures told { IfOk result (λ told. told
        ≡ map (told_over ground.now) (script_statements ground.now.own.now script.now)) }
    ensures means { OnOk result (EachPlanMeans ground.now
        (script_statements ground.now.own.now script.now)) }
    ensures uses { OnOk result (MarksPlans ground.now uses.old uses.new
        (script_statements ground.now.own.now script.now)) }
{
    let mut told = StatementReports::new(alloc);
    for piece in script.as_slice() {
        plan_piece(alloc, ground, piece.as_slice(), uses, &mut told)?;
    }
    Ok(told)
}
