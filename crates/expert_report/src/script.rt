//! A script cut into statements, and what binding makes of each.
ghost use Rattle.std.specs.Prelude.{◌≡◌, ◌<◌, ◌^◌, length, Some, false, IfOk};
ghost use Rattle.sql_tree.specs.Statements.{statement_tree};
ghost use Rattle.schema_model.specs.PlainSchemas.{plain_schema};
ghost use Rattle.sql_tokens.specs.Tokens.{tokens_of};
ghost use Rattle.sql_lex.specs.Statements.{statements_of};
ghost use Rattle.sql_bound.specs.Fits.{Fits};
ghost use Rattle.sql_bound.specs.Statements.{bound_of, needs_of};
ghost use Rattle.sql_bind.specs.Clauses.{sources_of};
ghost use Rattle.sql_bind.specs.Sources.{begins_left};
ghost use Rattle.plan_form.specs.Texts.{aliases_of};
ghost use Rattle.expert_advice.specs.Planned.{statement_of};
ghost use Rattle.expert_report.specs.Readings as meant;
ghost use Rattle.expert_report.specs.ReadStatements.{IsReady, reading};

use crate::faults::{bind_text, parse_text};
use bumpalo::Bump;
use schema_model::Schema;
use sql_bind::bind;
use sql_bound::Bound;
use sql_lex::{Spans, Token, Tokens, lex, statements, token_text};
use sql_parse::{parse, spelled_where_read};
use sql_tree::{Stmt, place};
use sql_value::{Bytes, Memory};
use std::alloc::Global;
use where_terms::{Terms, terms};

/// A statement that is bound, with its terms.
#[derive(Clone, Copy)]
pub(crate) struct BoundStatement<'a> {
    pub bound: &'a Bound<'a>,
    pub terms: Terms<'a>,
}

/// What binding makes of a statement.
#[derive(Drop)]
pub(crate) enum Reading<'a> {
    Bound(BoundStatement<'a>),
    /// Why it is refused.
    Refused(Bytes),
}

/// A statement whose names are bound.
fn bound_reading<'a>(
    alloc: Global,
    arena: &'a Bump,
    schema: &Schema,
    bound: &'a Bound<'a>,
) -> Result<Reading<'a>, Memory>
    requires { Fits (plain_schema schema.now) (bound_of bound.now) (needs_of bound.now) }
    ensures read { IfOk result (λ read. reading read
        ≡ meant.BoundTo (statement_of bound.now) (aliases_of bound.now.items.now)) }
    ensures ready { IfOk result (IsReady schema.now) }
{
    let terms = terms(alloc, arena, schema, bound)?;
    Ok(Reading::Bound(BoundStatement { bound, terms }))
}

/// A statement that the grammar spells.
fn tree_reading<'a>(
    alloc: Global,
    arena: &'a Bump,
    schema: &Schema,
    statement: &Stmt<'a>,
) -> Result<Reading<'a>, Memory>
    requires source { 0 < length (sources_of (statement_tree statement.now)) }
    requires first { begins_left (sources_of (statement_tree statement.now)) ≡ false }
    ensures read { IfOk result (λ read. reading read
        ≡ meant.tree_reading schema.now (Some (statement_tree statement.now))) }
    ensures ready { IfOk result (IsReady schema.now) }
{
    match bind(alloc, arena, schema, statement) {
        Ok(bound) => bound_reading(alloc, arena, schema, place(arena, bound)?),
        Err(fault) => Ok(Reading::Refused(bind_text(alloc, &fault)?)),
    }
}

/// A statement by its tokens.
pub(crate) fn run_reading<'a>(
    alloc: Global,
    arena: &'a Bump,
    schema: &Schema,
    text: &'a [u8],
    tokens: &[Token],
) -> Result<Reading<'a>, Memory>
    ensures read { IfOk result (λ read. reading read
        ≡ meant.reading_of schema.now text.now tokens.now) }
    ensures ready { IfOk result (IsReady schema.now) }
{
    spelled_where_read();
    if tokens.len() >= 1 << 32 {
        return Err(Memory);
    }
    match parse(alloc, arena, text, tokens) {
        Ok(statement) => tree_reading(alloc, arena, schema, &statement),
        Err(fault) => Ok(Reading::Refused(parse_text(alloc, fault)?)),
    }
}

/// The text of a run of tokens, from the first byte of the first one to the last byte of the last
/// one.
pub(crate) fn run_text<'t>(text: &'t [u8], tokens: &[Token]) -> &'t [u8]
    ensures { result.now ≡ meant.run_text text.now tokens.now }
{
    let [first, ..] = tokens else {
        return &[];
    };
    let last = tokens[tokens.len() - 1];
    token_text(
        text,
        Token {
            kind: first.kind,
            start: first.start,
            end: last.end,
        },
    )
}

/// A piece of a script: its tokens, and where its statements stand among them.
#[derive(Drop)]
pub(crate) struct CutPiece {
    pub tokens: Tokens,
    pub spans: Spans,
}

/// Cuts a piece of a script into statements.
pub(crate) fn cut_piece(alloc: Global, text: &[u8]) -> Result<CutPiece, Memory>
    requires { length text.now < 2 ^ 32 }
    ensures tokens { IfOk result (λ cut. cut.tokens ≡ tokens_of text.now) }
    ensures spans { IfOk result (λ cut. cut.spans
        ≡ statements_of text.now (tokens_of text.now)) }
{
    let tokens = lex(alloc, text)?;
    // Never so: each token has a byte at least.
    if tokens.as_slice().len() >= 1 << 32 {
        return Err(Memory);
    }
    let spans = statements(alloc, text, &tokens)?;
    Ok(CutPiece { tokens, spans })
}
