//! A dump, statement by statement.
ghost use Rattle.std.specs.Prelude.{◌≡◌, ◌<◌, ◌≤◌, ◌^◌, length, fold, IfOk, IfErr, OnOk};
ghost use Rattle.std.specs.List.{AllByRecursion};
ghost use Rattle.sql_tokens.specs.Tokens.{tokens_of};
ghost use Rattle.sql_lex.specs.Statements.{statements_of};
ghost use Rattle.schema_model.specs.Databases.{IsDatabase};
ghost use Rattle.schema_model.specs.Schemas.{size};
ghost use Rattle.schema_model.specs.UsableIndexes.{IsEmptyUnlessUsable};
ghost use Rattle.schema_read.specs.Dumps as meant;

use crate::creates::{apply_index, apply_table, apply_unread};
use crate::inserts::{apply_insert, insert_head};
use crate::state::{State, has_room, pass_statement};
use schema_model::{GivenList, Schema, Tables};
use schema_text::{create_index_head, create_table_head, create_unread_head};
use sql_lex::{Span, Token, lex, run_tokens, statements};
use sql_value::Memory;
use std::alloc::Global;
use thiserror::Error;

/// How many tables a dump may name, read and unread together.
const TABLE_LIMIT: u64 = 1_000;

/// What a dump holds: its schema, the rows of the tables that are read, the figures of
/// `sqlite_stat1`, and how many statements and rows are passed over.
#[derive(Drop)]
pub struct Dump {
    pub schema: Schema,
    pub rows: Tables,
    pub given: GivenList,
    pub statements_passed: u64,
    pub rows_passed: u64,
}

/// Why a dump isn't read.
#[derive(Clone, Copy, Debug, PartialEq, Eq, Error)]
pub enum ReadDumpFault {
    /// It names more than 1,000 tables, read and unread together.
    #[error("too many tables")]
    TooManyTables,
    /// Want of memory.
    #[error("out of memory")]
    Memory,
}

impl From<Memory> for ReadDumpFault {
    ghost use Rattle.schema_read.specs.Faults.{IsMemory};

    ghost from_gives = { λ memory fault. IsMemory fault };

    fn from(_: Memory) -> ReadDumpFault {
        ReadDumpFault::Memory
    }
}

fn step_insert(
    alloc: Global,
    text: &[u8],
    state: &mut State,
    tokens: &[Token],
) -> Result<(), Memory>
    ensures { OnOk result (state.new ≡ meant.step_insert text.now state.old tokens.now) }
{
    match insert_head(text, tokens) {
        Some(head) => apply_insert(alloc, text, state, head),
        None => pass_statement(state),
    }
}

fn step_index(alloc: Global, text: &[u8], state: &mut State, tokens: &[Token]) -> Result<(), Memory>
    ensures { OnOk result (state.new ≡ meant.step_index text.now state.old tokens.now) }
{
    match create_index_head(text, tokens) {
        Some(head) => apply_index(alloc, text, state, head),
        None => step_insert(alloc, text, state, tokens),
    }
}

fn step_unread(
    alloc: Global,
    text: &[u8],
    state: &mut State,
    tokens: &[Token],
) -> Result<(), Memory>
    ensures { OnOk result (state.new ≡ meant.step_unread text.now state.old tokens.now) }
{
    match create_unread_head(text, tokens) {
        Some(named) => apply_unread(alloc, text, state, named),
        None => step_index(alloc, text, state, tokens),
    }
}

/// Does what a statement says, by the first rule that fits. A statement that fits none is counted.
fn step(alloc: Global, text: &[u8], state: &mut State, tokens: &[Token]) -> Result<(), Memory>
    ensures { OnOk result (state.new ≡ meant.step text.now state.old tokens.now) }
{
    match create_table_head(text, tokens) {
        Some(named) => apply_table(alloc, text, state, named),
        None => step_unread(alloc, text, state, tokens),
    }
}

/// What all statements make, one after another.
fn read_statements(
    alloc: Global,
    text: &[u8],
    tokens: &[Token],
    spans: &[Span],
) -> Result<State, Memory>
    ensures { IfOk result (λ state. state
        ≡ fold (meant.step_span text.now tokens.now) meant.empty spans.now) }
{
    let mut state = State::new(alloc)?;
    for span in spans {
        step(alloc, text, &mut state, run_tokens(tokens, *span))?;
    }
    Ok(state)
}

/// All statements of a text. The guards never hold: a token has a byte at least, and a statement a
/// token.
fn read_text(alloc: Global, text: &[u8]) -> Result<State, Memory>
    requires { length text.now < 2 ^ 32 }
    ensures same { IfOk result (λ state. state ≡ meant.dump_of text.now) }
    ensures few { IfOk result (λ state. length
        (statements_of text.now (tokens_of text.now)) < 2 ^ 32) }
{
    let tokens = lex(alloc, text)?;
    if tokens.as_slice().len() >= 1 << 32 {
        return Err(Memory);
    }
    let spans = statements(alloc, text, &tokens)?;
    if spans.as_slice().len() >= 1 << 32 {
        return Err(Memory);
    }
    read_statements(alloc, text, tokens.as_slice(), spans.as_slice())
}

fn finish(alloc: Global, state: State) -> Result<Dump, Memory>
    ensures { IfOk result (λ dump. meant.seen_dump dump ≡ state) }
{
    Ok(Dump {
        rows: state.rows.into_tables(alloc)?,
        schema: state.schema,
        given: state.given,
        statements_passed: state.statements_passed,
        rows_passed: state.rows_passed,
    })
}

fn table_total(schema: &Schema) -> u64
    ensures { result ≡ meant.table_total schema.now }
{
    schema.table_count() as u64 + schema.unread_count() as u64
}

/// Reads a dump, in one pass over its statements.
///
/// Its rows are a database of its schema: those of a table stand by rising rowid, each value is one
/// that its column's affinity leaves as it is, and the column that is the rowid holds it
/// (<https://sqlite.org/datatype3.html>, section 3; <https://sqlite.org/lang_createtable.html>,
/// "ROWIDs and the INTEGER PRIMARY KEY"). What is read and what is passed over is told in
/// docs/dumps.md. `Memory` comes too where tables, unread tables and indexes would be
/// 1,000,000,000.
pub fn read_dump(alloc: Global, text: &[u8]) -> Result<Dump, ReadDumpFault>
    requires { length text.now < 2 ^ 32 }
    ensures same { IfOk result (λ dump. meant.seen_dump dump ≡ meant.dump_of text.now) }
    ensures conforms { IfOk result (λ dump. IsDatabase dump.schema dump.rows) }
    ensures rows { IfOk result (λ dump. AllByRecursion (λ rows. length rows < 2 ^ 32) dump.rows) }
    ensures unusable { IfOk result (λ dump. AllByRecursion IsEmptyUnlessUsable
        dump.schema.indexes) }
    ensures few { IfOk result (λ dump. meant.table_total dump.schema ≤ meant.table_limit) }
    ensures room { IfOk result (λ dump. size dump.schema < 10 ^ 9) }
    ensures fault { IfErr result (meant.IsFaultOf (meant.dump_of text.now)) }
{
    let state = read_text(alloc, text)?;
    if table_total(&state.schema) > TABLE_LIMIT {
        return Err(ReadDumpFault::TooManyTables);
    }
    if !has_room(&state.schema) {
        return Err(ReadDumpFault::Memory);
    }
    let dump = finish(alloc, state)?;
    Ok(dump)
}
