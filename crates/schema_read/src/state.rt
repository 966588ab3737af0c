//! What is read so far.
ghost use Rattle.std.specs.Prelude.{◌≡◌, ◌<◌, ◌^◌, false, true, OnOk, IfOk};
ghost use Rattle.sql_meaning.specs.Letters.{folded_bytes};
ghost use Rattle.schema_model.specs.Schemas.{size, with_unread, is_taken};
ghost use Rattle.schema_read.specs.States as meant;

use crate::row_maps::RowMaps;
use schema_model::{GivenList, Schema, add_unread, name_taken};
use sql_value::{Bytes, Items, Memory, fold};
use std::alloc::Global;

/// What the statements so far have made.
#[derive(Drop)]
pub struct State {
    pub schema: Schema,
    pub rows: RowMaps,
    pub given: GivenList,
    pub statements_passed: u64,
    pub rows_passed: u64,
}

impl State {
    pub(crate) fn new(alloc: Global) -> Result<State, Memory>
        ensures { IfOk result (λ state. state ≡ meant.empty) }
    {
        Ok(State {
            schema: Schema::new(alloc)?,
            rows: RowMaps::new(alloc),
            given: Items::new(alloc),
            statements_passed: 0,
            rows_passed: 0,
        })
    }
}

/// Counts a statement that nothing is made of.
pub(crate) fn pass_statement(state: &mut State) -> Result<(), Memory>
    ensures { OnOk result (state.new ≡ meant.pass_statement state.old) }
{
    let Some(count) = state.statements_passed.checked_add(1) else {
        return Err(Memory);
    };
    state.statements_passed = count;
    Ok(())
}

/// Counts a row that isn't kept.
pub(crate) fn pass_row(state: &mut State) -> Result<(), Memory>
    ensures { OnOk result (state.new ≡ meant.pass_row state.old) }
{
    let Some(count) = state.rows_passed.checked_add(1) else {
        return Err(Memory);
    };
    state.rows_passed = count;
    Ok(())
}

/// Whether a schema may grow: one of 1,000,000,000 tables and indexes would want more memory than
/// there is.
pub(crate) fn has_room(schema: &Schema) -> bool
    ensures { result ≡ true → size schema.now < 10 ^ 9 }
{
    let tables = schema.table_count() as u64 + schema.unread_count() as u64;
    tables + (schema.index_count() as u64) < 1_000_000_000
}

/// Whether a name can't be given to what is new: it is taken, or begins with `sqlite_`.
pub(crate) fn is_refused(alloc: Global, schema: &Schema, name: &[u8]) -> Result<bool, Memory>
    ensures { IfOk result (λ refused. refused ≡ meant.is_refused schema.now name.now) }
{
    let folded = fold(alloc, name)?;
    Ok(is_own_name(folded.as_slice()) || name_taken(schema, folded.as_slice()))
}

fn is_own_name(folded: &[u8]) -> bool
    ensures { result ≡ meant.is_own_name folded.now }
{
    folded.starts_with(b"sqlite_")
}

/// Adds a table that isn't read.
pub(crate) fn add_unread_name(alloc: Global, schema: &mut Schema, name: Bytes) -> Result<(), Memory>
    requires { is_taken schema.old (folded_bytes name) ≡ false }
    ensures { OnOk result (schema.new ≡ with_unread schema.old name) }
{
    if !has_room(schema) {
        return Err(Memory);
    }
    add_unread(alloc, schema, name)
}
