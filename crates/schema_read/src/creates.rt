//! CREATE statements.
ghost use Rattle.std.specs.Prelude.{◌≡◌, false, IfOk, OnOk};
ghost use Rattle.schema_model.specs.Schemas.{IsTable};
ghost use Rattle.schema_text.specs.Cursor.{seen_named};
ghost use Rattle.schema_text.specs.Heads.{seen_index_head};
ghost use Rattle.schema_read.specs.States.{is_refused};
ghost use Rattle.schema_read.specs.Creates as meant;

use crate::autoindexes::{add_autoindexes, add_sound_index, index_columns};
use crate::state::{State, add_unread_name, has_room, is_refused, pass_statement};
use schema_model::{
    COLUMN_LIMIT, Columns, Found, Index, IndexColumns, add_table, find_table, name_taken,
};
use schema_text::{
    IndexHead, NameAndRest, TableText, cut_at_commas, find_entries, read_entries, read_table,
};
use sql_tokens::{Token, token_value};
use sql_value::{Bytes, Items, Memory, fold};
use std::alloc::Global;

/// Adds a table that is read, with the indexes of its keys. Its name is free.
fn keep_table(alloc: Global, state: &mut State, made: TableText) -> Result<(), Memory>
    requires { IsTable made.table }
    ensures { OnOk result (state.new ≡ meant.keep_table state.old made) }
{
    let folded = fold(alloc, made.table.name.as_slice())?;
    if !has_room(&state.schema) || name_taken(&state.schema, folded.as_slice()) {
        return Err(Memory);
    }
    let TableText { table, keys } = made;
    let number = state.schema.table_count();
    state.rows.add_table(alloc)?;
    add_table(alloc, &mut state.schema, table)?;
    add_autoindexes(alloc, &mut state.schema, number, keys.as_slice())
}

/// Adds a table under a name that isn't refused: one that is read, or its name alone.
fn create_named(
    alloc: Global,
    text: &[u8],
    state: &mut State,
    name: Bytes,
    named: NameAndRest,
) -> Result<(), Memory>
    requires { is_refused state.old.schema name ≡ false }
    ensures { OnOk result (state.new ≡ meant.create_named text.now state.old name
        (seen_named named.entry)) }
{
    match read_table(alloc, text, named)? {
        Some(made) => keep_table(alloc, state, made),
        None => add_unread_name(alloc, &mut state.schema, name),
    }
}

/// Does what CREATE TABLE says, from its name on.
pub(crate) fn apply_table(
    alloc: Global,
    text: &[u8],
    state: &mut State,
    named: NameAndRest,
) -> Result<(), Memory>
    ensures { OnOk result (state.new ≡ meant.apply_table text.now state.old
        (seen_named named.entry)) }
{
    let name = token_value(alloc, text, named.name)?;
    if is_refused(alloc, &state.schema, name.as_slice())? {
        return pass_statement(state);
    }
    create_named(alloc, text, state, name, named)
}

/// Does what CREATE VIEW or CREATE VIRTUAL TABLE says: its name is that of a table that isn't read.
pub(crate) fn apply_unread(
    alloc: Global,
    text: &[u8],
    state: &mut State,
    named: NameAndRest,
) -> Result<(), Memory>
    ensures { OnOk result (state.new ≡ meant.apply_unread text.now state.old
        (seen_named named.entry)) }
{
    let name = token_value(alloc, text, named.name)?;
    if is_refused(alloc, &state.schema, name.as_slice())? {
        return pass_statement(state);
    }
    add_unread_name(alloc, &mut state.schema, name)
}

/// The columns of an index: none where an entry is no column that is known.
fn listed_columns(
    alloc: Global,
    text: &[u8],
    columns: &Columns,
    list: &[Token],
) -> Result<Option<IndexColumns>, Memory>
    ensures { IfOk result (λ found. found ≡ meant.listed_columns text.now columns.now list.now) }
{
    if columns.as_slice().len() > COLUMN_LIMIT {
        return Err(Memory);
    }
    let parts = cut_at_commas(alloc, text, list)?;
    let Some(entries) = read_entries(alloc, text, false, parts.as_slice())? else {
        return Ok(None);
    };
    let Some(found) = find_entries(alloc, text, columns, entries.as_slice())? else {
        return Ok(None);
    };
    Ok(Some(index_columns(alloc, columns.as_slice(), found.as_slice())?))
}

/// The columns of an index that a plan may use: none where it lacks rows, or is on expressions.
fn usable_columns(
    alloc: Global,
    text: &[u8],
    columns: &Columns,
    head: IndexHead,
) -> Result<Option<IndexColumns>, Memory>
    ensures { IfOk result (λ found. found
        ≡ meant.usable_columns text.now columns.now (seen_index_head head.entry)) }
{
    if head.partial {
        return Ok(None);
    }
    listed_columns(alloc, text, columns, head.list)
}

fn index_made(
    alloc: Global,
    name: Bytes,
    table: u32,
    unique: bool,
    columns: Option<IndexColumns>,
) -> Index
    ensures { result ≡ meant.index_made name table unique columns }
{
    match columns {
        Some(columns) => Index {
            name,
            table,
            columns,
            unique,
            usable: true,
        },
        None => Index {
            name,
            table,
            columns: Items::new(alloc),
            unique,
            usable: false,
        },
    }
}

/// Adds an index to the table of a number.
fn keep_index(
    alloc: Global,
    text: &[u8],
    state: &mut State,
    number: u32,
    head: IndexHead,
) -> Result<(), Memory>
    ensures { OnOk result (state.new ≡ meant.keep_index text.now state.old number
        (seen_index_head head.entry)) }
{
    let name = token_value(alloc, text, head.name)?;
    if is_refused(alloc, &state.schema, name.as_slice())? {
        return pass_statement(state);
    }
    if number >= state.schema.table_count() {
        return Ok(());
    }
    let table = state.schema.table(number);
    let columns = usable_columns(alloc, text, &table.columns, head)?;
    let index = index_made(alloc, name, number, head.unique, columns);
    add_sound_index(alloc, &mut state.schema, index)
}

/// Does what CREATE INDEX says.
pub(crate) fn apply_index(
    alloc: Global,
    text: &[u8],
    state: &mut State,
    head: IndexHead,
) -> Result<(), Memory>
    ensures { OnOk result (state.new ≡ meant.apply_index text.now state.old
        (seen_index_head head.entry)) }
{
    let table = token_value(alloc, text, head.table)?;
    let folded = fold(alloc, table.as_slice())?;
    match find_table(&state.schema, folded.as_slice()) {
        Found::Read(number) => keep_index(alloc, text, state, number, head),
        _ => pass_statement(state),
    }
}
