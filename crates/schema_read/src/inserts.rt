//! INSERT statements.
ghost use Rattle.std.specs.Prelude.{◌≡◌, [], map, option_map, slice_set, OnOk, IfOk};
ghost use Rattle.sql_value.specs.View.{plain_value};
ghost use Rattle.schema_text.specs.Cursor.{seen_named};
ghost use Rattle.schema_read.specs.Inserts as meant;

use crate::entries::{entry_value, row_values};
use crate::state::{State, pass_row, pass_statement};
use schema_model::{Found, Given, find_table};
use schema_text::{NameAndRest, after_word, cut_at_commas, first_enclosed, first_name};
use sql_tokens::{Token, token_value};
use sql_value::{Bytes, Memory, Value, fold, is_same_word};
use std::alloc::Global;

/// The table and the list of `INSERT INTO .. VALUES (..)`.
#[derive(Clone, Copy)]
pub(crate) struct InsertHead<'t> {
    pub table: Token,
    pub list: &'t [Token],
}

/// What INSERT says, in the one form that a dump has it.
pub(crate) fn insert_head<'t>(text: &[u8], tokens: &'t [Token]) -> Option<InsertHead<'t>>
    ensures { option_map meant.seen_insert result ≡ meant.insert_head text.now tokens.now }
{
    let behind_insert = after_word(text, b"insert", tokens)?;
    let behind_into = after_word(text, b"into", behind_insert)?;
    let table = first_name(behind_into)?;
    values_of(text, table)
}

fn values_of<'t>(text: &[u8], table: NameAndRest<'t>) -> Option<InsertHead<'t>>
    ensures { option_map meant.seen_insert result
        ≡ meant.values_of text.now (seen_named table.entry) }
{
    let behind_values = after_word(text, b"values", table.rest)?;
    let enclosed = first_enclosed(text, behind_values)?;
    match enclosed.rest {
        [] => Some(InsertHead {
            table: table.name,
            list: enclosed.inside,
        }),
        _ => None,
    }
}

/// The entries of a list, which may be empty.
fn entries_of<'t>(alloc: Global, text: &[u8], list: &'t [Token]) -> Result<Vec<&'t [Token]>, Memory>
    ensures { IfOk result (λ parts. map (λ part. part.now) parts.items
        ≡ meant.entries_of text.now list.now) }
{
    if list.is_empty() {
        return Ok(Vec::new(alloc));
    }
    cut_at_commas(alloc, text, list)
}

/// The rowid that a value of the alias column gives: none for what is neither a whole number nor
/// NULL.
fn given_rowid(value: &Value, next: Option<i64>) -> Option<i64>
    ensures { result ≡ meant.given_rowid (plain_value value.now) next }
{
    match value {
        Value::Int(rowid) => Some(*rowid),
        Value::Null => next,
        _ => None,
    }
}

/// The rowid of a row: its alias column's, and else the next one.
fn rowid_of(alias: Option<u32>, values: &[Value], next: Option<i64>) -> Option<i64>
    ensures { result ≡ meant.rowid_of alias (map plain_value values.now) next }
{
    match alias {
        None => next,
        Some(number) => match values.get(number as usize) {
            Some(value) => given_rowid(value, next),
            None => None,
        },
    }
}

/// The values with another one at a place, where there is one.
fn put_value(values: Vec<Value>, place: usize, value: Value) -> Vec<Value>
    ensures { result.items ≡ slice_set values.items place value }
{
    let mut values = values;
    if place < values.as_slice().len() {
        values[place] = value;
    }
    values
}

/// The alias column holds the rowid.
fn with_rowid(alias: Option<u32>, values: Vec<Value>, rowid: i64) -> Vec<Value>
    ensures { map plain_value result.items
        ≡ meant.with_rowid alias (map plain_value values.items) rowid }
{
    match alias {
        Some(number) => put_value(values, number as usize, Value::Int(rowid)),
        None => values,
    }
}

/// Adds a row, or counts one that isn't kept: where no rowid is left or given, or its rowid is
/// there.
fn place_row(
    state: &mut State,
    table: u32,
    alias: Option<u32>,
    values: Vec<Value>,
) -> Result<(), Memory>
    ensures { OnOk result (state.new ≡ meant.place_row state.old table alias
        (map plain_value values.items)) }
{
    let next = state.rows.next_rowid(table);
    let Some(rowid) = rowid_of(alias, values.as_slice(), next) else {
        return pass_row(state);
    };
    if state.rows.has(table, rowid) {
        return pass_row(state);
    }
    state
        .rows
        .insert(table, rowid, with_rowid(alias, values, rowid))
}

/// Adds the row of an INSERT into the table of a number.
fn insert_row(
    alloc: Global,
    text: &[u8],
    state: &mut State,
    number: u32,
    parts: &[&[Token]],
) -> Result<(), Memory>
    ensures { OnOk result (state.new ≡ meant.insert_row text.now state.old number
        (map (λ part. part.now) parts.now)) }
{
    if number >= state.schema.table_count() {
        return Ok(());
    }
    let table = state.schema.table(number);
    let alias = table.alias;
    match row_values(alloc, text, table.columns.as_slice(), parts)? {
        Some(values) => place_row(state, number, alias, values),
        None => pass_row(state),
    }
}

/// The text that an entry is, if it is one.
fn text_entry(alloc: Global, text: &[u8], part: &[Token]) -> Result<Option<Bytes>, Memory>
    ensures { IfOk result (λ bytes. bytes ≡ meant.text_entry text.now part.now) }
{
    match entry_value(alloc, text, part)? {
        Some(Value::Text(bytes)) => Ok(Some(bytes)),
        _ => Ok(None),
    }
}

/// The text or NULL that an entry is, if it is either.
fn optional_text_entry(
    alloc: Global,
    text: &[u8],
    part: &[Token],
) -> Result<Option<Option<Bytes>>, Memory>
    ensures { IfOk result (λ bytes. bytes ≡ meant.optional_text_entry text.now part.now) }
{
    match entry_value(alloc, text, part)? {
        Some(Value::Text(bytes)) => Ok(Some(Some(bytes))),
        Some(Value::Null) => Ok(Some(None)),
        _ => Ok(None),
    }
}

/// The figures that three entries are: a text, a text or NULL, and a text.
fn read_given(alloc: Global, text: &[u8], parts: &[&[Token]]) -> Result<Option<Given>, Memory>
    ensures { IfOk result (λ given. given
        ≡ meant.given_of text.now (map (λ part. part.now) parts.now)) }
{
    match parts {
        [first, second, third] => read_three(alloc, text, first, second, third),
        _ => Ok(None),
    }
}

fn read_three(
    alloc: Global,
    text: &[u8],
    first: &[Token],
    second: &[Token],
    third: &[Token],
) -> Result<Option<Given>, Memory>
    ensures { IfOk result (λ given. given
        ≡ meant.given_of_three text.now first.now second.now third.now) }
{
    let Some(table) = text_entry(alloc, text, first)? else {
        return Ok(None);
    };
    let Some(index) = optional_text_entry(alloc, text, second)? else {
        return Ok(None);
    };
    let Some(stat) = text_entry(alloc, text, third)? else {
        return Ok(None);
    };
    Ok(Some(Given { table, index, stat }))
}

/// Keeps the figures of an INSERT into `sqlite_stat1`; any other INSERT into a table that isn't
/// read is passed over.
fn insert_other(
    alloc: Global,
    text: &[u8],
    state: &mut State,
    folded: &[u8],
    parts: &[&[Token]],
) -> Result<(), Memory>
    ensures { OnOk result (state.new ≡ meant.insert_other text.now state.old folded.now
        (map (λ part. part.now) parts.now)) }
{
    if !is_figures_name(folded) {
        return pass_statement(state);
    }
    match read_given(alloc, text, parts)? {
        Some(given) => state.given.push(given),
        None => pass_statement(state),
    }
}

fn is_figures_name(folded: &[u8]) -> bool
    ensures { result ≡ meant.is_figures_name folded.now }
{
    is_same_word(folded, b"sqlite_stat1")
}

/// Does what an INSERT says (<https://sqlite.org/lang_insert.html>).
pub(crate) fn apply_insert(
    alloc: Global,
    text: &[u8],
    state: &mut State,
    head: InsertHead,
) -> Result<(), Memory>
    ensures { OnOk result (state.new ≡ meant.apply_insert text.now state.old
        (meant.seen_insert head.entry)) }
{
    let name = token_value(alloc, text, head.table)?;
    let folded = fold(alloc, name.as_slice())?;
    let parts = entries_of(alloc, text, head.list)?;
    match find_table(&state.schema, folded.as_slice()) {
        Found::Read(number) => insert_row(alloc, text, state, number, parts.as_slice()),
        _ => insert_other(alloc, text, state, folded.as_slice(), parts.as_slice()),
    }
}
