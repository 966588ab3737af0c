//! CREATE TABLE from its name on.
ghost use Rattle.std.specs.Prelude.{◌≡◌, ◌++◌, map, count_by, true, Some, None, OnOk, IfOk};
ghost use Rattle.std.specs.Prelude.{if◌then◌else◌};
ghost use Rattle.std.specs.List.{list_all};
ghost use Rattle.schema_text.specs.Cursor.{seen_named};
ghost use Rattle.schema_model.specs.Schemas.{IsTable, IsWithinOption};
ghost use Rattle.schema_text.specs.TableFacts.{AreColumns, IsSoundOption};
ghost use Rattle.schema_text.specs.TableTexts as meant;

use crate::column_texts::{declared_type, read_column};
use crate::cursor::NameAndRest;
use crate::entries::KeyColumn;
use crate::groups::{cut_at_commas, first_enclosed};
use crate::keys::{KeyConstraint, behind_name, is_constraint, read_keys};
use crate::words::is_word;
use schema_model::{COLUMN_LIMIT, Column, Columns, Table};
use sql_tokens::{Token, token_value};
use sql_value::{Items, Memory, fold, is_same_word};
use std::alloc::Global;

/// A table as CREATE TABLE has it, with its keys in the order of the text.
#[derive(Drop)]
pub struct TableText {
    pub table: Table,
    pub keys: Items<KeyConstraint>,
}

/// Appends a column, unless there are 2,000 or one of its name is there.
fn add_column(alloc: Global, columns: &mut Columns, column: Column) -> Result<bool, Memory>
    ensures { IfOk result (λ added. (if added then Some columns.new else None)
        ≡ meant.with_column columns.old column) }
{
    let folded = fold(alloc, column.name.as_slice())?;
    if columns.as_slice().len() >= COLUMN_LIMIT || columns.find(folded.as_slice()).is_some() {
        return Ok(false);
    }
    columns.push(column)?;
    Ok(true)
}

/// Appends the column that an item is, if it is one. False where the table isn't read for it.
fn add_item(
    alloc: Global,
    text: &[u8],
    columns: &mut Columns,
    item: &[Token],
) -> Result<bool, Memory>
    ensures { IfOk result (λ added. (if added then Some columns.new else None)
        ≡ meant.with_item text.now columns.old item.now) }
{
    if is_constraint(text, item) {
        return Ok(true);
    }
    match read_column(alloc, text, item)? {
        Some(column) => add_column(alloc, columns, column),
        None => Ok(false),
    }
}

/// The columns of a table: none where it isn't read for one of them.
fn read_columns(alloc: Global, text: &[u8], items: &[&[Token]]) -> Result<Option<Columns>, Memory>
    ensures { IfOk result (λ columns. columns
        ≡ meant.columns_of text.now (map (λ item. item.now) items.now)) }
{
    let mut columns = Columns::new(alloc);
    for item in items {
        if !add_item(alloc, text, &mut columns, item)? {
            return Ok(None);
        }
    }
    Ok(Some(columns))
}

/// Whether the type of a column is this word.
fn is_of_type(text: &[u8], name: &[u8], item: &[Token]) -> bool
    ensures { result ≡ meant.is_of_type text.now name.now item.now }
{
    is_same_word(declared_type(text, behind_name(item)), name)
}

/// For each column whether its type is exactly INTEGER.
fn integer_flags(alloc: Global, text: &[u8], items: &[&[Token]]) -> Result<Items<bool>, Memory>
    ensures { IfOk result (λ flags. flags
        ≡ meant.integer_flags text.now (map (λ item. item.now) items.now)) }
{
    let mut flags = Items::new(alloc);
    for item in items {
        append_flag(text, item, &mut flags)?;
    }
    Ok(flags)
}

fn append_flag(text: &[u8], item: &[Token], flags: &mut Items<bool>) -> Result<(), Memory>
    ensures { OnOk result (flags.new ≡ flags.old ++ meant.integer_flag text.now item.now) }
{
    if is_constraint(text, item) {
        Ok(())
    } else {
        flags.push(is_of_type(text, b"integer", item))
    }
}

/// Whether an item is a column of type ANY.
fn is_any(text: &[u8], item: &[Token]) -> bool
    ensures { result ≡ meant.is_any text.now item.now }
{
    !is_constraint(text, item) && is_of_type(text, b"any", item)
}

fn has_any(text: &[u8], items: &[&[Token]]) -> bool
    ensures { result ≡ meant.has_any text.now (map (λ item. item.now) items.now) }
{
    for item in items {
        if is_any(text, item) {
            return true;
        }
    }
    false
}

fn is_strict(text: &[u8], part: &[Token]) -> bool
    ensures { result ≡ meant.is_strict text.now part.now }
{
    match part {
        [only] => is_word(text, b"strict", *only),
        _ => false,
    }
}

fn are_strict(text: &[u8], parts: &[&[Token]]) -> bool
    ensures { result ≡ list_all (meant.is_strict text.now) (map (λ part. part.now) parts.now) }
{
    for part in parts {
        if !is_strict(text, part) {
            return false;
        }
    }
    true
}

/// Whether the table is STRICT (<https://sqlite.org/stricttables.html>); none where any other
/// option stands behind its columns.
fn table_options(alloc: Global, text: &[u8], tokens: &[Token]) -> Result<Option<bool>, Memory>
    ensures { IfOk result (λ strict. strict ≡ meant.table_options text.now tokens.now) }
{
    if tokens.is_empty() {
        return Ok(Some(false));
    }
    let parts = cut_at_commas(alloc, text, tokens)?;
    if are_strict(text, parts.as_slice()) {
        Ok(Some(true))
    } else {
        Ok(None)
    }
}

fn flag_at(flags: &[bool], number: u32) -> bool
    ensures { result ≡ meant.flag_at flags.now number }
{
    match flags.get(number as usize) {
        Some(flag) => *flag,
        None => false,
    }
}

fn alias_column(flags: &[bool], own: bool, column: KeyColumn) -> Option<u32>
    ensures { result ≡ meant.alias_column flags.now own column }
{
    if flag_at(flags, column.column) && !(own && column.desc) {
        Some(column.column)
    } else {
        None
    }
}

/// The column that a key makes the rowid, if it does
/// (<https://sqlite.org/lang_createtable.html>, "ROWIDs and the INTEGER PRIMARY KEY").
fn alias_of_key(flags: &[bool], key: &KeyConstraint) -> Option<u32>
    ensures { result ≡ meant.alias_of_key flags.now key.now }
{
    if !key.primary {
        return None;
    }
    match key.columns.as_slice() {
        [column] => alias_column(flags, key.own, *column),
        _ => None,
    }
}

/// The column that is the rowid, if one is.
fn alias_of(flags: &[bool], keys: &[KeyConstraint]) -> Option<u32>
    ensures { result ≡ meant.alias_of flags.now keys.now }
{
    for key in keys {
        let alias = alias_of_key(flags, key);
        if alias.is_some() {
            return alias;
        }
    }
    None
}

fn primary_count(keys: &[KeyConstraint]) -> usize
    ensures { result ≡ count_by (λ key. key.primary) keys.now }
{
    keys.iter().filter(|key| key.primary).count()
}

fn with_alias(columns: Columns, alias: Option<u32>) -> Columns
    ensures { result ≡ meant.with_alias columns alias }
{
    let mut columns = columns;
    match alias {
        Some(number) => {
            columns.make_rowid(number as usize);
            columns
        }
        None => columns,
    }
}

/// The table of columns that are sound, with its keys. The guard never holds: the alias is one of
/// the columns.
fn finish_table(
    alloc: Global,
    text: &[u8],
    name: Token,
    columns: Columns,
    alias: Option<u32>,
    keys: Items<KeyConstraint>,
) -> Result<TableText, Memory>
    requires { AreColumns columns }
    ensures same { IfOk result (λ table. table
        ≡ meant.made_table text.now name columns keys alias) }
    ensures sound { IfOk result (λ table. IsTable table.table) }
{
    if !is_within(alias, columns.as_slice().len()) {
        return Err(Memory);
    }
    Ok(TableText {
        table: Table {
            name: token_value(alloc, text, name)?,
            columns: with_alias(columns, alias),
            alias,
        },
        keys,
    })
}

fn is_within(alias: Option<u32>, count: usize) -> bool
    ensures { result ≡ true → IsWithinOption alias count }
{
    match alias {
        Some(number) => (number as usize) < count,
        None => true,
    }
}

/// The table of these items: none where it isn't read.
fn read_items(
    alloc: Global,
    text: &[u8],
    name: Token,
    strict: bool,
    items: &[&[Token]],
) -> Result<Option<TableText>, Memory>
    ensures same { IfOk result (λ table. table
        ≡ meant.table_of_items text.now name strict (map (λ item. item.now) items.now)) }
    ensures sound { IfOk result IsSoundOption }
{
    if items.len() >= 1 << 32 {
        return Err(Memory);
    }
    let Some(columns) = read_columns(alloc, text, items)? else {
        return Ok(None);
    };
    if strict && has_any(text, items) {
        return Ok(None);
    }
    let Some(keys) = read_keys(alloc, text, &columns, items)? else {
        return Ok(None);
    };
    if primary_count(keys.as_slice()) > 1 {
        return Ok(None);
    }
    let flags = integer_flags(alloc, text, items)?;
    let alias = alias_of(flags.as_slice(), keys.as_slice());
    let table = finish_table(alloc, text, name, columns, alias, keys)?;
    Ok(Some(table))
}

/// The table that CREATE TABLE makes, from its name on: none where its form isn't read
/// (<https://sqlite.org/lang_createtable.html>).
pub fn read_table(
    alloc: Global,
    text: &[u8],
    named: NameAndRest,
) -> Result<Option<TableText>, Memory>
    ensures same { IfOk result (λ table. table ≡ meant.table_of text.now (seen_named named.entry)) }
    ensures sound { IfOk result IsSoundOption }
{
    let Some(enclosed) = first_enclosed(text, named.rest) else {
        return Ok(None);
    };
    let Some(strict) = table_options(alloc, text, enclosed.rest)? else {
        return Ok(None);
    };
    let items = cut_at_commas(alloc, text, enclosed.inside)?;
    read_items(alloc, text, named.name, strict, items.as_slice())
}
