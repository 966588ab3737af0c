//! Entries of the lists of columns in keys and indexes.
ghost use Rattle.std.specs.Prelude.{◌≡◌, ◌+◌, ◌<◌, ◌==◌, ◌&&◌, map, length, ◌≤◌, IfOk};
ghost use Rattle.schema_text.specs.Cursor.{seen_named};
ghost use Rattle.schema_model.specs.Schemas.{column_limit};
ghost use Rattle.schema_text.specs.Entries as meant;

use crate::column_texts::{collation_at, collation_here};
use crate::cursor::{NameAndRest, after_word, first_name, past_word};
use schema_model::Columns;
use sql_tokens::{Token, token_value};
use sql_value::{Collation, Items, Memory, fold};
use std::alloc::Global;

/// An entry of a list: a column's name, an optional collation, and whether DESC stands behind.
#[derive(Clone, Copy)]
pub struct EntryText {
    pub name: Token,
    pub coll: Option<Token>,
    pub desc: bool,
}

/// A column of a key or an index, by its number; its collation is that of its table where none is
/// named.
#[derive(Clone, Copy)]
pub struct KeyColumn {
    pub column: u32,
    pub coll: Option<Collation>,
    pub desc: bool,
}

/// The tokens behind a COLLATE and its name.
fn past_collation<'t>(text: &[u8], tokens: &'t [Token]) -> &'t [Token]
    ensures { result.now ≡ meant.past_collation text.now tokens.now }
{
    match tokens {
        [_, _, rest @ ..] => {
            if collation_here(text, tokens).is_some() {
                rest
            } else {
                tokens
            }
        }
        _ => tokens,
    }
}

/// Whether the tokens begin with DESC.
pub(crate) fn begins_desc(text: &[u8], tokens: &[Token]) -> bool
    ensures { result ≡ meant.begins_desc text.now tokens.now }
{
    after_word(text, b"desc", tokens).is_some()
}

/// The tokens behind ASC or DESC, which may come first.
fn past_direction<'t>(text: &[u8], tokens: &'t [Token]) -> &'t [Token]
    ensures { result.now ≡ meant.past_direction text.now tokens.now }
{
    match after_word(text, b"asc", tokens) {
        Some(rest) => rest,
        None => past_word(text, b"desc", tokens),
    }
}

fn past_autoincrement<'t>(text: &[u8], may: bool, tokens: &'t [Token]) -> &'t [Token]
    ensures { result.now ≡ meant.past_autoincrement text.now may tokens.now }
{
    if may {
        past_word(text, b"autoincrement", tokens)
    } else {
        tokens
    }
}

/// The entry that a part of a list is, where it has the form of one. AUTOINCREMENT may end it where
/// that is told.
pub fn read_entry(text: &[u8], autoincrement: bool, part: &[Token]) -> Option<EntryText>
    ensures { result ≡ meant.entry_of text.now autoincrement part.now }
{
    let named = first_name(part)?;
    entry_behind(text, autoincrement, named)
}

fn entry_behind(text: &[u8], autoincrement: bool, named: NameAndRest) -> Option<EntryText>
    ensures { result ≡ meant.entry_after text.now autoincrement (seen_named named.entry) }
{
    let behind = past_collation(text, named.rest);
    match past_autoincrement(text, autoincrement, past_direction(text, behind)) {
        [] => Some(EntryText {
            name: named.name,
            coll: collation_here(text, named.rest),
            desc: begins_desc(text, behind),
        }),
        _ => None,
    }
}

/// The collation of an entry: none where it isn't known.
fn entry_collation(
    alloc: Global,
    text: &[u8],
    named: Option<Token>,
) -> Result<Option<Option<Collation>>, Memory>
    ensures { IfOk result (λ coll. coll ≡ meant.entry_collation text.now named) }
{
    match named {
        None => Ok(Some(None)),
        Some(token) => match collation_at(alloc, text, token)? {
            Some(coll) => Ok(Some(Some(coll))),
            None => Ok(None),
        },
    }
}

/// The column that an entry names: none where the column or the collation isn't known.
pub fn find_entry(
    alloc: Global,
    text: &[u8],
    columns: &Columns,
    entry: EntryText,
) -> Result<Option<KeyColumn>, Memory>
    requires { length columns.now ≤ column_limit }
    ensures { IfOk result (λ column. column ≡ meant.key_column text.now columns.now entry) }
{
    let name = token_value(alloc, text, entry.name)?;
    let folded = fold(alloc, name.as_slice())?;
    let Some(number) = columns.find(folded.as_slice()) else {
        return Ok(None);
    };
    let Some(coll) = entry_collation(alloc, text, entry.coll)? else {
        return Ok(None);
    };
    Ok(Some(KeyColumn {
        column: number as u32,
        coll,
        desc: entry.desc,
    }))
}

/// Whether AUTOINCREMENT may end an entry: where it may stand at all, in the last one.
fn may_end(autoincrement: bool, place: usize, count: usize) -> bool
    requires { place < count }
    ensures { result ≡ (autoincrement && (place + 1 == count)) }
{
    autoincrement && place + 1 == count
}

/// The entries of a list: none where a part has another form.
pub fn read_entries(
    alloc: Global,
    text: &[u8],
    autoincrement: bool,
    parts: &[&[Token]],
) -> Result<Option<Items<EntryText>>, Memory>
    ensures { IfOk result (λ entries. entries
        ≡ meant.entries_of text.now autoincrement (map (λ part. part.now) parts.now)) }
{
    let mut entries = Items::new(alloc);
    for (place, part) in parts.iter().enumerate() {
        match read_entry(text, may_end(autoincrement, place, parts.len()), part) {
            Some(entry) => entries.push(entry)?,
            None => return Ok(None),
        }
    }
    Ok(Some(entries))
}

/// The columns that the entries of a list name: none where one isn't known.
pub fn find_entries(
    alloc: Global,
    text: &[u8],
    columns: &Columns,
    entries: &[EntryText],
) -> Result<Option<Items<KeyColumn>>, Memory>
    requires { length columns.now ≤ column_limit }
    ensures { IfOk result (λ found. found ≡ meant.key_columns text.now columns.now entries.now) }
{
    let mut found = Items::new(alloc);
    for entry in entries {
        match find_entry(alloc, text, columns, *entry)? {
            Some(column) => found.push(column)?,
            None => return Ok(None),
        }
    }
    Ok(Some(found))
}
