//! PRIMARY KEY and UNIQUE, of a column or of a table.
ghost use Rattle.std.specs.Prelude.{◌≡◌, ◌+◌, ◌<◌, ◌≤◌, ◌^◌, ◌++◌, ◌-◌, length, map, option_map};
ghost use Rattle.std.specs.Prelude.{Some, None, OnOk, IfOk, if◌then◌else◌};
ghost use Rattle.schema_model.specs.Schemas.{column_limit};
ghost use Rattle.schema_text.specs.Keys as meant;

use crate::column_texts::column_rest;
use crate::cursor::{after_word, tokens_from};
use crate::entries::{KeyColumn, begins_desc, find_entries, read_entries};
use crate::groups::{cut_at_commas, first_enclosed, next_level};
use crate::words::{is_name, is_word};
use schema_model::Columns;
use sql_tokens::{Terminal, Token, terminal_at};
use sql_value::{Items, Keyword, Memory};
use std::alloc::Global;

/// A PRIMARY KEY or a UNIQUE.
#[derive(Drop)]
pub struct KeyConstraint {
    /// Whether it is a PRIMARY KEY.
    pub primary: bool,
    /// Whether it stands at its column.
    pub own: bool,
    pub columns: Items<KeyColumn>,
}

/// What stands at a column: PRIMARY KEY, with DESC or not, or UNIQUE.
#[derive(Clone, Copy)]
pub struct KeyMark {
    pub primary: bool,
    pub desc: bool,
}

/// The PRIMARY KEY or UNIQUE with which the tokens begin.
fn key_mark(text: &[u8], tokens: &[Token]) -> Option<KeyMark>
    ensures { result ≡ meant.key_mark text.now tokens.now }
{
    match tokens {
        [first, rest @ ..] => {
            if is_word(text, b"primary", *first) {
                primary_mark(text, rest)
            } else if is_word(text, b"unique", *first) {
                Some(KeyMark {
                    primary: false,
                    desc: false,
                })
            } else {
                None
            }
        }
        [] => None,
    }
}

fn primary_mark(text: &[u8], behind_primary: &[Token]) -> Option<KeyMark>
    ensures { result ≡ meant.primary_mark text.now behind_primary.now }
{
    let rest = after_word(text, b"key", behind_primary)?;
    Some(KeyMark {
        primary: true,
        desc: begins_desc(text, rest),
    })
}

/// Appends the key of a column with which the tokens begin, where no parenthesis is open.
fn append_own_key(
    alloc: Global,
    text: &[u8],
    number: u32,
    level: usize,
    tokens: &[Token],
    keys: &mut Items<KeyConstraint>,
) -> Result<(), Memory>
    ensures { OnOk result (keys.new ≡ keys.old ++ meant.own_key text.now number level tokens.now) }
{
    if level > 0 {
        return Ok(());
    }
    let Some(mark) = key_mark(text, tokens) else {
        return Ok(());
    };
    let mut columns = Items::new(alloc);
    columns.push(KeyColumn {
        column: number,
        coll: None,
        desc: mark.desc,
    })?;
    keys.push(KeyConstraint {
        primary: mark.primary,
        own: true,
        columns,
    })
}

/// Appends the keys that stand behind a column's type, outside parentheses.
fn append_own_keys(
    alloc: Global,
    text: &[u8],
    number: u32,
    rest: &[Token],
    keys: &mut Items<KeyConstraint>,
) -> Result<(), Memory>
    ensures { OnOk result (keys.new ≡ keys.old ++ meant.own_keys text.now number 0 rest.now) }
{
    let mut level = 0;
    for (place, token) in rest.iter().enumerate() {
        append_own_key(alloc, text, number, level, tokens_from(rest, place), keys)?;
        level = next_level(text, level, *token);
    }
    Ok(())
}

/// Whether an item of CREATE TABLE is a constraint of the table.
pub fn is_constraint(text: &[u8], item: &[Token]) -> bool
    ensures { result ≡ meant.is_constraint text.now item.now }
{
    match item {
        [first, ..] => match terminal_at(text, *first) {
            Terminal::Keyword(keyword) => is_constraint_word(keyword),
            _ => false,
        },
        [] => false,
    }
}

fn is_constraint_word(keyword: Keyword) -> bool
    ensures { result ≡ meant.is_constraint_word keyword }
{
    match keyword {
        Keyword::Constraint
        | Keyword::Primary
        | Keyword::Unique
        | Keyword::Check
        | Keyword::Foreign => true,
        _ => false,
    }
}

/// The tokens behind CONSTRAINT and a name, which may come first.
fn past_constraint_name<'t>(text: &[u8], item: &'t [Token]) -> &'t [Token]
    ensures { result.now ≡ meant.past_constraint_name text.now item.now }
{
    match item {
        [first, second, rest @ ..] => {
            if is_word(text, b"constraint", *first) && is_name(*second) {
                rest
            } else {
                item
            }
        }
        _ => item,
    }
}

/// A constraint with a list: whether it is a PRIMARY KEY, and what stands in the parentheses.
#[derive(Clone, Copy)]
pub struct KeyList<'t> {
    pub primary: bool,
    pub list: &'t [Token],
}

fn after_primary_key<'t>(text: &[u8], tokens: &'t [Token]) -> Option<&'t [Token]>
    ensures { option_map (λ rest. rest.now) result ≡ meant.after_primary_key text.now tokens.now }
{
    let rest = after_word(text, b"primary", tokens)?;
    after_word(text, b"key", rest)
}

fn list_behind<'t>(text: &[u8], primary: bool, tokens: &'t [Token]) -> Option<KeyList<'t>>
    ensures { option_map meant.seen_key_list result
        ≡ meant.list_behind text.now primary tokens.now }
{
    let enclosed = first_enclosed(text, tokens)?;
    Some(KeyList {
        primary,
        list: enclosed.inside,
    })
}

/// The list of PRIMARY KEY or UNIQUE with which a constraint of a table begins.
fn key_list<'t>(text: &[u8], tokens: &'t [Token]) -> Option<KeyList<'t>>
    ensures { option_map meant.seen_key_list result ≡ meant.key_list text.now tokens.now }
{
    match after_primary_key(text, tokens) {
        Some(rest) => list_behind(text, true, rest),
        None => {
            let rest = after_word(text, b"unique", tokens)?;
            list_behind(text, false, rest)
        }
    }
}

/// Appends the key of a table's constraint, where it is one that counts. False where a column or a
/// collation in it isn't known, so that its table isn't read.
fn append_table_key(
    alloc: Global,
    text: &[u8],
    columns: &Columns,
    item: &[Token],
    keys: &mut Items<KeyConstraint>,
) -> Result<bool, Memory>
    requires { length columns.now ≤ column_limit }
    ensures { IfOk result (λ known. (if known then Some keys.new else None) ≡ option_map
        (λ added. keys.old ++ added) (meant.table_keys text.now columns.now item.now)) }
{
    let Some(front) = key_list(text, past_constraint_name(text, item)) else {
        return Ok(true);
    };
    let parts = cut_at_commas(alloc, text, front.list)?;
    let Some(entries) = read_entries(alloc, text, front.primary, parts.as_slice())? else {
        return Ok(true);
    };
    let Some(found) = find_entries(alloc, text, columns, entries.as_slice())? else {
        return Ok(false);
    };
    keys.push(KeyConstraint {
        primary: front.primary,
        own: false,
        columns: found,
    })?;
    Ok(true)
}

/// What stands behind a column's name.
pub fn behind_name(item: &[Token]) -> &[Token]
    ensures { result.now ≡ meant.behind_name item.now }
{
    match item {
        [_, rest @ ..] => rest,
        [] => item,
    }
}

/// Appends the keys of an item of CREATE TABLE; `number` is that of the next column.
fn append_item_keys(
    alloc: Global,
    text: &[u8],
    columns: &Columns,
    number: u32,
    item: &[Token],
    keys: &mut Items<KeyConstraint>,
) -> Result<bool, Memory>
    requires { length columns.now ≤ column_limit }
    ensures { IfOk result (λ known. (if known then Some keys.new else None) ≡ option_map
        (λ added. keys.old ++ added) (meant.item_keys text.now columns.now number item.now)) }
{
    if is_constraint(text, item) {
        return append_table_key(alloc, text, columns, item, keys);
    }
    append_own_keys(
        alloc,
        text,
        number,
        column_rest(text, behind_name(item)),
        keys,
    )?;
    Ok(true)
}

/// The number of the next column behind an item.
fn next_number(text: &[u8], number: u32, item: &[Token]) -> u32
    requires { number < 2 ^ 32 - 1 }
    ensures same { result ≡ meant.next_number text.now number item.now }
    ensures small { result ≤ number + 1 }
{
    if is_constraint(text, item) {
        number
    } else {
        number + 1
    }
}

/// The keys of a table in the order of the text: none where a column or a collation isn't known.
pub fn read_keys(
    alloc: Global,
    text: &[u8],
    columns: &Columns,
    items: &[&[Token]],
) -> Result<Option<Items<KeyConstraint>>, Memory>
    requires few { length columns.now ≤ column_limit }
    requires small { length items.now < 2 ^ 32 }
    ensures { IfOk result (λ keys. keys ≡ meant.key_constraints_of text.now columns.now 0
        (map (λ item. item.now) items.now)) }
{
    let mut keys = Items::new(alloc);
    let mut number = 0;
    for item in items {
        if !append_item_keys(alloc, text, columns, number, item, &mut keys)? {
            return Ok(None);
        }
        number = next_number(text, number, item);
    }
    Ok(Some(keys))
}
