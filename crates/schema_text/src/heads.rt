//! The fronts of CREATE statements.
ghost use Rattle.std.specs.Prelude.{◌≡◌, option_map};
ghost use Rattle.schema_text.specs.Cursor.{seen_named};
ghost use Rattle.schema_text.specs.Heads as meant;

use crate::cursor::{
    NameAndRest, after_word, first_name, past_if_not_exists, past_temporary, qualified_name,
};
use crate::groups::first_enclosed;
use sql_tokens::Token;

/// The name of the table in CREATE TABLE, and what stands behind it
/// (<https://sqlite.org/lang_createtable.html>).
pub fn create_table_head<'t>(text: &[u8], tokens: &'t [Token]) -> Option<NameAndRest<'t>>
    ensures { option_map seen_named result ≡ meant.create_table_head text.now tokens.now }
{
    let behind_create = after_word(text, b"create", tokens)?;
    let behind_table = after_word(text, b"table", past_temporary(text, behind_create))?;
    qualified_name(text, past_if_not_exists(text, behind_table))
}

/// The tokens behind VIRTUAL and TABLE.
fn after_virtual_table<'t>(text: &[u8], tokens: &'t [Token]) -> Option<&'t [Token]>
    ensures { option_map (λ rest. rest.now) result ≡ meant.after_virtual_table text.now tokens.now }
{
    let behind_virtual = after_word(text, b"virtual", tokens)?;
    after_word(text, b"table", behind_virtual)
}

/// The tokens behind VIRTUAL TABLE, or behind VIEW.
fn after_unread_kind<'t>(text: &[u8], tokens: &'t [Token]) -> Option<&'t [Token]>
    ensures { option_map (λ rest. rest.now) result ≡ meant.after_unread_kind text.now tokens.now }
{
    match after_virtual_table(text, tokens) {
        Some(rest) => Some(rest),
        None => after_word(text, b"view", past_temporary(text, tokens)),
    }
}

/// The name in CREATE VIEW (<https://sqlite.org/lang_createview.html>) and CREATE VIRTUAL TABLE
/// (<https://sqlite.org/lang_createvtab.html>).
pub fn create_unread_head<'t>(text: &[u8], tokens: &'t [Token]) -> Option<NameAndRest<'t>>
    ensures { option_map seen_named result ≡ meant.create_unread_head text.now tokens.now }
{
    let behind_create = after_word(text, b"create", tokens)?;
    let behind_kind = after_unread_kind(text, behind_create)?;
    qualified_name(text, past_if_not_exists(text, behind_kind))
}

/// What CREATE INDEX says (<https://sqlite.org/lang_createindex.html>).
#[derive(Clone, Copy)]
pub struct IndexHead<'t> {
    pub unique: bool,
    pub name: Token,
    pub table: Token,
    /// What stands in the parentheses.
    pub list: &'t [Token],
    /// Whether there is a WHERE, so that the index lacks rows.
    pub partial: bool,
}

/// What CREATE INDEX says.
pub fn create_index_head<'t>(text: &[u8], tokens: &'t [Token]) -> Option<IndexHead<'t>>
    ensures { option_map meant.seen_index_head result
        ≡ meant.create_index_head text.now tokens.now }
{
    let behind_create = after_word(text, b"create", tokens)?;
    match after_word(text, b"unique", behind_create) {
        Some(rest) => index_head(text, true, rest),
        None => index_head(text, false, behind_create),
    }
}

fn index_head<'t>(text: &[u8], unique: bool, tokens: &'t [Token]) -> Option<IndexHead<'t>>
    ensures { option_map meant.seen_index_head result
        ≡ meant.index_head text.now unique tokens.now }
{
    let behind_index = after_word(text, b"index", tokens)?;
    let index = qualified_name(text, past_if_not_exists(text, behind_index))?;
    let behind_on = after_word(text, b"on", index.rest)?;
    let table = first_name(behind_on)?;
    let list = first_enclosed(text, table.rest)?;
    let partial = is_partial(text, list.rest)?;
    Some(IndexHead {
        unique,
        name: index.name,
        table: table.name,
        list: list.inside,
        partial,
    })
}

/// Whether WHERE stands behind the list; none where anything else does.
fn is_partial(text: &[u8], tokens: &[Token]) -> Option<bool>
    ensures { result ≡ meant.is_partial text.now tokens.now }
{
    match tokens {
        [] => Some(false),
        _ => match after_word(text, b"where", tokens) {
            Some(_) => Some(true),
            None => None,
        },
    }
}
