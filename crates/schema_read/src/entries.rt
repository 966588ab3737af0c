//! The entries of INSERT.
ghost use Rattle.std.specs.Prelude.{◌≡◌, map, option_map, IfOk};
ghost use Rattle.sql_value.specs.View.{plain_value};
ghost use Rattle.schema_read.specs.Entries as meant;

use crate::numbers::number_value;
use schema_model::Column;
use schema_text::{is_mark, is_word};
use sql_tokens::{Token, TokenKind, token_text, token_value};
use sql_value::{Memory, Value, convert};
use std::alloc::Global;

/// The value of a token: NULL, a text, a blob or a number without a sign.
fn plain_entry(alloc: Global, text: &[u8], token: Token) -> Result<Option<Value>, Memory>
    ensures { IfOk result (λ value. option_map plain_value value
        ≡ meant.token_entry text.now token) }
{
    match token.kind {
        TokenKind::Text => Ok(Some(Value::Text(token_value(alloc, text, token)?))),
        TokenKind::Blob => Ok(Some(Value::Blob(token_value(alloc, text, token)?))),
        TokenKind::Number => number_value(alloc, false, token_text(text, token)),
        TokenKind::Word => {
            if is_word(text, b"null", token) {
                Ok(Some(Value::Null))
            } else {
                Ok(None)
            }
        }
        _ => Ok(None),
    }
}

fn number_entry(
    alloc: Global,
    text: &[u8],
    negative: bool,
    token: Token,
) -> Result<Option<Value>, Memory>
    ensures { IfOk result (λ value. option_map plain_value value
        ≡ meant.number_entry text.now negative token) }
{
    match token.kind {
        TokenKind::Number => number_value(alloc, negative, token_text(text, token)),
        _ => Ok(None),
    }
}

/// The value of a number behind its sign.
fn signed_entry(
    alloc: Global,
    text: &[u8],
    sign: Token,
    token: Token,
) -> Result<Option<Value>, Memory>
    ensures { IfOk result (λ value. option_map plain_value value
        ≡ meant.signed_entry text.now sign token) }
{
    if is_mark(text, b'-', sign) {
        number_entry(alloc, text, true, token)
    } else if is_mark(text, b'+', sign) {
        number_entry(alloc, text, false, token)
    } else {
        Ok(None)
    }
}

/// The value of an entry: NULL, a text, a blob, or a number with a sign or without. Anything else,
/// such as a call of a function, has none.
pub(crate) fn entry_value(
    alloc: Global,
    text: &[u8],
    part: &[Token],
) -> Result<Option<Value>, Memory>
    ensures { IfOk result (λ value. option_map plain_value value
        ≡ meant.entry_value text.now part.now) }
{
    match part {
        [only] => plain_entry(alloc, text, *only),
        [sign, number] => signed_entry(alloc, text, *sign, *number),
        _ => Ok(None),
    }
}

/// The value of an entry as its column holds it.
fn column_value(
    alloc: Global,
    text: &[u8],
    column: &Column,
    part: &[Token],
) -> Result<Option<Value>, Memory>
    ensures { IfOk result (λ value. option_map plain_value value
        ≡ meant.column_value text.now column.now part.now) }
{
    match entry_value(alloc, text, part)? {
        Some(value) => Ok(Some(convert(alloc, column.affinity, value)?)),
        None => Ok(None),
    }
}

/// The values of a row, converted by its columns: none where there are more or fewer entries than
/// columns, or an entry has no value.
pub(crate) fn row_values(
    alloc: Global,
    text: &[u8],
    columns: &[Column],
    parts: &[&[Token]],
) -> Result<Option<Vec<Value>>, Memory>
    ensures { IfOk result (λ values. option_map (λ v. map plain_value v.items) values
        ≡ meant.row_values text.now columns.now (map (λ part. part.now) parts.now)) }
{
    if columns.len() != parts.len() {
        return Ok(None);
    }
    let mut values = Vec::with_capacity(alloc, columns.len())?;
    for (number, column) in columns.iter().enumerate() {
        match column_value(alloc, text, column, parts[number])? {
            Some(value) => values.push(value)?,
            None => return Ok(None),
        }
    }
    Ok(Some(values))
}
