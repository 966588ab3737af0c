//! Columns of CREATE TABLE.
ghost use Rattle.std.specs.Prelude.{◌≡◌, ◌≤◌, length, IfOk};
ghost use Rattle.schema_text.specs.Heads.{or_else};
ghost use Rattle.schema_text.specs.ColumnTexts as meant;

use crate::cursor::{first_name, tokens_from};
use crate::groups::next_level;
use crate::words::{is_name, is_word};
use schema_model::Column;
use sql_tokens::{Terminal, Token, terminal_at, token_text, token_value};
use sql_value::{Affinity, Collation, Keyword, Memory, affinity_of, collation_named};
use std::alloc::Global;

/// Whether the type of a column ends before this token.
fn begins_rest(text: &[u8], token: Token) -> bool
    ensures { result ≡ meant.begins_rest text.now token }
{
    match terminal_at(text, token) {
        Terminal::Keyword(keyword) => is_rest_word(keyword),
        _ => false,
    }
}

fn is_rest_word(keyword: Keyword) -> bool
    ensures { result ≡ meant.is_rest_word keyword }
{
    match keyword {
        Keyword::Constraint
        | Keyword::Primary
        | Keyword::Not
        | Keyword::Null
        | Keyword::Unique
        | Keyword::Check
        | Keyword::Default
        | Keyword::Collate
        | Keyword::References
        | Keyword::Generated
        | Keyword::As => true,
        _ => false,
    }
}

/// How many tokens the type of a column has, behind its name.
fn type_len(text: &[u8], tokens: &[Token]) -> usize
    ensures same { result ≡ meant.type_len text.now 0 tokens.now }
    ensures inside { result ≤ length tokens.now }
{
    let mut level = 0;
    for (place, token) in tokens.iter().enumerate() {
        if level == 0 && begins_rest(text, *token) {
            return place;
        }
        level = next_level(text, level, *token);
    }
    tokens.len()
}

/// The bytes from the first to the last of some tokens.
fn text_of_all<'a>(text: &'a [u8], tokens: &[Token]) -> &'a [u8]
    ensures { result.now ≡ meant.text_of_all text.now tokens.now }
{
    match (tokens.first(), tokens.last()) {
        (Some(first), Some(last)) => token_text(
            text,
            Token {
                kind: first.kind,
                start: first.start,
                end: last.end,
            },
        ),
        _ => &[],
    }
}

/// The text of a column's type, from behind its name: empty where there is none.
pub fn declared_type<'a>(text: &'a [u8], behind_name: &[Token]) -> &'a [u8]
    ensures { result.now ≡ meant.declared_type text.now behind_name.now }
{
    text_of_all(text, &behind_name[..type_len(text, behind_name)])
}

/// What stands behind a column's type.
pub fn column_rest<'t>(text: &[u8], behind_name: &'t [Token]) -> &'t [Token]
    ensures { result.now ≡ meant.column_rest text.now behind_name.now }
{
    tokens_from(behind_name, type_len(text, behind_name))
}

/// Whether the column's value is computed: GENERATED or AS, outside parentheses
/// (<https://sqlite.org/gencol.html>).
fn is_generated(text: &[u8], rest: &[Token]) -> bool
    ensures { result ≡ meant.is_generated text.now 0 rest.now }
{
    let mut level = 0;
    for token in rest {
        if level == 0 && is_generated_word(text, *token) {
            return true;
        }
        level = next_level(text, level, *token);
    }
    false
}

fn is_generated_word(text: &[u8], token: Token) -> bool
    ensures { result ≡ meant.is_generated_word text.now token }
{
    is_word(text, b"generated", token) || is_word(text, b"as", token)
}

/// The name behind COLLATE, where the tokens begin so.
pub fn collation_here(text: &[u8], tokens: &[Token]) -> Option<Token>
    ensures { result ≡ meant.collation_here text.now tokens.now }
{
    match tokens {
        [first, second, ..] => {
            if is_word(text, b"collate", *first) && is_name(*second) {
                Some(*second)
            } else {
                None
            }
        }
        _ => None,
    }
}

/// The name behind COLLATE, where the tokens begin so and no parenthesis is open.
fn collation_at_top(text: &[u8], level: usize, tokens: &[Token]) -> Option<Token>
    ensures { result ≡ meant.at_top level (meant.collation_here text.now tokens.now) }
{
    if level == 0 {
        collation_here(text, tokens)
    } else {
        None
    }
}

fn later(found: Option<Token>, earlier: Option<Token>) -> Option<Token>
    ensures { result ≡ or_else found earlier }
{
    match found {
        Some(token) => Some(token),
        None => earlier,
    }
}

/// The name behind the last COLLATE outside parentheses.
fn last_collation(text: &[u8], rest: &[Token]) -> Option<Token>
    ensures { result ≡ meant.last_collation text.now 0 rest.now }
{
    let mut level = 0;
    let mut last = None;
    for (place, token) in rest.iter().enumerate() {
        last = later(
            collation_at_top(text, level, tokens_from(rest, place)),
            last,
        );
        level = next_level(text, level, *token);
    }
    last
}

/// The collation that a token names.
pub fn collation_at(alloc: Global, text: &[u8], token: Token) -> Result<Option<Collation>, Memory>
    ensures { IfOk result (λ coll. coll ≡ meant.collation_at text.now token) }
{
    let name = token_value(alloc, text, token)?;
    Ok(collation_named(name.as_slice()))
}

/// The collation of a column: of several COLLATE the last counts. None where it isn't known.
fn column_collation(alloc: Global, text: &[u8], rest: &[Token]) -> Result<Option<Collation>, Memory>
    ensures { IfOk result (λ coll. coll ≡ meant.column_collation text.now rest.now) }
{
    match last_collation(text, rest) {
        Some(token) => collation_at(alloc, text, token),
        None => Ok(Some(Collation::Binary)),
    }
}

fn declared_affinity(declared: &[u8]) -> Affinity
    ensures { result ≡ meant.declared_affinity declared.now }
{
    affinity_of(declared)
}

/// The column that an item of CREATE TABLE makes; none where its table isn't read for it.
pub fn read_column(alloc: Global, text: &[u8], item: &[Token]) -> Result<Option<Column>, Memory>
    ensures { IfOk result (λ column. column ≡ meant.column_of text.now item.now) }
{
    let Some(named) = first_name(item) else {
        return Ok(None);
    };
    let rest = column_rest(text, named.rest);
    if is_generated(text, rest) {
        return Ok(None);
    }
    let Some(coll) = column_collation(alloc, text, rest)? else {
        return Ok(None);
    };
    Ok(Some(Column {
        name: token_value(alloc, text, named.name)?,
        affinity: declared_affinity(declared_type(text, named.rest)),
        coll,
    }))
}
