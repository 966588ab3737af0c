//! Reading tokens from the front.
ghost use Rattle.std.specs.Prelude.{◌≡◌, ◌≤◌, drop, length, option_map};
ghost use Rattle.schema_text.specs.Cursor as meant;

use crate::words::{is_mark, is_name, is_word};
use sql_tokens::Token;

/// A name, and the tokens behind it.
#[derive(Clone, Copy)]
pub struct NameAndRest<'t> {
    pub name: Token,
    pub rest: &'t [Token],
}

/// The tokens from a place on.
pub fn tokens_from(tokens: &[Token], start: usize) -> &[Token]
    requires { start ≤ length tokens.now }
    ensures { result.now ≡ drop start tokens.now }
{
    &tokens[start..]
}

/// The tokens behind a word, where it comes first.
pub fn after_word<'t>(text: &[u8], word: &[u8], tokens: &'t [Token]) -> Option<&'t [Token]>
    ensures { option_map (λ rest. rest.now) result ≡ meant.after_word text.now word.now tokens.now }
{
    match tokens {
        [first, rest @ ..] => {
            if is_word(text, word, *first) {
                Some(rest)
            } else {
                None
            }
        }
        [] => None,
    }
}

/// The tokens behind a word that may come first.
pub fn past_word<'t>(text: &[u8], word: &[u8], tokens: &'t [Token]) -> &'t [Token]
    ensures { result.now ≡ meant.past_word text.now word.now tokens.now }
{
    match after_word(text, word, tokens) {
        Some(rest) => rest,
        None => tokens,
    }
}

/// The tokens behind TEMP or TEMPORARY, which may come first.
pub fn past_temporary<'t>(text: &[u8], tokens: &'t [Token]) -> &'t [Token]
    ensures { result.now ≡ meant.past_temporary text.now tokens.now }
{
    match after_word(text, b"temp", tokens) {
        Some(rest) => rest,
        None => past_word(text, b"temporary", tokens),
    }
}

/// The tokens behind IF NOT EXISTS, which may come first.
pub fn past_if_not_exists<'t>(text: &[u8], tokens: &'t [Token]) -> &'t [Token]
    ensures { result.now ≡ meant.past_if_not_exists text.now tokens.now }
{
    match after_if_not_exists(text, tokens) {
        Some(rest) => rest,
        None => tokens,
    }
}

fn after_if_not_exists<'t>(text: &[u8], tokens: &'t [Token]) -> Option<&'t [Token]>
    ensures { option_map (λ rest. rest.now) result ≡ meant.after_if_not_exists text.now tokens.now }
{
    let behind_if = after_word(text, b"if", tokens)?;
    let behind_not = after_word(text, b"not", behind_if)?;
    after_word(text, b"exists", behind_not)
}

/// The name that comes first, if one does.
pub fn first_name(tokens: &[Token]) -> Option<NameAndRest<'_>>
    ensures { option_map meant.seen_named result ≡ meant.first_name tokens.now }
{
    match tokens {
        [first, rest @ ..] => {
            if is_name(*first) {
                Some(NameAndRest { name: *first, rest })
            } else {
                None
            }
        }
        [] => None,
    }
}

/// The tokens behind a schema's name and a point, which may come first.
fn past_qualifier<'t>(text: &[u8], tokens: &'t [Token]) -> &'t [Token]
    ensures { result.now ≡ meant.past_qualifier text.now tokens.now }
{
    match tokens {
        [first, second, rest @ ..] => {
            if is_name(*first) && is_mark(text, b'.', *second) {
                rest
            } else {
                tokens
            }
        }
        _ => tokens,
    }
}

/// The name that comes first, behind that of a schema or not.
pub fn qualified_name<'t>(text: &[u8], tokens: &'t [Token]) -> Option<NameAndRest<'t>>
    ensures { option_map meant.seen_named result ≡ meant.qualified_name text.now tokens.now }
{
    first_name(past_qualifier(text, tokens))
}
