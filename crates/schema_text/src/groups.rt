//! Parentheses, and lists with commas.
ghost use Rattle.std.specs.Prelude.{◌≡◌, ◌+◌, ◌-◌, ◌<◌, ◌≤◌, ◌^◌, ◌==◌, ◌&&◌, length, map};
ghost use Rattle.std.specs.Prelude.{option_map, IfOk, IfSome, take, drop};
ghost use Rattle.schema_text.specs.Groups as meant;

use crate::cursor::tokens_from;
use crate::words::is_mark;
use sql_tokens::Token;
use sql_value::Memory;
use std::alloc::Global;

/// What stands within a pair of parentheses, and what stands behind them.
#[derive(Clone, Copy)]
pub struct Enclosed<'t> {
    pub inside: &'t [Token],
    pub rest: &'t [Token],
}

/// How many parentheses are open behind a token.
pub fn next_level(text: &[u8], level: usize, token: Token) -> usize
    requires { level < 2 ^ 64 - 1 }
    ensures same { result ≡ meant.next_level text.now level token }
    ensures small { result ≤ level + 1 }
{
    if is_mark(text, b'(', token) {
        level + 1
    } else if is_mark(text, b')', token) {
        level.saturating_sub(1)
    } else {
        level
    }
}

/// How many tokens stand before the parenthesis that closes those open before them.
fn close_place(text: &[u8], tokens: &[Token]) -> Option<usize>
    ensures same { result ≡ meant.close_place text.now 0 tokens.now }
    ensures inside { IfSome result (λ place. place < length tokens.now) }
{
    let mut level = 0;
    for (place, token) in tokens.iter().enumerate() {
        if level == 0 && is_mark(text, b')', *token) {
            return Some(place);
        }
        level = next_level(text, level, *token);
    }
    None
}

fn tokens_up_to(tokens: &[Token], end: usize) -> &[Token]
    requires { end ≤ length tokens.now }
    ensures { result.now ≡ take end tokens.now }
{
    &tokens[..end]
}

/// What stands in the pair of parentheses that comes first.
pub fn first_enclosed<'t>(text: &[u8], tokens: &'t [Token]) -> Option<Enclosed<'t>>
    ensures { option_map meant.seen_enclosed result ≡ meant.first_enclosed text.now tokens.now }
{
    match tokens {
        [first, behind @ ..] => {
            if !is_mark(text, b'(', *first) {
                return None;
            }
            let place = close_place(text, behind)?;
            Some(Enclosed {
                inside: tokens_up_to(behind, place),
                rest: tokens_from(behind, place + 1),
            })
        }
        [] => None,
    }
}

fn tokens_between(tokens: &[Token], start: usize, end: usize) -> &[Token]
    requires order { start ≤ end }
    requires inside { end ≤ length tokens.now }
    ensures { result.now ≡ take (end - start) (drop start tokens.now) }
{
    &tokens[start..end]
}

/// Whether a comma outside parentheses stands here.
fn cuts_here(text: &[u8], level: usize, token: Token) -> bool
    ensures { result ≡ ((level == 0) && meant.is_comma text.now token) }
{
    level == 0 && is_mark(text, b',', token)
}

/// The parts of a list, between the commas outside inner parentheses.
pub fn cut_at_commas<'t>(
    alloc: Global,
    text: &[u8],
    tokens: &'t [Token],
) -> Result<Vec<&'t [Token]>, Memory>
    ensures { IfOk result (λ parts. map (λ part. part.now) parts.items
        ≡ meant.parts_of text.now tokens.now) }
{
    let mut parts = Vec::new(alloc);
    let mut start = 0;
    let mut level = 0;
    for (place, token) in tokens.iter().enumerate() {
        if cuts_here(text, level, *token) {
            parts.push(tokens_between(tokens, start, place))?;
            start = place + 1;
            continue;
        }
        level = next_level(text, level, *token);
    }
    parts.push(tokens_from(tokens, start))?;
    Ok(parts)
}
