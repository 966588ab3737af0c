//! Cuts tokens into statements.
ghost use Rattle.std.specs.Prelude.{◌≡◌, ◌+◌, ◌<◌, ◌≤◌, ◌^◌, ◌++◌, length, map, IfOk};
ghost use Rattle.std.specs.List.{prefix_len};
ghost use Rattle.sql_tokens.specs.Terminals.{terminal_of};
ghost use Rattle.sql_lex.specs.Statements.{begins_trigger, ends_trigger, trigger_len, is_inner};
ghost use Rattle.sql_lex.specs.Statements.{run_len, run_of, spans_of_run, statements_of};

use crate::looks::{is_keyword, is_keyword_among, is_symbol, peek, tokens_from};
use sql_tokens::{Symbol, Token, Tokens, terminal_at};
use sql_value::{Items, Keyword, Memory};
use std::alloc::Global;

/// A run of tokens: those from number `first` up to number `end`, counted from 0.
#[derive(Clone, Copy, Debug, PartialEq, Eq)]
pub struct Span {
    pub first: u32,
    pub end: u32,
}

/// Runs of tokens in the order of the text.
pub type Spans = Items<Span>;

/// Whether the tokens begin with CREATE, TEMP or TEMPORARY or neither, and TRIGGER.
#[tactic(auto, unfolding(crate::specs::Statements::begins_trigger))]
fn begins_trigger(text: &[u8], tokens: &[Token]) -> bool
    ensures { result ≡ begins_trigger (map (terminal_of text.now) tokens.now) }
{
    let second = peek(text, tokens, 1);
    is_keyword(Keyword::Create, peek(text, tokens, 0))
        && (is_keyword(Keyword::Trigger, second)
            || (is_keyword_among(&[Keyword::Temp, Keyword::Temporary], second)
                && is_keyword(Keyword::Trigger, peek(text, tokens, 2))))
}

/// Whether the tokens begin with `;`, END and `;`.
#[tactic(auto, unfolding(crate::specs::Statements::ends_trigger))]
fn ends_trigger(text: &[u8], tokens: &[Token]) -> bool
    ensures { result ≡ ends_trigger (map (terminal_of text.now) tokens.now) }
{
    is_symbol(Symbol::Semicolon, peek(text, tokens, 0))
        && is_keyword(Keyword::End, peek(text, tokens, 1))
        && is_symbol(Symbol::Semicolon, peek(text, tokens, 2))
}

/// How many tokens a trigger has: up to an END between two `;`, or all.
fn trigger_run(text: &[u8], tokens: &[Token]) -> usize
    ensures inside { result ≤ length tokens.now }
    ensures same { result ≡ trigger_len (map (terminal_of text.now) tokens.now) }
{
    for (number, _) in tokens.iter().enumerate() {
        if ends_trigger(text, tokens_from(tokens, number)) {
            return number + 2;
        }
    }
    tokens.len()
}

/// How many tokens there are before the next `;`.
fn plain_run(text: &[u8], tokens: &[Token]) -> usize
    ensures inside { result ≤ length tokens.now }
    ensures same { result ≡ prefix_len is_inner (map (terminal_of text.now) tokens.now) }
{
    for (number, token) in tokens.iter().enumerate() {
        if is_symbol(Symbol::Semicolon, Some(terminal_at(text, *token))) {
            return number;
        }
    }
    tokens.len()
}

/// How many tokens the statement at the front has, without the `;` that closes it.
#[tactic(auto, unfolding(crate::specs::Statements::run_len))]
fn front_run(text: &[u8], tokens: &[Token]) -> usize
    ensures inside { result ≤ length tokens.now }
    ensures same { result ≡ run_len (map (terminal_of text.now) tokens.now) }
{
    if begins_trigger(text, tokens) {
        trigger_run(text, tokens)
    } else {
        plain_run(text, tokens)
    }
}

/// Adds a run, unless it is empty.
fn push_run(spans: &mut Spans, start: usize, run: usize) -> Result<(), Memory>
    requires { start + run < 2 ^ 32 }
    ensures { IfOk result (λ _. spans.new ≡ spans.old ++ spans_of_run start run) }
{
    if run == 0 {
        return Ok(());
    }
    spans.push(Span {
        first: start as u32,
        end: (start + run) as u32,
    })
}

/// The statements of a text whose tokens these are: the runs between `;` that aren't empty. A
/// trigger, which holds statements of its own, ends only at a `;` behind `;` and END.
///
/// <https://www.sqlite.org/lang.html> and <https://www.sqlite.org/lang_createtrigger.html>
pub fn statements(alloc: Global, text: &[u8], tokens: &Tokens) -> Result<Spans, Memory>
    requires { length tokens.now < 2 ^ 32 }
    ensures { IfOk result (λ spans. spans ≡ statements_of text.now tokens.now) }
{
    let tokens = tokens.as_slice();
    let mut spans = Spans::new(alloc);
    let mut start = 0;
    while start < tokens.len() {
        let run = front_run(text, tokens_from(tokens, start));
        push_run(&mut spans, start, run)?;
        start += run.max(1);
    }
    Ok(spans)
}

/// The tokens of a run; none where it is no run of these tokens.
pub fn run_tokens(tokens: &[Token], span: Span) -> &[Token]
    ensures { result.now ≡ run_of tokens.now span }
{
    let (first, end) = (span.first as usize, span.end as usize);
    if first <= end && end <= tokens.len() {
        &tokens[first..end]
    } else {
        &[]
    }
}
