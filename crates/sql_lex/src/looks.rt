//! Looks at what stands at a place of the tokens.
ghost use Rattle.std.specs.Prelude.{◌≡◌, length, map, drop, slice_get, ◌≤◌};
ghost use Rattle.sql_tokens.specs.Terminals.{terminal_of};
ghost use Rattle.sql_lex.specs.Looks.{same_keyword, same_symbol, is_keyword, is_symbol};
ghost use Rattle.sql_lex.specs.Looks.{is_keyword_among, is_symbol_among, is_free_word, is_name};
ghost use Rattle.sql_lex.specs.Looks.{is_number, is_literal, is_operand_end};

use sql_tokens::{Symbol, Terminal, Token, terminal_at};
use sql_value::{Keyword, is_reserved_keyword};

/// What stands at a place of the tokens, if anything does.
pub(crate) fn peek(text: &[u8], tokens: &[Token], place: usize) -> Option<Terminal>
    ensures { result ≡ slice_get (map (terminal_of text.now) tokens.now) place }
{
    if place < tokens.len() {
        Some(terminal_at(text, tokens[place]))
    } else {
        None
    }
}

/// The tokens from a place on.
pub(crate) fn tokens_from(tokens: &[Token], start: usize) -> &[Token]
    requires { start ≤ length tokens.now }
    ensures { result.now ≡ drop start tokens.now }
{
    &tokens[start..]
}

fn is_same_keyword(left: Keyword, right: Keyword) -> bool
    ensures { result ≡ same_keyword left right }
{
    left == right
}

fn is_same_symbol(left: Symbol, right: Symbol) -> bool
    ensures { result ≡ same_symbol left right }
{
    left == right
}

/// Whether this keyword stands there.
#[tactic(auto, unfolding(crate::specs::Looks::is_keyword))]
pub(crate) fn is_keyword(keyword: Keyword, there: Option<Terminal>) -> bool
    ensures { result ≡ is_keyword keyword there }
{
    match there {
        Some(Terminal::Keyword(word)) => is_same_keyword(word, keyword),
        _ => false,
    }
}

/// Whether this symbol stands there.
#[tactic(auto, unfolding(crate::specs::Looks::is_symbol))]
pub(crate) fn is_symbol(symbol: Symbol, there: Option<Terminal>) -> bool
    ensures { result ≡ is_symbol symbol there }
{
    match there {
        Some(Terminal::Symbol(other)) => is_same_symbol(other, symbol),
        _ => false,
    }
}

/// Whether one of these keywords stands there.
pub(crate) fn is_keyword_among(keywords: &[Keyword], there: Option<Terminal>) -> bool
    ensures { result ≡ is_keyword_among keywords.now there }
{
    keywords.iter().any(|keyword| is_keyword(*keyword, there))
}

/// Whether one of these symbols stands there.
pub(crate) fn is_symbol_among(symbols: &[Symbol], there: Option<Terminal>) -> bool
    ensures { result ≡ is_symbol_among symbols.now there }
{
    symbols.iter().any(|symbol| is_symbol(*symbol, there))
}

/// Whether a word stands there that is no reserved one.
#[tactic(auto, unfolding(crate::specs::Looks::is_free_word))]
pub(crate) fn is_free_word(there: Option<Terminal>) -> bool
    ensures { result ≡ is_free_word there }
{
    match there {
        Some(Terminal::Word) => true,
        Some(Terminal::Keyword(keyword)) => !is_reserved_keyword(keyword),
        _ => false,
    }
}

/// Whether a name stands there: a quoted one, or a word that is no reserved one.
#[tactic(auto, unfolding(crate::specs::Looks::is_name))]
pub(crate) fn is_name(there: Option<Terminal>) -> bool
    ensures { result ≡ is_name there }
{
    matches!(there, Some(Terminal::Quoted)) || is_free_word(there)
}

/// Whether a number stands there.
#[tactic(auto, unfolding(crate::specs::Looks::is_number))]
pub(crate) fn is_number(there: Option<Terminal>) -> bool
    ensures { result ≡ is_number there }
{
    matches!(there, Some(Terminal::Number))
}

#[tactic(auto, unfolding(crate::specs::Looks::is_literal))]
fn is_literal(there: Option<Terminal>) -> bool
    ensures { result ≡ is_literal there }
{
    matches!(
        there,
        Some(Terminal::Number | Terminal::Text | Terminal::Blob | Terminal::Parameter)
    )
}

/// Whether an operand may end there: a name, a value, NULL or a parenthesis.
#[tactic(auto, unfolding(crate::specs::Looks::is_operand_end))]
pub(crate) fn is_operand_end(there: Option<Terminal>) -> bool
    ensures { result ≡ is_operand_end there }
{
    is_name(there)
        || is_literal(there)
        || is_keyword(Keyword::Null, there)
        || is_symbol(Symbol::CloseParenthesis, there)
}
