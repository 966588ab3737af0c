//! Each token as a lexeme.
ghost use Rattle.std.specs.Prelude.{◌≡◌, IfOk};
ghost use Rattle.sql_read.specs.Lexemes.{seen, lexeme_of};
ghost use Rattle.sql_lexemes.specs.TokenLexemes.{keyword_mark, symbol_mark, keyword_direction};
ghost use Rattle.sql_lexemes.specs.TokenLexemes.{keyword_lexeme, symbol_lexeme, number_lexeme};
ghost use Rattle.sql_lexemes.specs.TokenLexemes.{lexeme_at, met_after, lexemes_of};
ghost use Rattle.sql_tokens.specs.NumberValues.{number_of};
ghost use Rattle.sql_tokens.specs.TokenValues.{value_of};

use crate::parameters::Parameters;
use bumpalo::Bump;
use bumpalo::collections::into_bump_slice;
use sql_read::{Direction, Lexeme, Mark};
use sql_tokens::{
    Number, Symbol, Terminal, Token, terminal_at, token_number, token_text, token_value,
};
use sql_tree::place_bytes;
use sql_value::{Keyword, Memory, is_reserved_keyword, push};
use std::alloc::Global;

#[tactic(auto, unfolding(crate::specs::TokenLexemes::keyword_mark))]
fn keyword_mark(keyword: Keyword) -> Option<Mark>
    ensures { result ≡ keyword_mark keyword }
{
    match keyword {
        Keyword::Select => Some(Mark::Select),
        Keyword::All => Some(Mark::All),
        Keyword::From => Some(Mark::From),
        Keyword::Where => Some(Mark::Where),
        Keyword::Order => Some(Mark::Order),
        Keyword::By => Some(Mark::By),
        Keyword::Limit => Some(Mark::Limit),
        Keyword::Offset => Some(Mark::Offset),
        Keyword::As => Some(Mark::As),
        Keyword::Inner => Some(Mark::Inner),
        Keyword::Join => Some(Mark::Join),
        Keyword::Cross => Some(Mark::Cross),
        Keyword::Left => Some(Mark::Left),
        Keyword::Outer => Some(Mark::Outer),
        Keyword::On => Some(Mark::On),
        Keyword::Update => Some(Mark::Update),
        Keyword::Set => Some(Mark::Set),
        Keyword::Delete => Some(Mark::Delete),
        Keyword::Or => Some(Mark::Or),
        Keyword::And => Some(Mark::And),
        Keyword::Not => Some(Mark::Not),
        Keyword::Between => Some(Mark::Between),
        Keyword::In => Some(Mark::In),
        Keyword::Like => Some(Mark::Like),
        Keyword::Is => Some(Mark::Is),
        Keyword::Null => Some(Mark::Null),
        Keyword::Isnull => Some(Mark::Isnull),
        Keyword::Notnull => Some(Mark::Notnull),
        Keyword::Collate => Some(Mark::Collate),
        _ => None,
    }
}

#[tactic(auto, unfolding(crate::specs::TokenLexemes::symbol_mark))]
fn symbol_mark(symbol: Symbol) -> Option<Mark>
    ensures { result ≡ symbol_mark symbol }
{
    match symbol {
        Symbol::OpenParenthesis => Some(Mark::Open),
        Symbol::CloseParenthesis => Some(Mark::Close),
        Symbol::Comma => Some(Mark::Comma),
        Symbol::Point => Some(Mark::Dot),
        Symbol::Plus => Some(Mark::Plus),
        Symbol::Minus => Some(Mark::Minus),
        Symbol::Star => Some(Mark::Star),
        Symbol::Equal => Some(Mark::Eq),
        Symbol::DoubleEqual => Some(Mark::EqEq),
        Symbol::NotEqual => Some(Mark::Ne),
        Symbol::Less => Some(Mark::Lt),
        Symbol::AtMost => Some(Mark::Le),
        Symbol::Greater => Some(Mark::Gt),
        Symbol::AtLeast => Some(Mark::Ge),
        _ => None,
    }
}

#[tactic(auto, unfolding(crate::specs::TokenLexemes::keyword_direction))]
fn keyword_direction(keyword: Keyword) -> Option<Direction>
    ensures { result ≡ keyword_direction keyword }
{
    match keyword {
        Keyword::Asc => Some(Direction::Asc),
        Keyword::Desc => Some(Direction::Desc),
        _ => None,
    }
}

/// A word of the language: a mark, or a name where it isn't reserved.
fn keyword_lexeme<'a>(keyword: Keyword, bytes: &'a [u8]) -> Lexeme<'a>
    ensures { lexeme_of result ≡ keyword_lexeme keyword bytes.now }
{
    match keyword_mark(keyword) {
        Some(mark) => Lexeme::Fixed(mark),
        None => {
            if is_reserved_keyword(keyword) {
                Lexeme::Other
            } else {
                Lexeme::Name(bytes, keyword_direction(keyword))
            }
        }
    }
}

fn symbol_lexeme(symbol: Symbol) -> Lexeme<'static>
    ensures { lexeme_of result ≡ symbol_lexeme symbol }
{
    match symbol_mark(symbol) {
        Some(mark) => Lexeme::Fixed(mark),
        None => Lexeme::Other,
    }
}

fn number_lexeme(bytes: &[u8]) -> Lexeme<'static>
    ensures { lexeme_of result ≡ number_lexeme (number_of bytes.now) }
{
    match token_number(bytes) {
        Some(Number::Int(magnitude)) => Lexeme::Int(magnitude),
        Some(Number::Dec(units)) => Lexeme::Dec(units),
        None => Lexeme::Other,
    }
}

/// The value of a quoted token, in the arena.
fn place_value<'a>(
    alloc: Global,
    arena: &'a Bump,
    text: &[u8],
    token: Token,
) -> Result<&'a [u8], Memory>
    ensures { IfOk result (λ place. place.now ≡ value_of text.now token) }
{
    let value = token_value(alloc, text, token)?;
    place_bytes(arena, value.as_slice())
}

/// A token as a lexeme. A parameter is met from here on.
#[tactic(auto, unfolding(crate::specs::TokenLexemes::lexeme_at, crate::specs::TokenLexemes::met_after))]
fn lexeme_read<'a>(
    alloc: Global,
    arena: &'a Bump,
    met: &mut Parameters,
    text: &'a [u8],
    token: Token,
) -> Result<Lexeme<'a>, Memory>
    ensures { IfOk result (λ lexeme. (lexeme_of lexeme ≡ lexeme_at text.now met.old token)
        × (met.new ≡ met_after text.now met.old token)) }
{
    match terminal_at(text, token) {
        Terminal::Keyword(keyword) => Ok(keyword_lexeme(keyword, token_text(text, token))),
        Terminal::Word => Ok(Lexeme::Name(token_text(text, token), None)),
        Terminal::Quoted => Ok(Lexeme::Name(place_value(alloc, arena, text, token)?, None)),
        Terminal::Text => Ok(Lexeme::Text(place_value(alloc, arena, text, token)?)),
        Terminal::Blob => Ok(Lexeme::Blob(place_value(alloc, arena, text, token)?)),
        Terminal::Number => Ok(number_lexeme(token_text(text, token))),
        Terminal::Parameter => match met.take(alloc, token_text(text, token))? {
            Some(number) => Ok(Lexeme::Param(number)),
            None => Ok(Lexeme::Other),
        },
        Terminal::Symbol(symbol) => Ok(symbol_lexeme(symbol)),
        Terminal::Bad => Ok(Lexeme::Other),
    }
}

/// The tokens of a statement as lexemes, in the arena.
pub fn lexemes<'a>(
    alloc: Global,
    arena: &'a Bump,
    text: &'a [u8],
    tokens: &[Token],
) -> Result<&'a [Lexeme<'a>], Memory>
    ensures { IfOk result (λ list. seen list.now ≡ lexemes_of text.now tokens.now) }
{
    let mut met = Parameters::new(alloc);
    let mut list: Vec<Lexeme<'a>, &'a Bump> = Vec::with_capacity(arena, tokens.len())?;
    for token in tokens {
        let lexeme = lexeme_read(alloc, arena, &mut met, text, *token)?;
        push(&mut list, lexeme)?;
    }
    Ok(into_bump_slice(list))
}
