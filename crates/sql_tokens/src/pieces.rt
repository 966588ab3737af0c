//! The piece of the text that stands at the front.
ghost use Rattle.std.specs.Prelude.{◌≡◌, ◌<◌, ◌≤◌, ◌+◌, length};
ghost use Rattle.sql_tokens.specs.Pieces.{skipped, token, named_parameter_at, symbol_len};
ghost use Rattle.sql_tokens.specs.Pieces.{symbol_at, piece_from, piece_at, other_at};

use crate::characters::{is_space, is_word_start};
use crate::numbers::{number_piece, number_run, numbered_parameter_piece};
use crate::quotes::{blob_piece, bracket_piece, quoted_piece};
use crate::runs::{begins, comment_run, line_run, space_run, word_run};
use crate::token::TokenKind;

/// A piece of the text: a token of a kind, or bytes that are skipped; and how many bytes.
#[derive(Clone, Copy)]
pub(crate) struct Piece {
    pub(crate) kind: Option<TokenKind>,
    pub(crate) len: usize,
}

/// Bytes that are skipped.
pub(crate) fn skipped(len: usize) -> Piece
    ensures { result ≡ skipped len }
{
    Piece { kind: None, len }
}

/// Bytes that are a token.
pub(crate) fn token_piece(kind: TokenKind, len: usize) -> Piece
    ensures { result ≡ token kind len }
{
    Piece {
        kind: Some(kind),
        len,
    }
}

/// A parameter by name, or a bad token where no name follows.
#[tactic(auto, unfolding(crate::specs::Pieces::named_parameter_at))]
fn named_parameter_piece(bytes: &[u8]) -> Piece
    requires { 0 < length bytes.now }
    ensures some { 0 < result.len }
    ensures inside { result.len ≤ length bytes.now }
    ensures same { result ≡ named_parameter_at bytes.now }
{
    let more = word_run(&bytes[1..]);
    if more == 0 {
        token_piece(TokenKind::Bad, 1 + more)
    } else {
        token_piece(TokenKind::Parameter, 1 + more)
    }
}

/// How many bytes the longest symbol at the front has, or 0.
#[tactic(auto, unfolding(crate::specs::Pieces::symbol_len))]
fn symbol_run(bytes: &[u8]) -> usize
    ensures inside { result ≤ length bytes.now }
    ensures same { result ≡ symbol_len bytes.now }
{
    match bytes {
        [b'-', b'>', b'>', ..] => 3,
        [b'-', b'>', ..]
        | [b'=', b'=', ..]
        | [b'<', b'=' | b'>' | b'<', ..]
        | [b'>', b'=' | b'>', ..]
        | [b'!', b'=', ..]
        | [b'|', b'|', ..] => 2,
        [
            b'-'
            | b'='
            | b'<'
            | b'>'
            | b'|'
            | b'('
            | b')'
            | b','
            | b';'
            | b'.'
            | b'+'
            | b'*'
            | b'/'
            | b'%'
            | b'&'
            | b'~',
            ..
        ] => 1,
        _ => 0,
    }
}

/// A symbol, or one bad byte.
#[tactic(auto, unfolding(crate::specs::Pieces::symbol_at))]
fn symbol_piece(bytes: &[u8]) -> Piece
    requires { 0 < length bytes.now }
    ensures some { 0 < result.len }
    ensures inside { result.len ≤ length bytes.now }
    ensures same { result ≡ symbol_at bytes.now }
{
    let len = symbol_run(bytes);
    if len == 0 {
        token_piece(TokenKind::Bad, 1)
    } else {
        token_piece(TokenKind::Symbol, len)
    }
}

/// What is no word, and neither quoted nor skipped.
#[tactic(auto, unfolding(crate::specs::Pieces::other_at))]
fn other_piece(bytes: &[u8]) -> Piece
    requires { 0 < length bytes.now }
    ensures some { 0 < result.len }
    ensures inside { result.len ≤ length bytes.now }
    ensures same { result ≡ other_at bytes.now }
{
    let number = number_run(bytes);
    if number != 0 {
        return number_piece(number, bytes);
    }
    match bytes[0] {
        b'?' => numbered_parameter_piece(bytes),
        b':' | b'@' | b'$' => named_parameter_piece(bytes),
        _ => symbol_piece(bytes),
    }
}

/// The piece at the front, by the first rule that fits.
#[tactic(auto, unfolding(crate::specs::Pieces::piece_at, crate::specs::Pieces::piece_from))]
pub(crate) fn front_piece(bytes: &[u8]) -> Piece
    requires { 0 < length bytes.now }
    ensures some { 0 < result.len }
    ensures inside { result.len ≤ length bytes.now }
    ensures same { result ≡ piece_at bytes.now }
{
    let byte = bytes[0];
    let behind = &bytes[1..];
    if is_space(byte) {
        skipped(1 + space_run(behind))
    } else if byte == b'-' && begins(b'-', behind) {
        skipped(2 + line_run(&bytes[2..]))
    } else if byte == b'/' && begins(b'*', behind) {
        skipped(2 + comment_run(&bytes[2..]))
    } else if byte == b'\'' {
        quoted_piece(TokenKind::Text, b'\'', bytes)
    } else if (byte == b'x' || byte == b'X') && begins(b'\'', behind) {
        blob_piece(bytes)
    } else if byte == b'"' || byte == b'`' {
        quoted_piece(TokenKind::Quoted, byte, bytes)
    } else if byte == b'[' {
        bracket_piece(bytes)
    } else if is_word_start(byte) {
        token_piece(TokenKind::Word, 1 + word_run(behind))
    } else {
        other_piece(bytes)
    }
}
