//! The forms of numbers, and parameters by number.
ghost use Rattle.std.specs.Prelude.{◌≡◌, ◌<◌, ◌≤◌, ◌+◌, length};
ghost use Rattle.sql_tokens.specs.Pieces.{parts_len, exponent_len, hex_len, decimal_len};
ghost use Rattle.sql_tokens.specs.Pieces.{number_len, number_at, numbered_parameter_at};

use crate::pieces::{Piece, token_piece};
use crate::runs::{begins, digit_run, hex_run, word_run};
use crate::token::TokenKind;
use sql_value::read_digits;

/// The greatest number of a parameter.
pub const MOST_PARAMETERS: u64 = 32_766;

/// Digits, a point and digits: how many bytes, or 0 where there is no digit.
#[tactic(auto, unfolding(crate::specs::Pieces::parts_len))]
fn parts_run(bytes: &[u8]) -> usize
    ensures inside { result ≤ length bytes.now }
    ensures same { result ≡ parts_len bytes.now }
{
    let whole = digit_run(bytes);
    let behind = &bytes[whole..];
    if !begins(b'.', behind) {
        return whole;
    }
    let part = digit_run(&behind[1..]);
    if whole == 0 && part == 0 {
        0
    } else {
        whole + (1 + part)
    }
}

/// `e`, a sign or none, and digits: how many bytes, or 0 where they are not all there.
#[tactic(auto, unfolding(crate::specs::Pieces::exponent_len))]
fn exponent_run(bytes: &[u8]) -> usize
    ensures inside { result ≤ length bytes.now }
    ensures same { result ≡ exponent_len bytes.now }
{
    let [b'e' | b'E', behind @ ..] = bytes else {
        return 0;
    };
    let sign = if begins(b'+', behind) || begins(b'-', behind) {
        1
    } else {
        0
    };
    let digits = digit_run(&behind[sign..]);
    if digits == 0 { 0 } else { 1 + (sign + digits) }
}

/// `0x` and hexadecimal digits: how many bytes, or 0 where they are not there.
#[tactic(auto, unfolding(crate::specs::Pieces::hex_len))]
fn hexadecimal_run(bytes: &[u8]) -> usize
    ensures inside { result ≤ length bytes.now }
    ensures same { result ≡ hex_len bytes.now }
{
    if let [b'0', b'x' | b'X', behind @ ..] = bytes {
        let digits = hex_run(behind);
        if digits == 0 { 0 } else { 2 + digits }
    } else {
        0
    }
}

/// A decimal number with its exponent: how many bytes, or 0 where there is none.
#[tactic(auto, unfolding(crate::specs::Pieces::decimal_len))]
fn decimal_run(bytes: &[u8]) -> usize
    ensures inside { result ≤ length bytes.now }
    ensures same { result ≡ decimal_len bytes.now }
{
    let parts = parts_run(bytes);
    if parts == 0 {
        return 0;
    }
    parts + exponent_run(&bytes[parts..])
}

/// The longest of a number's forms: how many bytes, or 0 where none fits.
#[tactic(auto, unfolding(crate::specs::Pieces::number_len))]
pub(crate) fn number_run(bytes: &[u8]) -> usize
    ensures inside { result ≤ length bytes.now }
    ensures same { result ≡ number_len bytes.now }
{
    let hexadecimal = hexadecimal_run(bytes);
    if hexadecimal != 0 {
        return hexadecimal;
    }
    decimal_run(bytes)
}

/// A number of so many bytes, or a bad token with the bytes of a word that follow it.
#[tactic(auto, unfolding(crate::specs::Pieces::number_at))]
pub(crate) fn number_piece(len: usize, bytes: &[u8]) -> Piece
    requires some { 0 < len }
    requires inside { len ≤ length bytes.now }
    ensures some { 0 < result.len }
    ensures inside { result.len ≤ length bytes.now }
    ensures same { result ≡ number_at len bytes.now }
{
    let more = word_run(&bytes[len..]);
    if more == 0 {
        token_piece(TokenKind::Number, len + more)
    } else {
        token_piece(TokenKind::Bad, len + more)
    }
}

/// `?`, or `?` and the digits of a parameter's number; a bad token where the number is none.
#[tactic(auto, unfolding(crate::specs::Pieces::numbered_parameter_at))]
pub(crate) fn numbered_parameter_piece(bytes: &[u8]) -> Piece
    requires { 0 < length bytes.now }
    ensures some { 0 < result.len }
    ensures inside { result.len ≤ length bytes.now }
    ensures same { result ≡ numbered_parameter_at bytes.now }
{
    let behind = &bytes[1..];
    let digits = digit_run(behind);
    if digits == 0 {
        return token_piece(TokenKind::Parameter, 1);
    }
    match read_digits(MOST_PARAMETERS, &behind[..digits]) {
        None | Some(0) => token_piece(TokenKind::Bad, 1 + digits),
        Some(_) => token_piece(TokenKind::Parameter, 1 + digits),
    }
}
