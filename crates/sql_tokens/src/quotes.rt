//! Quoted forms: texts, blobs and quoted names.
ghost use Rattle.std.specs.Prelude.{◌≡◌, ◌<◌, ◌≤◌, ◌+◌, length, IfSome};
ghost use Rattle.sql_tokens.specs.Runs.{inside_len};
ghost use Rattle.sql_tokens.specs.Pieces.{quoted_at, blob_at, bracket_at};

use crate::pieces::{Piece, token_piece};
use crate::runs::{bracket_run, hex_run};
use crate::token::TokenKind;

/// How many bytes there are up to and with the quote that closes; `None` where none does.
/// A doubled quote does not close.
fn closing_run(quote: u8, bytes: &[u8]) -> Option<usize>
    ensures inside { IfSome result (λ n. (0 < n) × (n ≤ length bytes.now)) }
    ensures same { result ≡ inside_len quote bytes.now }
{
    let mut behind_quote = false;
    for (number, byte) in bytes.iter().enumerate() {
        if behind_quote {
            if *byte != quote {
                return Some(number);
            }
            behind_quote = false;
        } else {
            behind_quote = *byte == quote;
        }
    }
    if behind_quote {
        Some(bytes.len())
    } else {
        None
    }
}

/// The quoted form that begins with this quote, or a bad token to the end.
#[tactic(auto, unfolding(crate::specs::Pieces::quoted_at))]
pub(crate) fn quoted_piece(kind: TokenKind, quote: u8, bytes: &[u8]) -> Piece
    requires { 0 < length bytes.now }
    ensures some { 0 < result.len }
    ensures inside { result.len ≤ length bytes.now }
    ensures same { result ≡ quoted_at kind quote bytes.now }
{
    match closing_run(quote, &bytes[1..]) {
        Some(len) => token_piece(kind, len + 1),
        None => token_piece(TokenKind::Bad, bytes.len()),
    }
}

/// A blob, whose letter and quote stand first, or a bad token. The whole quoted form counts, so
/// a doubled quote inside makes it bad.
#[tactic(auto, unfolding(crate::specs::Pieces::blob_at))]
pub(crate) fn blob_piece(bytes: &[u8]) -> Piece
    requires { 2 ≤ length bytes.now }
    ensures some { 0 < result.len }
    ensures inside { result.len ≤ length bytes.now }
    ensures same { result ≡ blob_at bytes.now }
{
    let inside = &bytes[2..];
    let digits = hex_run(inside);
    match closing_run(b'\'', inside) {
        Some(len) if digits % 2 == 0 && len == digits + 1 => token_piece(TokenKind::Blob, len + 2),
        Some(len) => token_piece(TokenKind::Bad, len + 2),
        None => token_piece(TokenKind::Bad, bytes.len()),
    }
}

/// `[` up to the next `]`, or a bad token to the end.
#[tactic(auto, unfolding(crate::specs::Pieces::bracket_at))]
pub(crate) fn bracket_piece(bytes: &[u8]) -> Piece
    requires { 0 < length bytes.now }
    ensures some { 0 < result.len }
    ensures inside { result.len ≤ length bytes.now }
    ensures same { result ≡ bracket_at bytes.now }
{
    let len = bracket_run(bytes);
    if len < bytes.len() {
        token_piece(TokenKind::Quoted, len + 1)
    } else {
        token_piece(TokenKind::Bad, bytes.len())
    }
}
