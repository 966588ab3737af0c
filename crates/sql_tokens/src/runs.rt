//! How many bytes of one kind stand at the front.
ghost use Rattle.std.specs.Prelude.{◌≡◌, ◌≤◌, ◌==◌, length, not, drop};
ghost use Rattle.std.specs.List.{prefix_len};
ghost use Rattle.std.specs.Char.{is_ascii_digit, is_ascii_hexdigit};
ghost use Rattle.sql_tokens.specs.Characters.{is_space_byte, is_word_byte};
ghost use Rattle.sql_tokens.specs.Runs.{begins, comment_len};

use crate::characters::{is_space, is_word_byte};

/// Whether the bytes begin with this one.
pub(crate) fn begins(byte: u8, bytes: &[u8]) -> bool
    ensures { result ≡ begins byte bytes.now }
{
    match bytes {
        [first, ..] => *first == byte,
        [] => false,
    }
}

/// What stands from a place on.
pub(crate) fn rest_from(bytes: &[u8], start: usize) -> &[u8]
    requires { start ≤ length bytes.now }
    ensures { result.now ≡ drop start bytes.now }
{
    &bytes[start..]
}

pub(crate) fn space_run(bytes: &[u8]) -> usize
    ensures inside { result ≤ length bytes.now }
    ensures same { result ≡ prefix_len is_space_byte bytes.now }
{
    bytes.iter().take_while(|byte| is_space(**byte)).count()
}

pub(crate) fn word_run(bytes: &[u8]) -> usize
    ensures inside { result ≤ length bytes.now }
    ensures same { result ≡ prefix_len is_word_byte bytes.now }
{
    bytes.iter().take_while(|byte| is_word_byte(**byte)).count()
}

pub(crate) fn digit_run(bytes: &[u8]) -> usize
    ensures inside { result ≤ length bytes.now }
    ensures same { result ≡ prefix_len is_ascii_digit bytes.now }
{
    bytes
        .iter()
        .take_while(|byte| byte.is_ascii_digit())
        .count()
}

pub(crate) fn hex_run(bytes: &[u8]) -> usize
    ensures inside { result ≤ length bytes.now }
    ensures same { result ≡ prefix_len is_ascii_hexdigit bytes.now }
{
    bytes
        .iter()
        .take_while(|byte| byte.is_ascii_hexdigit())
        .count()
}

/// The bytes of a line, without its line feed.
pub(crate) fn line_run(bytes: &[u8]) -> usize
    ensures inside { result ≤ length bytes.now }
    ensures same { result ≡ prefix_len (λ b. not (b == 10)) bytes.now }
{
    bytes.iter().take_while(|byte| **byte != b'\n').count()
}

/// The bytes before the next `]`.
pub(crate) fn bracket_run(bytes: &[u8]) -> usize
    ensures inside { result ≤ length bytes.now }
    ensures same { result ≡ prefix_len (λ b. not (b == 93)) bytes.now }
{
    bytes.iter().take_while(|byte| **byte != b']').count()
}

/// The bytes up to and with the next `*/`, or all.
pub(crate) fn comment_run(bytes: &[u8]) -> usize
    ensures inside { result ≤ length bytes.now }
    ensures same { result ≡ comment_len bytes.now }
{
    let mut starred = false;
    for (number, byte) in bytes.iter().enumerate() {
        if starred && *byte == b'/' {
            return number + 1;
        }
        starred = *byte == b'*';
    }
    bytes.len()
}
