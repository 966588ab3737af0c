//! The alphabet of the tables.
//!
//! - A value: N is NULL, i an integer, d a decimal in units of 1/10000, t a text, b a blob with its
//!   bytes as they are. `none` is no value.
//! - An affinity: I INTEGER, R REAL, N NUMERIC, T TEXT, B BLOB; - is none.
//! - A collation: b BINARY, n NOCASE, r RTRIM.
//! - A condition: 1 holds, 0 doesn't, ? is NULL.
//! - A token: w word, t text, b blob, q quoted name, n number, p parameter, s symbol, ! bad.
use sql_tokens::TokenKind;
use sql_value::{Affinity, Bytes, Collation, Memory, Value};
use std::alloc::Global;

/// A letter and a number.
fn append_number(seen: &mut Bytes, alloc: Global, letter: u8, number: i64) -> Result<(), Memory> {
    let Ok(text) = format!(in alloc; "{number}") else {
        return Err(Memory);
    };
    seen.push(letter)?;
    seen.append(text.as_bytes())
}

pub(crate) fn append_value(seen: &mut Bytes, alloc: Global, value: &Value) -> Result<(), Memory> {
    match value {
        Value::Null => seen.push(b'N'),
        Value::Int(number) => append_number(seen, alloc, b'i', *number),
        Value::Dec(units) => append_number(seen, alloc, b'd', *units),
        Value::Text(bytes) => {
            seen.push(b't')?;
            seen.append(bytes.as_slice())
        }
        Value::Blob(bytes) => {
            seen.push(b'b')?;
            seen.append(bytes.as_slice())
        }
    }
}

/// A value, or `none`.
pub(crate) fn append_found(
    seen: &mut Bytes,
    alloc: Global,
    value: &Option<Value>,
) -> Result<(), Memory> {
    match value {
        Some(value) => append_value(seen, alloc, value),
        None => seen.append(b"none"),
    }
}

pub(crate) fn affinity_letter(affinity: Option<Affinity>) -> u8 {
    match affinity {
        None => b'-',
        Some(Affinity::Integer) => b'I',
        Some(Affinity::Real) => b'R',
        Some(Affinity::Numeric) => b'N',
        Some(Affinity::Text) => b'T',
        Some(Affinity::Blob) => b'B',
    }
}

/// The affinity of a letter; none of another one.
pub(crate) fn affinity(letter: &str) -> Option<Affinity> {
    match letter.as_bytes() {
        b"I" => Some(Affinity::Integer),
        b"R" => Some(Affinity::Real),
        b"N" => Some(Affinity::Numeric),
        b"T" => Some(Affinity::Text),
        b"B" => Some(Affinity::Blob),
        _ => None,
    }
}

/// The collation of a letter.
pub(crate) fn collation(letter: &str) -> Collation {
    match letter.as_bytes() {
        b"n" => Collation::Nocase,
        b"r" => Collation::Rtrim,
        _ => Collation::Binary,
    }
}

pub(crate) fn condition_letter(condition: Option<bool>) -> u8 {
    match condition {
        Some(true) => b'1',
        Some(false) => b'0',
        None => b'?',
    }
}

pub(crate) fn token_letter(kind: TokenKind) -> u8 {
    match kind {
        TokenKind::Word => b'w',
        TokenKind::Text => b't',
        TokenKind::Blob => b'b',
        TokenKind::Quoted => b'q',
        TokenKind::Number => b'n',
        TokenKind::Parameter => b'p',
        TokenKind::Symbol => b's',
        TokenKind::Bad => b'!',
    }
}
