//! Texts that read as numbers, and the texts of numbers.
ghost use Rattle.std.specs.Prelude.{◌≡◌, ◌<◌, ◌≤◌, ◌+◌, ◌++◌, ◌^◌, IfOk, OnOk, option_map};
ghost use Rattle.std.specs.Fmt.{signed_decimal};
ghost use Rattle.sql_meaning.specs.Numbers as meant;
ghost use Rattle.sql_value.specs.View.{plain_value};

use crate::items::{Bytes, Memory};
use crate::values::Value;
use std::alloc::Global;

/// The greatest part of a decimal before its point.
const MOST_WHOLE_PART: u64 = 99_999_999_999;

/// The distance of `i64::MIN` from 0.
const MOST_BELOW_ZERO: u64 = 0x8000_0000_0000_0000;

/// The number that a text reads as: an optional sign and digits within 64 bits, or an optional
/// sign, digits, a point and one to four digits, below 10^11 on either side of 0. Any other text,
/// also one with spaces, is `None`. Takes no memory.
///
/// Section 3 of <https://sqlite.org/datatype3.html> has this for SQLite, whose numbers take more
/// forms.
pub fn read_number(text: &[u8]) -> Option<Value>
    ensures { option_map plain_value result ≡ meant.read_number text.now }
{
    match text {
        [b'+', rest @ ..] => read_unsigned(false, rest),
        [b'-', rest @ ..] => read_unsigned(true, rest),
        _ => read_unsigned(false, text),
    }
}

fn read_unsigned(negative: bool, text: &[u8]) -> Option<Value>
    ensures { option_map plain_value result ≡ meant.read_unsigned negative text.now }
{
    let point = text.iter().position(
        |byte: &u8| -> bool
            ensures { result ≡ meant.is_point byte.now }
        { *byte == b'.' },
    );
    match point {
        Some(place) => read_pointed(negative, &text[..place], &text[place + 1..]),
        None => read_whole(negative, text),
    }
}

fn read_whole(negative: bool, digits: &[u8]) -> Option<Value>
    ensures { option_map plain_value result ≡ meant.read_whole negative digits.now }
{
    if negative {
        match read_digits(MOST_BELOW_ZERO, digits) {
            Some(MOST_BELOW_ZERO) => Some(Value::Int(i64::MIN)),
            Some(number) => Some(Value::Int(with_sign(true, number))),
            None => None,
        }
    } else {
        match read_digits(i64::MAX as u64, digits) {
            Some(number) => Some(Value::Int(with_sign(false, number))),
            None => None,
        }
    }
}

fn read_pointed(negative: bool, digits: &[u8], fraction: &[u8]) -> Option<Value>
    ensures { option_map plain_value result ≡ meant.read_pointed negative digits.now fraction.now }
{
    let number = read_digits(MOST_WHOLE_PART, digits)?;
    let part = read_digits(9_999, fraction)?;
    if fraction.len() > 4 {
        return None;
    }
    let units = number * 10000 + part * last_digit_units(fraction.len());
    Some(Value::Dec(with_sign(negative, units)))
}

/// The number that one digit or more write, where it is at most this; `None` for any other text.
/// Takes no memory.
pub fn read_digits(most: u64, digits: &[u8]) -> Option<u64>
    requires { most ≤ 2 ^ 63 }
    ensures { result ≡ meant.digits_up_to most digits.now }
{
    if digits.is_empty() {
        return None;
    }
    let mut number: u64 = 0;
    for digit in digits {
        if *digit < b'0' || *digit > b'9' {
            return None;
        }
        let next = 10 * (number as u128) + ((*digit - b'0') as u128);
        if next > most as u128 {
            return None;
        }
        number = next as u64;
    }
    Some(number)
}

/// A size with its sign.
pub fn with_sign(negative: bool, number: u64) -> i64
    requires { number < 2 ^ 63 }
    ensures { result ≡ meant.signed negative number }
{
    if negative {
        -(number as i64)
    } else {
        number as i64
    }
}

/// How many units of 1/10000 the last of so many digits behind a point stands for.
pub fn last_digit_units(places: usize) -> u64
    requires { places ≤ 4 }
    ensures { result ≡ meant.last_digit_units places }
{
    match places {
        0 => 10000,
        1 => 1000,
        2 => 100,
        3 => 10,
        _ => 1,
    }
}

/// The digits of a whole number, behind `-` where it is below 0.
pub(crate) fn int_text(alloc: Global, number: i64) -> Result<Bytes, Memory>
    ensures { IfOk result (λ text. text ≡ signed_decimal number) }
{
    Bytes::copy(alloc, format!(in alloc; "{number}")?.as_bytes())
}

/// The sign, whole part, point and fraction of a decimal.
pub(crate) fn dec_text(alloc: Global, units: i64) -> Result<Bytes, Memory>
    ensures { IfOk result (λ text. text ≡ meant.dec_text units) }
{
    let mut text = Bytes::new(alloc);
    if units < 0 {
        text.push(b'-')?;
    }
    let size = units.unsigned_abs();
    let whole_part = size / 10000;
    let Ok(digits) = format!(in alloc; "{whole_part}") else {
        return Err(Memory);
    };
    text.append(digits.as_bytes())?;
    text.push(b'.')?;
    append_fraction(&mut text, size % 10000)?;
    Ok(text)
}

/// Appends the digits of so many 1/10000, without the zeros at their end but for the first digit.
fn append_fraction(text: &mut Bytes, fraction: u64) -> Result<(), Memory>
    requires { fraction < 10000 }
    ensures { OnOk result (text.new ≡ text.old ++ meant.fraction_text fraction) }
{
    text.push(b'0' + (fraction / 1000) as u8)?;
    if fraction % 1000 == 0 {
        return Ok(());
    }
    text.push(b'0' + (fraction / 100 % 10) as u8)?;
    if fraction % 100 == 0 {
        return Ok(());
    }
    text.push(b'0' + (fraction / 10 % 10) as u8)?;
    if fraction % 10 == 0 {
        return Ok(());
    }
    text.push(b'0' + (fraction % 10) as u8)
}
