//! Which number the text of a number token writes.
ghost use Rattle.std.specs.Prelude.{◌≡◌, option_map};
ghost use Rattle.sql_meaning.specs.Numbers.{is_point};
ghost use Rattle.sql_meaning.specs.Values.{without_trailing};
ghost use Rattle.sql_value.specs.View.{plain_value};
ghost use Rattle.sql_tokens.specs.NumberValues.{or_zero, whole_of, decimal_of};
ghost use Rattle.sql_tokens.specs.NumberValues.{number_of, signed_value};

use sql_value::{Value, last_digit_units, read_digits, with_sign};

/// A number without its sign.
#[derive(Clone, Copy, Debug, PartialEq, Eq)]
pub enum Number {
    /// Digits alone: at most 2^63, which a `-` brings within 64 bits.
    Int(u64),
    /// A number with a point, in units of 1/10000.
    Dec(u64),
}

/// The size of the least integer of 64 bits.
const MOST_WHOLE: u64 = 0x8000_0000_0000_0000;

/// The greatest part of a decimal before its point.
const MOST_WHOLE_PART: u64 = 99_999_999_999;

/// The greatest decimal, in units of 1/10000.
const MOST_UNITS: u64 = 999_999_999_999_999;

/// The digits without the zeros at their end.
fn trim_zeros(digits: &[u8]) -> &[u8]
    ensures { result.now ≡ without_trailing 48 digits.now }
{
    let mut rest = digits;
    while let [front @ .., b'0'] = rest {
        rest = front;
    }
    rest
}

/// The digits, or a zero where there is none.
fn or_zero(digits: &[u8]) -> &[u8]
    ensures { result.now ≡ or_zero digits.now }
{
    if digits.is_empty() { b"0" } else { digits }
}

/// Digits alone.
fn whole_of(digits: &[u8]) -> Option<Number>
    ensures { result ≡ whole_of digits.now }
{
    match read_digits(MOST_WHOLE, digits) {
        Some(number) => Some(Number::Int(number)),
        None => None,
    }
}

/// A number of one digit or more on either side of its point.
fn decimal_of(whole: &[u8], fraction: &[u8]) -> Option<Number>
    ensures { result ≡ decimal_of whole.now fraction.now }
{
    let number = read_digits(MOST_WHOLE_PART, whole)?;
    let part = read_digits(9_999, fraction)?;
    if fraction.len() > 4 {
        return None;
    }
    Some(Number::Dec(number * 10000 + part * last_digit_units(fraction.len())))
}

/// The number that the text of a number token writes. `None` where it is outside of what is
/// read: with an exponent, hexadecimal, above 2^63, or with a point and 10^11 or more, or with
/// more than four digits behind it but for zeros at the end. Takes no memory.
///
/// <https://www.sqlite.org/lang_expr.html#literal_values_constants_>
pub fn token_number(bytes: &[u8]) -> Option<Number>
    ensures { result ≡ number_of bytes.now }
{
    let point = bytes.iter().position(
        |byte: &u8| -> bool
            ensures { result ≡ is_point byte.now }
        { *byte == b'.' },
    );
    match point {
        Some(place) => decimal_of(
            or_zero(&bytes[..place]),
            or_zero(trim_zeros(&bytes[place + 1..])),
        ),
        None => whole_of(bytes),
    }
}

/// A number as a value, below 0 where a `-` stands before it. `None` where it isn't within the
/// range of values: 2^63 without `-`.
pub fn signed_number(negative: bool, number: Number) -> Option<Value>
    ensures { option_map plain_value result ≡ signed_value negative number }
{
    match number {
        Number::Int(MOST_WHOLE) if negative => Some(Value::Int(i64::MIN)),
        Number::Int(size) if size < MOST_WHOLE => Some(Value::Int(with_sign(negative, size))),
        Number::Dec(units) if units <= MOST_UNITS => Some(Value::Dec(with_sign(negative, units))),
        Number::Int(_) | Number::Dec(_) => None,
    }
}
