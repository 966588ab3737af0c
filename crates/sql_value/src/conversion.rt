//! What becomes of a value in a column, and of the two sides of a comparison.
ghost use Rattle.std.specs.Prelude.{◌≡◌, IfOk, IsErr, option_map};
ghost use Rattle.sql_meaning.specs.Conversions as meant;
ghost use Rattle.sql_value.specs.View.{plain_value, plain_affinity};

use crate::items::Memory;
use crate::numbers::{dec_text, int_text, read_number};
use crate::values::{Affinity, Conversions, Value};
use std::alloc::Global;

/// The value as a column of this affinity holds it: section 3 of
/// <https://sqlite.org/datatype3.html>.
pub fn apply(alloc: Global, aff: Affinity, value: &Value) -> Result<Value, Memory>
    ensures { IfOk result (λ made. plain_value made
        ≡ meant.converted (plain_affinity aff) (plain_value value.now)) }
{
    match aff {
        Affinity::Integer | Affinity::Numeric => Ok(narrow(copy_with_text_read(alloc, value)?)),
        Affinity::Real => Ok(widen(copy_with_text_read(alloc, value)?)),
        Affinity::Text => copy_written(alloc, value),
        Affinity::Blob => value.try_copy(alloc),
    }
}

/// The answer of [`apply`] for a value that is given up for it: what stays as it is, is moved.
/// Takes memory under TEXT alone.
pub fn convert(alloc: Global, aff: Affinity, value: Value) -> Result<Value, Memory>
    ensures memory { IsErr result → aff ≡ Affinity.Text }
    ensures converted { IfOk result (λ made. plain_value made
        ≡ meant.converted (plain_affinity aff) (plain_value value)) }
{
    match aff {
        Affinity::Integer | Affinity::Numeric => Ok(narrow(with_text_read(value))),
        Affinity::Real => Ok(widen(with_text_read(value))),
        Affinity::Text => written(alloc, value),
        Affinity::Blob => Ok(value),
    }
}

/// A text that reads as a number is that number.
fn with_text_read(value: Value) -> Value
    ensures { plain_value result ≡ meant.with_text_read (plain_value value) }
{
    if let Value::Text(text) = &value {
        if let Some(number) = read_number(text.as_slice()) {
            return number;
        }
    }
    value
}

fn copy_with_text_read(alloc: Global, value: &Value) -> Result<Value, Memory>
    ensures { IfOk result (λ made. plain_value made
        ≡ meant.with_text_read (plain_value value.now)) }
{
    if let Value::Text(text) = value {
        if let Some(number) = read_number(text.as_slice()) {
            return Ok(number);
        }
    }
    value.try_copy(alloc)
}

/// A decimal that is a whole number is an integer.
fn narrow(value: Value) -> Value
    ensures { plain_value result ≡ meant.narrowed (plain_value value) }
{
    match value {
        Value::Dec(units) if units % 10000 == 0 => Value::Int(units / 10000),
        other => other,
    }
}

/// An integer below 10^11 on either side of 0 is a decimal.
fn widen(value: Value) -> Value
    ensures { plain_value result ≡ meant.widened (plain_value value) }
{
    match value {
        Value::Int(number) if number.unsigned_abs() < 100_000_000_000 => Value::Dec(number * 10000),
        other => other,
    }
}

/// A number is its text.
fn written(alloc: Global, value: Value) -> Result<Value, Memory>
    ensures { IfOk result (λ made. plain_value made ≡ meant.written (plain_value value)) }
{
    match value {
        Value::Int(number) => Ok(Value::Text(int_text(alloc, number)?)),
        Value::Dec(units) => Ok(Value::Text(dec_text(alloc, units)?)),
        other => Ok(other),
    }
}

fn copy_written(alloc: Global, value: &Value) -> Result<Value, Memory>
    ensures { IfOk result (λ made. plain_value made ≡ meant.written (plain_value value.now)) }
{
    match value {
        Value::Int(number) => Ok(Value::Text(int_text(alloc, *number)?)),
        Value::Dec(units) => Ok(Value::Text(dec_text(alloc, *units)?)),
        other => other.try_copy(alloc),
    }
}

/// What is applied to each side of a comparison, by the affinities that the two sides have: section
/// 4.2 of <https://sqlite.org/datatype3.html>. Takes no memory.
pub fn conversions(left: Option<Affinity>, right: Option<Affinity>) -> Conversions
    ensures left { option_map plain_affinity result.left ≡ meant.side_conversion
        (option_map plain_affinity left) (option_map plain_affinity right) }
    ensures right { option_map plain_affinity result.right ≡ meant.side_conversion
        (option_map plain_affinity right) (option_map plain_affinity left) }
{
    Conversions {
        left: side_conversion(left, right),
        right: side_conversion(right, left),
    }
}

fn side_conversion(own: Option<Affinity>, other: Option<Affinity>) -> Option<Affinity>
    ensures { option_map plain_affinity result
        ≡ meant.side_conversion (option_map plain_affinity own) (option_map plain_affinity other) }
{
    if is_numeric(other) && !is_numeric(own) {
        Some(Affinity::Numeric)
    } else if other == Some(Affinity::Text) && own.is_none() {
        Some(Affinity::Text)
    } else {
        None
    }
}

fn is_numeric(aff: Option<Affinity>) -> bool
    ensures { result ≡ meant.is_numeric (option_map plain_affinity aff) }
{
    matches!(
        aff,
        Some(Affinity::Integer | Affinity::Real | Affinity::Numeric)
    )
}
