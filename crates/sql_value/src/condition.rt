//! The truth of a value as a condition.
ghost use Rattle.std.specs.Prelude.{◌≡◌};
ghost use Rattle.std.specs.List.{list_any};
ghost use Rattle.sql_meaning.specs.Truth as meant;
ghost use Rattle.sql_meaning.specs.Values.{without_leading};
ghost use Rattle.sql_value.specs.View.{plain_value};

use crate::values::Value;

/// The truth of a value, `None` where it is unknown, exactly for NULL: "Boolean Expressions" of
/// <https://sqlite.org/lang_expr.html>, but that a number has no exponent. Takes no memory.
pub fn truth(value: &Value) -> Option<bool>
    ensures { result ≡ meant.truth3 (plain_value value.now) }
{
    match value {
        Value::Null => None,
        Value::Int(number) => Some(*number != 0),
        Value::Dec(units) => Some(*units != 0),
        Value::Text(bytes) => Some(is_true_text(bytes.as_slice())),
        Value::Blob(bytes) => Some(is_true_text(bytes.as_slice())),
    }
}

/// Whether the number at a text's start isn't 0.
fn is_true_text(text: &[u8]) -> bool
    ensures { result ≡ meant.is_true_text text.now }
{
    let number = after_sign(after_spaces(text));
    has_nonzero(number) || is_true_fraction(after_digits(number))
}

fn is_true_fraction(text: &[u8]) -> bool
    ensures { result ≡ list_any meant.is_nonzero (meant.digits_behind_point text.now) }
{
    match text {
        [b'.', fraction @ ..] => has_nonzero(fraction),
        _ => false,
    }
}

fn after_spaces(text: &[u8]) -> &[u8]
    ensures { result.now ≡ without_leading 32 text.now }
{
    let mut rest = text;
    while let [b' ', behind @ ..] = rest {
        rest = behind;
    }
    rest
}

fn after_sign(text: &[u8]) -> &[u8]
    ensures { result.now ≡ meant.without_sign text.now }
{
    match text {
        [b'+' | b'-', rest @ ..] => rest,
        _ => text,
    }
}

fn after_digits(text: &[u8]) -> &[u8]
    ensures { result.now ≡ meant.without_digits text.now }
{
    let mut rest = text;
    while let [b'0'..=b'9', behind @ ..] = rest {
        rest = behind;
    }
    rest
}

/// Whether the digits at a text's start have one that isn't 0.
fn has_nonzero(text: &[u8]) -> bool
    ensures { result ≡ list_any meant.is_nonzero (meant.front_digits text.now) }
{
    for byte in text {
        match *byte {
            b'0' => {}
            b'1'..=b'9' => return true,
            _ => return false,
        }
    }
    false
}
