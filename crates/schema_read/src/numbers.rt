//! Numbers of a dump.
ghost use Rattle.std.specs.Prelude.{◌≡◌, ◌++◌, IfOk, OnOk, option_map, position};
ghost use Rattle.sql_meaning.specs.Values.{without_trailing};
ghost use Rattle.sql_value.specs.View.{plain_value};
ghost use Rattle.schema_read.specs.Numbers as meant;

use sql_value::{Bytes, Memory, Value, read_number};
use std::alloc::Global;

/// Digits without the zeros at their end.
fn trim_zeros(digits: &[u8]) -> &[u8]
    ensures { result.now ≡ without_trailing 48 digits.now }
{
    let mut rest = digits;
    while let [front @ .., b'0'] = rest {
        rest = front;
    }
    rest
}

/// Appends digits, or `0` where there are none.
fn append_digits(written: &mut Bytes, digits: &[u8]) -> Result<(), Memory>
    ensures { OnOk result (written.new ≡ written.old ++ meant.some_digits digits.now) }
{
    if digits.is_empty() {
        written.append(b"0")
    } else {
        written.append(digits)
    }
}

fn append_pointed(written: &mut Bytes, whole: &[u8], fraction: &[u8]) -> Result<(), Memory>
    ensures { OnOk result (written.new ≡ written.old ++ meant.pointed_text whole.now fraction.now) }
{
    append_digits(written, whole)?;
    written.append(b".")?;
    append_digits(written, trim_zeros(fraction))
}

fn point_place(bytes: &[u8]) -> Option<usize>
    ensures { result ≡ position meant.is_point bytes.now }
{
    bytes.iter().position(
        |byte: &u8| -> bool
            ensures { result ≡ meant.is_point byte.now }
        { *byte == b'.' },
    )
}

/// Appends a number as values write it: with a digit on both sides of its point, and without zeros
/// at its end.
fn append_number(written: &mut Bytes, bytes: &[u8]) -> Result<(), Memory>
    ensures { OnOk result (written.new ≡ written.old ++ meant.number_text bytes.now) }
{
    match point_place(bytes) {
        Some(place) => append_pointed(written, &bytes[..place], &bytes[place + 1..]),
        None => written.append(bytes),
    }
}

/// The value of a number, where it is one of those that this project has.
pub(crate) fn number_value(
    alloc: Global,
    negative: bool,
    bytes: &[u8],
) -> Result<Option<Value>, Memory>
    ensures { IfOk result (λ value. option_map plain_value value
        ≡ meant.number_value negative bytes.now) }
{
    let mut written = Bytes::new(alloc);
    if negative {
        written.append(b"-")?;
    }
    append_number(&mut written, bytes)?;
    Ok(read_number(written.as_slice()))
}
