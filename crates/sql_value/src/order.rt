//! The order of values.
ghost use Rattle.std.specs.Prelude.{◌≡◌, ◌*ℤ◌, pos};
ghost use Rattle.std.specs.Cmp.Lexicographic.{slice_cmp};
ghost use Rattle.std.specs.Ordering.{nat_cmp, int_cmp};
ghost use Rattle.sql_meaning.specs.Letters.{folded_bytes};
ghost use Rattle.sql_meaning.specs.Values.{value_cmp, text_key, without_trailing};
ghost use Rattle.sql_value.specs.View.{plain_value, plain_collation};

use crate::names::fold_byte;
use crate::values::{Collation, Value};
use std::cmp::Ordering;

/// The order of two values: NULL first, then numbers, texts and blobs, as section 4.1 of
/// <https://sqlite.org/datatype3.html> has it. Takes no memory and makes no key.
pub fn compare(coll: Collation, left: &Value, right: &Value) -> Ordering
    ensures { result ≡ value_cmp (plain_collation coll) (plain_value left.now)
        (plain_value right.now) }
{
    match (left, right) {
        (Value::Null, Value::Null) => Ordering::Equal,
        (Value::Null, _) => Ordering::Less,
        (_, Value::Null) => Ordering::Greater,
        (Value::Int(a), Value::Int(b)) => compare_ints(a, b),
        (Value::Int(a), Value::Dec(b)) => (*a as i128 * 10000).cmp(&(*b as i128)),
        (Value::Dec(a), Value::Int(b)) => (*a as i128).cmp(&(*b as i128 * 10000)),
        (Value::Dec(a), Value::Dec(b)) => a.cmp(b),
        (Value::Int(_), _) => Ordering::Less,
        (Value::Dec(_), _) => Ordering::Less,
        (_, Value::Int(_)) => Ordering::Greater,
        (_, Value::Dec(_)) => Ordering::Greater,
        (Value::Text(a), Value::Text(b)) => compare_texts(coll, a.as_slice(), b.as_slice()),
        (Value::Text(_), Value::Blob(_)) => Ordering::Less,
        (Value::Blob(_), Value::Text(_)) => Ordering::Greater,
        (Value::Blob(a), Value::Blob(b)) => a.as_slice().cmp(b.as_slice()),
    }
}

/// Integers compare as their multiples do, so nothing is multiplied.
fn compare_ints(left: &i64, right: &i64) -> Ordering
    ensures { result ≡ int_cmp (left.now *ℤ pos 10000) (right.now *ℤ pos 10000) }
{
    left.cmp(right)
}

fn compare_texts(coll: Collation, left: &[u8], right: &[u8]) -> Ordering
    ensures { result ≡ slice_cmp nat_cmp (text_key (plain_collation coll) left.now)
        (text_key (plain_collation coll) right.now) }
{
    match coll {
        Collation::Binary => left.cmp(right),
        Collation::Nocase => compare_folded(left, right),
        Collation::Rtrim => trim_spaces(left).cmp(trim_spaces(right)),
    }
}

fn compare_folded(left: &[u8], right: &[u8]) -> Ordering
    ensures { result ≡ slice_cmp nat_cmp (folded_bytes left.now) (folded_bytes right.now) }
{
    left.iter()
        .map(|byte| fold_byte(*byte))
        .cmp(right.iter().map(|byte| fold_byte(*byte)))
}

/// The text without the spaces at its end.
fn trim_spaces(text: &[u8]) -> &[u8]
    ensures { result.now ≡ without_trailing 32 text.now }
{
    let mut rest = text;
    while let [front @ .., b' '] = rest {
        rest = front;
    }
    rest
}
