//! Values, their types, and lists of them.
ghost use Rattle.std.specs.Prelude.{◌≡◌, IfOk};

use crate::items::{Bytes, Items, Memory};
use std::alloc::Global;

/// A value of a row, a constant or a result.
///
/// The storage classes are those of <https://sqlite.org/datatype3.html>, section 2, but for
/// floating point: a number is a 64-bit integer or a decimal of four digits behind the point.
#[derive(Drop)]
pub enum Value {
    Null,
    Int(i64),
    /// Units of 1/10000, fewer than 10^15 on either side of 0.
    Dec(i64),
    Text(Bytes),
    Blob(Bytes),
}

impl Value {
    /// A value that equals this one.
    pub fn try_copy(&self, alloc: Global) -> Result<Value, Memory>
        ensures { IfOk result (λ copy. copy ≡ self.now) }
    {
        Ok(match self {
            Value::Null => Value::Null,
            Value::Int(number) => Value::Int(*number),
            Value::Dec(units) => Value::Dec(*units),
            Value::Text(bytes) => Value::Text(Bytes::copy(alloc, bytes.as_slice())?),
            Value::Blob(bytes) => Value::Blob(Bytes::copy(alloc, bytes.as_slice())?),
        })
    }
}

/// The type affinity of a column, or of an expression that has one: section 3 of
/// <https://sqlite.org/datatype3.html>.
#[derive(Clone, Copy, Debug, PartialEq, Eq)]
pub enum Affinity {
    Integer,
    Real,
    Numeric,
    Text,
    Blob,
}

/// The conversion of each side of a comparison.
#[derive(Clone, Copy, Debug, PartialEq, Eq)]
pub struct Conversions {
    pub left: Option<Affinity>,
    pub right: Option<Affinity>,
}

/// How texts compare: section 7 of <https://sqlite.org/datatype3.html>.
#[derive(Clone, Copy, Debug, PartialEq, Eq)]
pub enum Collation {
    /// Byte by byte.
    Binary,
    /// With `A` to `Z` made lower.
    Nocase,
    /// Without the spaces at the end.
    Rtrim,
}

/// A list of values: a row, or one line of an answer.
pub type Values = Items<Value>;
