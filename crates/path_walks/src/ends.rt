//! Ends of ranges.
ghost use Rattle.std.specs.Prelude.{◌≡◌};
ghost use Rattle.path_walks.specs.Ends.{plain_end, has_null_key};

use crate::columns::is_null;
use sql_value::Value;

/// An end of a range: a value, and whether what is the same is within.
#[derive(Drop)]
pub struct End {
    pub key: Value,
    pub inclusive: bool,
}

/// Whether there is an end whose key is NULL: nothing is beside it, so its range is empty.
pub(crate) fn has_null_key(end: Option<&End>) -> bool
    ensures { result ≡ has_null_key (plain_end end.entry) }
{
    match end {
        Some(end) => is_null(&end.key),
        None => false,
    }
}
