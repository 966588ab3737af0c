//! Collations, by their names.
ghost use Rattle.std.specs.Prelude.{◌≡◌};
ghost use Rattle.sql_meaning.specs.Orders.{same_collation};
ghost use Rattle.sql_value.specs.Collations as meant;
ghost use Rattle.sql_value.specs.View.{plain_collation};

use crate::keywords::is_same_word;
use crate::values::Collation;

/// The collation of a name; none where it is of no collation that is known
/// (<https://sqlite.org/datatype3.html>, section 7). Takes no memory.
pub fn collation_named(name: &[u8]) -> Option<Collation>
    ensures { result ≡ meant.collation_named name.now }
{
    if is_same_word(name, b"binary") {
        Some(Collation::Binary)
    } else if is_same_word(name, b"nocase") {
        Some(Collation::Nocase)
    } else if is_same_word(name, b"rtrim") {
        Some(Collation::Rtrim)
    } else {
        None
    }
}

/// Whether two collations are the same.
pub fn is_same_collation(left: Collation, right: Collation) -> bool
    ensures { result ≡ same_collation (plain_collation left) (plain_collation right) }
{
    match (left, right) {
        (Collation::Binary, Collation::Binary) => true,
        (Collation::Nocase, Collation::Nocase) => true,
        (Collation::Rtrim, Collation::Rtrim) => true,
        _ => false,
    }
}
