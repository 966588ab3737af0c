//! Declared types of columns.
ghost use Rattle.std.specs.Prelude.{◌≡◌};
ghost use Rattle.sql_meaning.specs.DeclaredTypes as meant;
ghost use Rattle.sql_meaning.specs.Letters.{folded_bytes};
ghost use Rattle.sql_value.specs.View.{plain_affinity};

use crate::names::fold_byte;
use crate::values::Affinity;

/// The affinity of a column of this declared type: section 3.1 of
/// <https://sqlite.org/datatype3.html>. The empty text is a column without a type. Takes no memory.
pub fn affinity_of(declared: &[u8]) -> Affinity
    ensures { plain_affinity result ≡ meant.affinity_of declared.now }
{
    if holds_word(declared, b"int") {
        Affinity::Integer
    } else if holds_word(declared, b"char")
        || holds_word(declared, b"clob")
        || holds_word(declared, b"text")
    {
        Affinity::Text
    } else if holds_word(declared, b"blob") || declared.is_empty() {
        Affinity::Blob
    } else if holds_word(declared, b"real")
        || holds_word(declared, b"floa")
        || holds_word(declared, b"doub")
    {
        Affinity::Real
    } else {
        Affinity::Numeric
    }
}

/// Whether a word in small letters stands somewhere in a text, whatever the case there.
fn holds_word(text: &[u8], word: &[u8]) -> bool
    ensures { result ≡ meant.holds_word word.now (folded_bytes text.now) }
{
    let mut rest = text;
    while let [_, behind @ ..] = rest {
        if begins_with(rest, word) {
            return true;
        }
        rest = behind;
    }
    false
}

fn begins_with(text: &[u8], word: &[u8]) -> bool
    ensures { result ≡ meant.begins_with word.now (folded_bytes text.now) }
{
    let mut rest = text;
    for letter in word {
        let [first, behind @ ..] = rest else {
            return false;
        };
        if fold_byte(*first) != *letter {
            return false;
        }
        rest = behind;
    }
    true
}
