//! Laws of values.
ghost use Rattle.std.specs.Prelude.{◌≡◌, ◌<◌, ◌^◌, ◌++◌, ◌↔◌, ℕ, ℤ, List, nat_abs, true, length};
ghost use Rattle.std.specs.Prelude.{Some};
ghost use Rattle.std.specs.Cmp.{IsTotalOrder};
ghost use Rattle.std.specs.Fmt.{signed_decimal};
ghost use Rattle.sql_meaning.specs.Values.{Value, Null, Int, Dec, Text, Blob, Collation, Affinity};
ghost use Rattle.sql_meaning.specs.Values.{value_cmp, Before, Same, IsI64, IsValue};
ghost use Rattle.sql_meaning.specs.Numbers.{ReadsAs, read_number, dec_text};
ghost use Rattle.sql_meaning.specs.Conversions.{converted, with_text_read, IsFixed, is_numeric};
ghost use Rattle.sql_meaning.specs.DeclaredTypes.{holds_word};
ghost use Rattle.sql_meaning.specs.Truth.{is_true_text, HasNonzeroRun};

/// Values under a collation are in a total order up to values that compare as the same.
pub fn order_is_total()
    ensures total { (coll : Collation) → IsTotalOrder (value_cmp coll) }
    ensures ties { (coll : Collation) → (v w : Value) → Same coll v w
        ↔ ((Before coll v w → ⊥) × (Before coll w v → ⊥)) }
{}

/// To compare as the same is an equivalence.
pub fn same_is_an_equivalence()
    ensures reflexive { (coll : Collation) → (v : Value) → Same coll v v }
    ensures symmetric { (coll : Collation) → (v w : Value) → Same coll v w → Same coll w v }
    ensures transitive { (coll : Collation) → (u v w : Value) → Same coll u v → Same coll v w
        → Same coll u w }
{}

/// A text reads as a number exactly where it has the parts of one, and as one number only.
pub fn numbers_are_read()
    ensures exactly { (text : List ℕ) → (v : Value) → ReadsAs text v ↔ (read_number text ≡ Some v) }
    ensures one_number { (text : List ℕ) → (v w : Value) → ReadsAs text v → ReadsAs text w → v ≡ w }
    ensures bounds { (text : List ℕ) → (v : Value) → ReadsAs text v → IsValue v }
{}

/// The text of a number reads as that number.
pub fn written_numbers_read_back()
    ensures integers { (n : ℤ) → IsI64 n → read_number (signed_decimal n) ≡ Some (Int n) }
    ensures decimals { (u : ℤ) → nat_abs u < 10 ^ 15 → read_number (dec_text u) ≡ Some (Dec u) }
{}

/// What a conversion gives, it keeps; it changes neither NULL nor a blob, and a numeric one gives
/// what compares as the number that the value reads as.
pub fn conversions_settle()
    ensures fixed { (aff : Affinity) → (v : Value) → IsFixed aff (converted aff v) }
    ensures null { (aff : Affinity) → converted aff Null ≡ Null }
    ensures blobs { (aff : Affinity) → (bytes : List ℕ) → converted aff (Blob bytes) ≡ Blob bytes }
    ensures numbers { (aff : Affinity) → is_numeric (Some aff) ≡ true → (coll : Collation)
        → (v : Value) → Same coll (converted aff v) (with_text_read v) }
    ensures texts { (aff : Affinity) → is_numeric (Some aff) ≡ true → (coll : Collation) →
        (text : List ℕ) → (v : Value) → ReadsAs text v → Same coll (converted aff (Text text)) v }
    ensures bounds { (aff : Affinity) → (v : Value) → IsValue v → IsValue (converted aff v) }
{}

/// A text is true exactly where a run of spaces, a sign, digits, a point and digits at its start,
/// each of which may be missing, has a digit from 1 to 9.
pub fn truth_is_of_a_run()
    ensures { (text : List ℕ) → (is_true_text text ≡ true) ↔ HasNonzeroRun text }
{}

/// A word is found in a text exactly where it stands in it.
pub fn declared_words_stand_in_text()
    ensures { (word text : List ℕ) → 0 < length word → (holds_word word text ≡ true)
        ↔ ((front : List ℕ) × (back : List ℕ) × (text ≡ front ++ (word ++ back))) }
{}
