//! Whether the definitions say what was meant: values worked out elsewhere, and calls that succeed.
use super::shown::{
    affinity, affinity_letter, append_found, append_value, collation, condition_letter,
};
use sql_value::{
    Affinity, Bytes, Collation, Keyword, Memory, Value, Values, affinity_of, apply,
    collation_named, compare, conversions, convert, find_keyword, fold, fold_byte, is_reserved,
    is_reserved_keyword, is_same_word, keyword_text, last_digit_units, read_digits, read_number,
    truth, with_sign,
};
use std::alloc::Global;
use std::cmp::Ordering;
use std::test::Fail;

/// Calls by their first word. What they are given: NULL, a number, `'text'`, or `x'blob'` with the
/// bytes as they are.
///
/// - `compare`, a collation, and two values with a bar between: how they stand to each other.
/// - `number`: the number that a text is.
/// - `apply`, an affinity and a value: what it makes of the value, borrowed and owned.
/// - `sides`, the affinities of two sides: what is applied to each.
/// - `truth`: whether a value holds as a condition.
/// - `type`: the affinity of a declared type.
/// - `word`: the keyword that a word is, and whether it is reserved.
const CALLS: &str = "\
compare b NULL | NULL => =
compare b NULL | -9223372036854775808 => <
compare b 9223372036854775807 | '' => <
compare b 'z' | x'' => <
compare b 1 | 1.0 => =
compare b 1 | 1.0001 => <
compare b -0.5001 | 0 => <
compare b 9223372036854775807 | 99999999999.9999 => >
compare b 2 | 10 => <
compare b '2' | '10' => >
compare b 'a' | 'A' => >
compare n 'aZ' | 'Az' => =
compare n '[' | 'a' => <
compare n 'ä' | 'Ä' => >
compare n x'A' | x'a' => <
compare r 'a  ' | 'a' => =
compare r 'a b ' | 'a  b' => >
compare r 'a\t' | 'a' => >
compare r 'A' | 'a' => <
compare r x'a ' | x'a' => >
number 0 => i0
number +7 => i7
number -007 => i-7
number  7 => none
number 7  => none
number 7. => none
number .5 => none
number 1e3 => none
number --1 => none
number - => none
number  => none
number 1.0 => d10000
number -0.25 => d-2500
number -0.0 => d0
number +3.1415 => d31415
number 1.23456 => none
number 1.50000 => none
number 1.2.3 => none
number 9223372036854775807 => i9223372036854775807
number 9223372036854775808 => none
number -9223372036854775808 => i-9223372036854775808
number -9223372036854775809 => none
number 00000000000000000000001 => i1
number 99999999999.9999 => d999999999999999
number 100000000000.0 => none
number -99999999999.9999 => d-999999999999999
number -100000000000.0 => none
apply I NULL => N
apply I '1.0' => i1
apply I ' 7' => t 7
apply I -2.0 => i-2
apply N '-0.25' => d-2500
apply N 1.5 => d15000
apply N x'7' => b7
apply R '+7' => d70000
apply R 99999999999 => d999999999990000
apply R -99999999999 => d-999999999990000
apply R 100000000000 => i100000000000
apply R -9223372036854775808 => i-9223372036854775808
apply R 1.0 => d10000
apply T -9223372036854775808 => t-9223372036854775808
apply T 1.0 => t1.0
apply T -0.25 => t-0.25
apply T 0.0 => t0.0
apply T 0.0001 => t0.0001
apply T -12.345 => t-12.345
apply T 99999999999.9999 => t99999999999.9999
apply T x'7' => b7
apply B '7' => t7
sides I T => -N
sides I R => --
sides B I => N-
sides - N => N-
sides T - => -T
sides - T => T-
sides T B => --
sides - - => --
truth NULL => ?
truth 0 => 0
truth -1 => 1
truth 0.0 => 0
truth -0.0001 => 1
truth '' => 0
truth '0.0' => 0
truth '0.01' => 1
truth '  +0001x' => 1
truth '-.5' => 1
truth '\t1' => 0
truth 'abc1' => 0
truth '0 1' => 0
truth '0..5' => 0
truth '+ 1' => 0
truth '--1' => 0
truth '0e1' => 0
truth x'00.00010' => 1
truth x'é1' => 0
type INT => I
type Floating Point => I
type CHARINT => I
type varchar(20) => T
type CLOB => T
type TEXTBLOB => T
type  => B
type BlobReal => B
type DOUBLE PRECISION => R
type FLOAT => R
type REA => N
type DECIMAL(10,5) => N
type STRING => N
word SELECT => SELECT reserved
word Current_Timestamp => CURRENT_TIMESTAMP reserved
word isnull => ISNULL reserved
word desc => DESC free
word replace => REPLACE free
word selec => none free
word row => none free
word  => none free";

fn value(alloc: Global, written: &str) -> Result<Value, Memory> {
    Ok(match written.as_bytes() {
        [b'\'', text @ .., b'\''] => Value::Text(Bytes::copy(alloc, text)?),
        [b'x', b'\'', blob @ .., b'\''] => Value::Blob(Bytes::copy(alloc, blob)?),
        number => read_number(number).unwrap_or(Value::Null),
    })
}

fn order_letter(order: Ordering) -> u8 {
    match order {
        Ordering::Less => b'<',
        Ordering::Equal => b'=',
        Ordering::Greater => b'>',
    }
}

fn append_order(seen: &mut Bytes, alloc: Global, coll: &str, both: &str) -> Result<(), Memory> {
    let Some((left, right)) = both.split_once(" | ") else {
        return Ok(());
    };
    let (left, right) = (value(alloc, left)?, value(alloc, right)?);
    seen.push(order_letter(compare(collation(coll), &left, &right)))
}

/// What an affinity makes of a value, where it makes the same of a borrowed and an owned one.
fn append_made(seen: &mut Bytes, alloc: Global, name: &str, from: &str) -> Result<(), Memory> {
    let affinity = affinity(name).unwrap_or(Affinity::Blob);
    let from = value(alloc, from)?;
    append_value(seen, alloc, &apply(alloc, affinity, &from)?)?;
    let mut owned = Bytes::new(alloc);
    append_value(&mut owned, alloc, &convert(alloc, affinity, from)?)?;
    if owned.as_slice() == seen.as_slice() {
        Ok(())
    } else {
        seen.append(b" and another")
    }
}

fn append_sides(seen: &mut Bytes, left: &str, right: &str) -> Result<(), Memory> {
    let both = conversions(affinity(left), affinity(right));
    seen.push(affinity_letter(both.left))?;
    seen.push(affinity_letter(both.right))
}

fn append_word(seen: &mut Bytes, word: &[u8]) -> Result<(), Memory> {
    seen.append(match find_keyword(word) {
        Some(found) => keyword_text(found),
        None => b"none",
    })?;
    seen.append(if is_reserved(word) {
        b" reserved"
    } else {
        b" free"
    })
}

/// Of a call that takes a letter first, or two.
fn append_of_two(seen: &mut Bytes, alloc: Global, call: &str, given: &str) -> Result<(), Memory> {
    let Some((first, rest)) = given.split_once(' ') else {
        return Ok(());
    };
    match call.as_bytes() {
        b"compare" => append_order(seen, alloc, first, rest),
        b"apply" => append_made(seen, alloc, first, rest),
        _ => append_sides(seen, first, rest),
    }
}

/// What a call comes to; nothing where there is no such call.
fn append_call(seen: &mut Bytes, alloc: Global, call: &str, given: &str) -> Result<(), Memory> {
    match call.as_bytes() {
        b"compare" | b"apply" | b"sides" => append_of_two(seen, alloc, call, given),
        b"number" => append_found(seen, alloc, &read_number(given.as_bytes())),
        b"truth" => seen.push(condition_letter(truth(&value(alloc, given)?))),
        b"type" => seen.push(affinity_letter(Some(affinity_of(given.as_bytes())))),
        b"word" => append_word(seen, given.as_bytes()),
        _ => Ok(()),
    }
}

fn comes_true(alloc: Global, row: &str) -> Result<bool, Memory> {
    let Some((made, want)) = row.split_once(" => ") else {
        return Ok(false);
    };
    let Some((call, given)) = made.split_once(' ') else {
        return Ok(false);
    };
    let mut seen = Bytes::new(alloc);
    append_call(&mut seen, alloc, call, given)?;
    Ok(seen.as_slice() == want.as_bytes())
}

#[test]
fn calls_come_to_these(rt: HostRuntime) -> Result<(), Fail> {
    for row in CALLS.lines() {
        assert!(rt; comes_true(rt.alloc(), row)?, "{row}");
    }
    Ok(())
}

/// Whether bytes past ASCII are neither letters nor digits.
fn passes_over_other_bytes(alloc: Global) -> Result<bool, Memory> {
    let blob = Value::Blob(Bytes::copy(alloc, b"\xFF1")?);
    let name = fold(alloc, b"aZ_\xC3\x84@[")?;
    Ok(
        truth(&blob) == Some(false)
            && name.as_slice() == b"az_\xC3\x84@[".as_slice()
            && fold_byte(0xC4) == 0xC4,
    )
}

/// Whether lists hold what was pushed, and a copy is its source's.
fn keeps_what_is_pushed(alloc: Global) -> Result<bool, Memory> {
    let mut text = Bytes::copy(alloc, b"ab")?;
    text.push(b'c')?;
    text.append(b"de")?;
    let mut values = Values::new(alloc);
    values.push(Value::Text(text))?;
    let mut seen = Bytes::new(alloc);
    for value in values.as_slice() {
        append_value(&mut seen, alloc, &value.try_copy(alloc)?)?;
    }
    Ok(seen.as_slice() == b"tabcde".as_slice())
}

#[test]
fn makes_and_copies(rt: HostRuntime) -> Result<(), Fail> {
    assert!(rt; passes_over_other_bytes(rt.alloc())?);
    assert!(rt; keeps_what_is_pushed(rt.alloc())?);
    Ok(())
}

fn knows_keywords() -> bool {
    find_keyword(b"SELECT") == Some(Keyword::Select)
        && find_keyword(b"isnull") == Some(Keyword::Isnull)
        && find_keyword(b"desc") == Some(Keyword::Desc)
        && find_keyword(b"replace") == Some(Keyword::Replace)
        && find_keyword(b"Current_Timestamp") == Some(Keyword::CurrentTimestamp)
        && keyword_text(Keyword::Notnull) == b"NOTNULL".as_slice()
        && is_reserved_keyword(Keyword::Not)
        && !is_reserved_keyword(Keyword::Asc)
}

fn folds_letters() -> bool {
    is_same_word(b"aZ_[", b"Az_[")
        && !is_same_word(b"@", b"`")
        && fold_byte(b'A') == b'a'
        && fold_byte(b'[') == b'['
        && collation_named(b"NoCase") == Some(Collation::Nocase)
        && collation_named(b"rtrim ").is_none()
}

fn reads_digits() -> bool {
    read_digits(32_766, b"32766") == Some(32_766)
        && read_digits(32_766, b"32767").is_none()
        && read_digits(32_766, b"0007") == Some(7)
        && read_digits(9, b"").is_none()
        && read_digits(9, b"+1").is_none()
        && read_digits(1 << 63, b"9223372036854775808") == Some(1 << 63)
        && read_digits(1 << 63, b"92233720368547758080").is_none()
        && with_sign(true, 5) == -5
        && with_sign(false, (1 << 63) - 1) == i64::MAX
        && last_digit_units(0) == 10_000
        && last_digit_units(1) == 1_000
        && last_digit_units(4) == 1
}

#[test]
fn knows_words_and_digits(rt: HostRuntime) {
    assert!(rt; knows_keywords());
    assert!(rt; folds_letters());
    assert!(rt; reads_digits());
}
