//! Whether LIKE is what was meant, and that bounds are found with memory to spare.
use like_range::{like, like_bounds};
use sql_value::{Bytes, Memory};
use std::alloc::Global;
use std::test::Fail;

/// Whether the text before the bar is like the pattern behind it.
const LIKES: &str = "\
| => yes
|% => yes
|_ => no
|a => no
a| => no
a|% => yes
a|%% => yes
a|_ => yes
a|__ => no
a|%_ => yes
a|_% => yes
a|%_% => yes
a|%__ => no
Abx|aB% => yes
abx|b% => no
abx|%b => no
abx|%b% => yes
abx|%X => yes
abx|a%x% => yes
abx|ab => no
ab|abx => no
aab|%ab => yes
abab|%ab => yes
abcab|a%b%c => no
abcabc|a%b%c => yes
abcbx|%bc%bx => yes
aXbXc|%x%x%x% => no
50%|50% => yes
ä|_ => yes
ä|__ => no
ä|Ä => no
ä|%ä => yes
aäb|a_b => yes
😀b|_b => yes
😀b|__ => yes
😀|____ => no
@|` => no
[|{ => no
";

fn matches_as_told(row: &str) -> bool {
    let Some((sides, want)) = row.split_once(" => ") else {
        return false;
    };
    let Some((text, pattern)) = sides.split_once("|") else {
        return false;
    };
    like(text.as_bytes(), pattern.as_bytes()) == (want == "yes")
}

#[test]
fn matches_patterns(rt: HostRuntime) {
    for row in LIKES.lines() {
        assert!(rt; matches_as_told(row), "{row}");
    }
    assert!(rt;
        like(b"a\x80\x80\xBFb", b"a_b"),
        "a continued zero byte counts as one"
    );
    assert!(rt;
        like(b"\x80\x80", b"_"),
        "a text may begin inside a character"
    );
    assert!(rt;
        like(b"\x80\x80", b"%\x80"),
        "a byte stands for itself inside a character too"
    );
    assert!(rt;
        !like(b"\xC0\xC0", b"_"),
        "each of these begins a character"
    );
}

/// The bounds of a pattern: `low`, and behind a space `high`, or `none`.
const BOUNDS: &str = "\
Ab%c => ab ac
%a => none
_a => none
 => none
a => a b
az => az a{
aZ_ => az a{
@% => @ A
";

fn append_bounds(seen: &mut Bytes, alloc: Global, pattern: &[u8]) -> Result<(), Memory> {
    let Some(range) = like_bounds(alloc, pattern)? else {
        return seen.append(b"none");
    };
    seen.append(range.low.as_slice())?;
    if let Some(high) = &range.high {
        seen.push(b' ')?;
        seen.append(high.as_slice())?;
    }
    Ok(())
}

fn are_bounds(alloc: Global, pattern: &[u8], want: &[u8]) -> Result<bool, Memory> {
    let mut seen = Bytes::new(alloc);
    append_bounds(&mut seen, alloc, pattern)?;
    Ok(seen.as_slice() == want)
}

fn is_bounded_as_told(alloc: Global, row: &str) -> Result<bool, Memory> {
    let Some((pattern, want)) = row.split_once(" => ") else {
        return Ok(false);
    };
    are_bounds(alloc, pattern.as_bytes(), want.as_bytes())
}

#[test]
fn finds_bounds(rt: HostRuntime) -> Result<(), Fail> {
    for row in BOUNDS.lines() {
        assert!(rt; is_bounded_as_told(rt.alloc(), row)?, "{row}");
    }
    assert!(rt; are_bounds(rt.alloc(), b"a\xFF%", b"a\xFF")?);
    assert!(rt; are_bounds(rt.alloc(), b"a\xFE", b"a\xFE a\xFF")?);
    Ok(())
}

/// A search that tried each place of one `%` again for each of another would never end here.
#[test]
fn tries_one_percent_at_a_time(rt: HostRuntime) -> Result<(), Fail> {
    let mut text = Bytes::new(rt.alloc());
    let mut pattern = Bytes::new(rt.alloc());
    for _ in 0..4_000 {
        text.push(b'a')?;
        pattern.append(b"%a")?;
    }
    text.push(b'b')?;
    assert!(rt; !like(text.as_slice(), pattern.as_slice()));
    pattern.push(b'%')?;
    assert!(rt; like(text.as_slice(), pattern.as_slice()));
    pattern.append(b"c")?;
    assert!(rt; !like(text.as_slice(), pattern.as_slice()));
    Ok(())
}
