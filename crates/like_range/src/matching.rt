//! Matching of a text with a pattern.
//!
//! What stands between two `%` is matched at the first place where it fits, since a later place
//! leaves no more of the text. So where a text stops to fit, only the last `%` takes a byte more,
//! and the time is at most the text's length times the pattern's.
ghost use Rattle.std.specs.Prelude.{◌≡◌, ◌≢◌, ◌∷◌, ◌≤◌, IsNone, IfSome, List, ℕ, length};
ghost use Rattle.std.specs.Prelude.{true, false};
ghost use Rattle.sql_meaning.specs.Likes as meant;
ghost use Rattle.like_range.specs.Fronts.{Leaves, is_at_percent};

use sql_value::fold_byte;

/// What is left of a text and of its pattern, once their fronts fit.
#[derive(Clone, Copy)]
struct Rest<'a> {
    text: &'a [u8],
    pattern: &'a [u8],
}

/// Whether the whole text is like the pattern: a `%` takes any bytes, a `_` one character (a byte
/// and all bytes 0x80 to 0xBF after it), any other byte itself, whatever the case of an ASCII
/// letter. Takes no memory.
pub fn like(text: &[u8], pattern: &[u8]) -> bool
    ensures { result ≡ meant.like text.now pattern.now }
{
    let mut at = match behind_front(text, pattern) {
        Some(rest) => rest,
        None => return false,
    };
    while let [_percent, segment @ ..] = at.pattern {
        match behind_first_place(at.text, segment) {
            Some(rest) => at = rest,
            None => return false,
        }
    }
    at.text.is_empty()
}

/// What is left behind the first place in the text where the pattern's front up to its first `%`
/// fits, or fits the whole text where the pattern has none.
fn behind_first_place<'a>(text: &'a [u8], pattern: &'a [u8]) -> Option<Rest<'a>>
    ensures none { IsNone result → meant.like text.now (37 ∷ pattern.now) ≡ false }
    ensures same { IfSome result (λ rest. meant.like text.now (37 ∷ pattern.now)
        ≡ meant.like rest.text.now rest.pattern.now) }
    ensures percent { IfSome result (λ rest. is_at_percent rest.pattern.now ≡ true) }
    ensures shorter { IfSome result (λ rest. length rest.pattern.now ≤ length pattern.now) }
{
    let mut from = text;
    loop {
        if let Some(rest) = behind_front(from, pattern) {
            if !rest.pattern.is_empty() || rest.text.is_empty() {
                return Some(rest);
            }
        }
        match from {
            [_, later @ ..] => from = later,
            [] => return None,
        }
    }
}

/// What is left behind the pattern's front up to its first `%`, where the text begins so.
fn behind_front<'a>(text: &'a [u8], pattern: &'a [u8]) -> Option<Rest<'a>>
    ensures none { IsNone result → meant.like text.now pattern.now ≡ false }
    ensures left { IfSome result (λ rest. Leaves text.now pattern.now rest.text.now
        rest.pattern.now) }
    ensures percent { IfSome result (λ rest. is_at_percent rest.pattern.now ≡ true) }
    ensures shorter { IfSome result (λ rest. length rest.pattern.now ≤ length pattern.now) }
{
    let mut rest = text;
    let mut front = pattern;
    while let [byte, behind @ ..] = front {
        if *byte == b'%' {
            break;
        }
        match behind_byte(rest, *byte) {
            Some(left) => rest = left,
            None => return None,
        }
        front = behind;
    }
    Some(Rest {
        text: rest,
        pattern: front,
    })
}

/// What is left of the text behind what one byte of a pattern asks of its front.
fn behind_byte<'a>(text: &'a [u8], byte: u8) -> Option<&'a [u8]>
    requires { byte ≢ 37 }
    ensures none { IsNone result → (pattern : List ℕ) → meant.like text.now (byte ∷ pattern)
        ≡ false }
    ensures left { IfSome result (λ rest. (pattern : List ℕ) → Leaves text.now (byte ∷ pattern)
        rest.now pattern) }
{
    match text {
        [_, behind @ ..] if byte == b'_' => Some(behind_character(behind)),
        [first, behind @ ..] if fold_byte(*first) == fold_byte(byte) => Some(behind),
        _ => None,
    }
}

/// The text without the bytes at its front that go on with a character.
fn behind_character(text: &[u8]) -> &[u8]
    ensures { result.now ≡ meant.without_continuing text.now }
{
    let mut rest = text;
    while let [0x80..=0xBF, behind @ ..] = rest {
        rest = behind;
    }
    rest
}
