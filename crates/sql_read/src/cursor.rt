//! What stands at the front of the lexemes that are left.
ghost use Rattle.std.specs.Prelude.{◌≡◌, [], ◌∷◌, length, MatchOption};
ghost use Rattle.sql_read.specs.Lexemes.{seen, lexeme_of};
ghost use Rattle.sql_read.specs.Reading.{after, past, name_at, same_mark};

use crate::lexeme::{Lexeme, Mark};

/// The lexemes that are left.
pub type Left<'a> = &'a [Lexeme<'a>];

/// The first lexeme, and those behind it.
#[tactic(auto, unfolding(crate::specs::Lexemes::seen))]
pub fn first<'a>(lexemes: Left<'a>) -> Option<(Lexeme<'a>, Left<'a>)>
    ensures { MatchOption result (seen lexemes.now ≡ [])
        (λ p. seen lexemes.now ≡ lexeme_of p.0 ∷ seen p.1.now) }
{
    match lexemes.split_first() {
        Some((lexeme, rest)) => Some((*lexeme, rest)),
        None => None,
    }
}

/// How many lexemes are left.
#[tactic(auto, unfolding(crate::specs::Lexemes::seen))]
pub fn count_left(lexemes: &[Lexeme]) -> usize
    ensures { result ≡ length (seen lexemes.now) }
{
    lexemes.len()
}

#[tactic(auto, unfolding(crate::specs::Reading::same_mark))]
fn is_same(left: Mark, right: Mark) -> bool
    ensures { result ≡ same_mark left right }
{
    left == right
}

/// The lexemes behind this mark, where they begin with it.
#[tactic(auto, unfolding(crate::specs::Reading::after))]
pub fn after_mark<'a>(mark: Mark, lexemes: Left<'a>) -> Option<Left<'a>>
    ensures { MatchOption result (after mark (seen lexemes.now) ≡ None)
        (λ r. after mark (seen lexemes.now) ≡ Some (seen r.now)) }
{
    match first(lexemes) {
        Some((Lexeme::Fixed(begun), rest)) => {
            if is_same(begun, mark) {
                Some(rest)
            } else {
                None
            }
        }
        _ => None,
    }
}

/// The lexemes behind this mark, or all of them where they don't begin with it.
#[tactic(auto, unfolding(crate::specs::Reading::past))]
pub fn skip<'a>(mark: Mark, lexemes: Left<'a>) -> Left<'a>
    ensures { seen result.now ≡ past mark (seen lexemes.now) }
{
    if let Some(behind) = after_mark(mark, lexemes) {
        return behind;
    }
    lexemes
}

/// The name that the lexemes begin with.
#[tactic(auto, unfolding(crate::specs::Reading::name_at))]
pub fn name<'a>(lexemes: Left<'a>) -> Option<(&'a [u8], Left<'a>)>
    ensures { MatchOption result (name_at (seen lexemes.now) ≡ None)
        (λ r. name_at (seen lexemes.now) ≡ Some (r.0.now, seen r.1.now)) }
{
    match first(lexemes) {
        Some((Lexeme::Name(bytes, _), rest)) => Some((bytes, rest)),
        _ => None,
    }
}
