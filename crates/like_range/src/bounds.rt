//! The range of texts that a pattern allows.
ghost use Rattle.std.specs.Prelude.{◌≡◌, ◌∷◌, ◌++◌, [], IfOk};
ghost use Rattle.std.specs.Option.{option_map};
ghost use Rattle.sql_meaning.specs.Likes as meant;
ghost use Rattle.like_range.specs.View.{range_of};

use sql_value::{Bytes, Memory, fold_byte};
use std::alloc::Global;

/// The texts from `low` on, and before `high` where there is one.
#[derive(Drop)]
pub struct Range {
    pub low: Bytes,
    pub high: Option<Bytes>,
}

/// The range, under NOCASE, in which all texts stand that are like the pattern; none where the
/// pattern is empty or begins with `%` or `_`. `high` is missing only where `low` ends in 0xFF.
/// `likes_stand_in_bounds` of `sql_meaning` is the law.
pub fn like_bounds(alloc: Global, pattern: &[u8]) -> Result<Option<Range>, Memory>
    ensures { IfOk result (λ range. option_map range_of range ≡ meant.like_bounds pattern.now) }
{
    let low = plain_front(alloc, pattern)?;
    match low.as_slice() {
        [] => Ok(None),
        [front @ .., last] => {
            let high = raised(alloc, front, *last)?;
            Ok(Some(Range { low, high }))
        }
    }
}

/// The pattern up to its first `%` or `_`, with `A` to `Z` made lower.
fn plain_front(alloc: Global, pattern: &[u8]) -> Result<Bytes, Memory>
    ensures { IfOk result (λ front. front ≡ meant.plain_front pattern.now) }
{
    let mut front = Bytes::new(alloc);
    for byte in pattern {
        if *byte == b'%' || *byte == b'_' {
            break;
        }
        front.push(fold_byte(*byte))?;
    }
    Ok(front)
}

/// The bytes with the last one raised by one, where that is still a byte.
fn raised(alloc: Global, front: &[u8], last: u8) -> Result<Option<Bytes>, Memory>
    ensures { IfOk result (λ high. high ≡ meant.raised (front.now ++ last ∷ [])) }
{
    if last == 0xFF {
        return Ok(None);
    }
    let mut high = Bytes::copy(alloc, front)?;
    high.push(last + 1)?;
    Ok(Some(high))
}
