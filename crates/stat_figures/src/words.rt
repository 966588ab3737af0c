//! Words of a text in sqlite_stat1, and names whose letters' case doesn't count.
ghost use Rattle.std.specs.Prelude.{◌≡◌, IfOk};
ghost use Rattle.plan_choice.specs.GivenFigures as meant;
ghost use Rattle.stat_figures.specs.Words.{lent_words};

use sql_value::{Memory, fold_byte, push};
use std::alloc::Global;

/// A text cut at each space.
pub(crate) fn words(alloc: Global, text: &[u8]) -> Result<Vec<&[u8]>, Memory>
    ensures { IfOk result (λ words. lent_words words.items ≡ meant.words_of text.now) }
{
    let mut list = Vec::new(alloc);
    let mut start = 0;
    for (place, byte) in text.iter().enumerate() {
        if *byte == b' ' {
            push(&mut list, &text[start..place])?;
            start = place + 1;
        }
    }
    push(&mut list, &text[start..])?;
    Ok(list)
}

/// Whether a word is one of a list.
pub(crate) fn has_word(word: &[u8], words: &[&[u8]]) -> bool
    ensures { result ≡ meant.has_word word.now (lent_words words.now) }
{
    for held in words {
        if *held == word {
            return true;
        }
    }
    false
}

/// Whether two names are the same. Takes no memory.
pub(crate) fn is_same_name(left: &[u8], right: &[u8]) -> bool
    ensures { result ≡ meant.same_name left.now right.now }
{
    if left.len() != right.len() {
        return false;
    }
    for (place, byte) in left.iter().enumerate() {
        if fold_byte(*byte) != fold_byte(right[place]) {
            return false;
        }
    }
    true
}
