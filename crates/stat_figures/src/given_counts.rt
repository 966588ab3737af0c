//! The counts that a text of sqlite_stat1 begins with.
ghost use Rattle.std.specs.Prelude.{◌≡◌, ◌<◌, length, IfOk, option_map};
ghost use Rattle.plan_choice.specs.GivenFigures as meant;
ghost use Rattle.plan_choice.specs.Logarithms.{log_est};
ghost use Rattle.std.specs.Prelude.{slice_index_or};
ghost use Rattle.stat_figures.specs.GivenCounts.{plain_counts, numbers_of};
ghost use Rattle.stat_figures.specs.Words.{lent_words};

use crate::logarithms::log_of;
use crate::words::{has_word, words};
use sql_value::{Items, Memory, read_digits};
use std::alloc::Global;

/// Counts that a row of sqlite_stat1 gives, and the words behind them.
#[derive(Drop)]
pub(crate) struct GivenCounts<'t> {
    pub numbers: Items<u64>,
    pub rest: Vec<&'t [u8]>,
}

/// The numbers that words are, where each is one below 2^63.
fn read_numbers(alloc: Global, words: &[&[u8]]) -> Result<Option<Items<u64>>, Memory>
    ensures { IfOk result (λ numbers. numbers ≡ numbers_of (lent_words words.now)) }
{
    let mut numbers = Items::new(alloc);
    for word in words {
        let Some(number) = read_digits(i64::MAX as u64, word) else {
            return Ok(None);
        };
        numbers.push(number)?;
    }
    Ok(Some(numbers))
}

/// The counts that a text begins with, if it begins with so many.
pub(crate) fn read_counts(
    alloc: Global,
    count: usize,
    text: &[u8],
) -> Result<Option<GivenCounts<'_>>, Memory>
    ensures { IfOk result (λ counts. option_map plain_counts counts
        ≡ meant.read_counts count (meant.words_of text.now)) }
{
    let held = words(alloc, text)?;
    let words = held.as_slice();
    if words.len() < count {
        return Ok(None);
    }
    let (counted, rest) = words.split_at(count);
    match read_numbers(alloc, counted)? {
        Some(numbers) => Ok(Some(GivenCounts {
            numbers,
            rest: Vec::from_slice(alloc, rest)?,
        })),
        None => Ok(None),
    }
}

/// The logarithm of the first count.
pub(crate) fn first_log(counts: &GivenCounts) -> u16
    ensures { result ≡ log_est (slice_index_or (plain_counts counts.now).numbers 0 0) }
{
    match counts.numbers.as_slice().first() {
        Some(number) => log_of(*number),
        None => 0,
    }
}

/// Whether the word `unordered` stands behind the counts.
pub(crate) fn tells_unordered(counts: Option<&GivenCounts>) -> bool
    ensures { result ≡ meant.tells_unordered (option_map (λ held. plain_counts held.now)
        counts.entry) }
{
    match counts {
        Some(counts) => has_word(b"unordered", counts.rest.as_slice()),
        None => false,
    }
}
