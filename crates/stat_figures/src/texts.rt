//! The text of an index in sqlite_stat1.
ghost use Rattle.std.specs.Prelude.{◌≡◌, ◌++◌, slice_index_or, [], IfOk, OnOk};
ghost use Rattle.std.specs.Fmt.{decimal};
ghost use Rattle.plan_choice.specs.Figures as meant;

use crate::held::Figures;
use sql_value::{Bytes, Memory};
use std::alloc::Global;

fn append_number(text: &mut Bytes, alloc: Global, number: u64) -> Result<(), Memory>
    ensures { OnOk result (text.new ≡ text.old ++ decimal number) }
{
    match format!(in alloc; "{number}") {
        Ok(digits) => text.append(digits.as_bytes()),
        Err(_) => Err(Memory),
    }
}

/// Numbers, each behind a space.
fn append_further(text: &mut Bytes, alloc: Global, counts: &[u64]) -> Result<(), Memory>
    ensures { OnOk result (text.new ≡ text.old ++ meant.further_counts counts.now) }
{
    for count in counts {
        text.push(b' ')?;
        append_number(text, alloc, *count)?;
    }
    Ok(())
}

/// What `sqlite_stat1` has of an index, or would have: its counts with one space between, or
/// `default` where there are none.
pub fn stat1_text(alloc: Global, figures: &Figures, index: u32) -> Result<Bytes, Memory>
    ensures { IfOk result (λ text. text
        ≡ meant.stat_text (slice_index_or figures.now.counted index [])) }
{
    let mut text = Bytes::new(alloc);
    let [first, further @ ..] = figures.counts(index) else {
        text.append(b"default")?;
        return Ok(text);
    };
    append_number(&mut text, alloc, *first)?;
    append_further(&mut text, alloc, further)?;
    Ok(text)
}
