//! LIKE.
ghost use Rattle.std.specs.Prelude.{◌≡◌, IfOk};
ghost use Rattle.sql_meaning.specs.Likes as meant;
ghost use Rattle.sql_value.specs.View.{plain_value};
ghost use Rattle.sql_eval.specs.Seen.{seen_value};

use crate::logic::is_null;
use crate::reading::Seen;
use like_range::like;
use sql_value::{Affinity, Memory, Value};
use std::alloc::Global;

/// Whether a text is like a pattern. No blob is like anything, nor anything like a blob.
fn are_texts_like(text: &Value, pattern: &Value) -> bool
    ensures { result ≡ meant.texts_like (plain_value text.now) (plain_value pattern.now) }
{
    match (text, pattern) {
        (Value::Text(text), Value::Text(pattern)) => like(text.as_slice(), pattern.as_slice()),
        _ => false,
    }
}

/// LIKE, unknown where a side is NULL; else of both sides converted by TEXT.
pub(crate) fn like3<'e>(
    alloc: Global,
    text: Seen<'e>,
    pattern: Seen<'e>,
) -> Result<Option<bool>, Memory>
    ensures { IfOk result (λ truth.
        truth ≡ meant.like3 (seen_value text.entry) (seen_value pattern.entry)) }
{
    if is_null(text.as_value()) || is_null(pattern.as_value()) {
        return Ok(None);
    }
    let text = text.converted(alloc, Some(Affinity::Text))?;
    let pattern = pattern.converted(alloc, Some(Affinity::Text))?;
    Ok(Some(are_texts_like(text.as_value(), pattern.as_value())))
}
