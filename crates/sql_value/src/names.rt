//! Letters of names, whose case doesn't count.
ghost use Rattle.std.specs.Prelude.{◌≡◌, IfOk};
ghost use Rattle.sql_meaning.specs.Letters.{folded, folded_bytes};

use crate::items::{Bytes, Memory};
use std::alloc::Global;

/// The byte with `A` to `Z` made lower.
pub fn fold_byte(byte: u8) -> u8
    ensures { result ≡ folded byte }
{
    if byte.is_ascii_uppercase() {
        byte + 32
    } else {
        byte
    }
}

/// The name with `A` to `Z` made lower, as names and keywords are compared.
pub fn fold(alloc: Global, name: &[u8]) -> Result<Bytes, Memory>
    ensures { IfOk result (λ lower. lower ≡ folded_bytes name.now) }
{
    let mut lower = Bytes::new(alloc);
    for byte in name {
        lower.push(fold_byte(*byte))?;
    }
    Ok(lower)
}
