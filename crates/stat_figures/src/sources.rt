//! Where figures come from.

/// Where figures come from.
#[derive(Clone, Copy, Debug, PartialEq, Eq)]
pub enum StatSource {
    /// They are counted over sampled rows.
    Sampled,
    /// They are those that the dump has in `sqlite_stat1`, and counted where it has none.
    Given,
}
