//! Bytes and values: what every layer above reads, compares and prints.
#![tactic(auto)]

mod collations;
mod condition;
mod conversion;
mod items;
mod keywords;
mod names;
mod numbers;
mod order;
mod reserved;
mod types;
mod values;

pub use collations::{collation_named, is_same_collation};
pub use condition::truth;
pub use conversion::{apply, conversions, convert};
pub use items::{Bytes, Items, Memory, push};
pub use keywords::{Keyword, find_keyword, is_same_word, keyword_text};
pub use names::{fold, fold_byte};
pub use numbers::{last_digit_units, read_digits, read_number, with_sign};
pub use order::compare;
pub use reserved::{is_reserved, is_reserved_keyword};
pub use types::affinity_of;
pub use values::{Affinity, Collation, Conversions, Value, Values};
