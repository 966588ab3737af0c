//! The parts of the statements that make a schema, read from tokens.
#![tactic(auto)]

mod column_texts;
mod cursor;
mod entries;
mod groups;
mod heads;
mod keys;
mod table_texts;
mod words;

pub use column_texts::{collation_at, collation_here, column_rest, declared_type, read_column};
pub use cursor::{NameAndRest, after_word, first_name};
pub use entries::{EntryText, KeyColumn, find_entries, find_entry, read_entries, read_entry};
pub use groups::{Enclosed, cut_at_commas, first_enclosed};
pub use heads::{IndexHead, create_index_head, create_table_head, create_unread_head};
pub use keys::{KeyConstraint, KeyList, KeyMark, behind_name, is_constraint, read_keys};
pub use table_texts::{TableText, read_table};
pub use words::{is_mark, is_name, is_word};
