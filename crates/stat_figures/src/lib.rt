//! Figures of tables and indexes: what ANALYZE would count of the rows that are there, what it has
//! written into `sqlite_stat1` (<https://sqlite.org/lang_analyze.html>), or what is taken where
//! nothing is known; and logarithms to reckon with (<https://sqlite.org/queryplanner-ng.html>).
//!
//! Rows are lent and never copied. An index is sorted once, and one pass along its list counts for
//! each number of columns where their values change, so time grows as n log n with the sampled rows
//! of its table, and memory by 8 bytes for each. A row of `sqlite_stat1` finds its index or its
//! table by one hash, and an index that such a row counts for isn't sorted at all.
#![tactic(auto)]

mod averages;
mod changes;
mod counted;
mod defaults;
mod figure_lists;
mod given_counts;
mod given_rows;
mod given_tables;
mod held;
mod logarithms;
mod samples;
mod sources;
mod texts;
mod words;

pub use figure_lists::{figures, given_figures};
pub use held::{Figures, figures_are_small};
pub use logarithms::{log_add, log_est};
pub use sources::StatSource;
pub use texts::stat1_text;
