//! Reads a dump, as the shell's `.dump` writes it (<https://sqlite.org/cli.html>), into a schema
//! and its rows.
#![tactic(auto)]

mod autoindexes;
mod creates;
mod dump;
mod entries;
mod inserts;
mod numbers;
mod row_maps;
mod state;

pub use dump::{Dump, ReadDumpFault, read_dump};
pub use schema_model::{Given, GivenList};
