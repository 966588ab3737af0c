//! A schema: tables, unread tables and indexes, found by their names; and the rows of its tables.
#![tactic(auto)]

mod additions;
mod columns;
mod conformity;
mod copies;
mod given;
mod indexes;
mod lookups;
mod names;
mod print;
mod rows;
mod schema;
mod tables;

pub use additions::{add_index, add_table, add_unread};
pub use columns::{Column, Columns};
pub use conformity::conforms;
pub use given::{Given, GivenList};
pub use indexes::{Index, IndexColumn, IndexColumns};
pub use lookups::{find_column, find_index, find_table, name_taken};
pub use names::Names;
pub use print::{append_columns, append_name, print_create};
pub use rows::{Row, RowList, Tables};
pub use schema::{Schema, schema_is_sound};
pub use tables::{COLUMN_LIMIT, Found, Table};
