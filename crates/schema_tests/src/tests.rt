//! A file for each topic. In each table a row without an arrow fails.
mod dumps;
mod evaluation;
mod schema;
