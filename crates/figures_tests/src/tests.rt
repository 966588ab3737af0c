//! A file for each topic. In a table a row without an arrow fails.
mod dumps;
