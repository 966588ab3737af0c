//! A file for each topic. In each table a row is what a call is given, `=>`, and what it comes to;
//! a row without an arrow fails. One alphabet serves all tables of tests: `shown` has it.
mod likes;
mod shown;
mod streams;
mod tokens;
mod values;
