//! Tests of values, LIKE, files and tokens, over their public calls. They stand apart from what
//! they test, since a crate with tests of its own is proved twice.
#![tactic(auto)]

#[cfg(test)]
mod tests;
