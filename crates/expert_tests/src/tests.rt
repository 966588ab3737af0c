//! The whole program.
mod program;
