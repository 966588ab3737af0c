//! The exit statuses.

/// The whole report was written, and each statement has a plan.
pub const ALL_PLANNED: u8 = 0;

/// The words are no command.
pub const USAGE: u8 = 1;

/// The database or the script passes a limit, or isn't in a form that is read.
pub const INPUT_REFUSED: u8 = 2;

/// The whole report was written, and it refuses some statement.
pub const SOME_REFUSED: u8 = 3;

/// A file can't be read.
pub const CANNOT_READ: u8 = 4;

/// The report can't be written.
pub const CANNOT_WRITE: u8 = 5;

/// Memory was wanting before the first write.
pub const OUT_OF_MEMORY: u8 = 6;
