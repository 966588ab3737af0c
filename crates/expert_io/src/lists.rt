//! What the command line and the objects in memory hold.
use sql_value::{Bytes, Items};

/// The words of a command line, behind the name of the program.
pub type Words = Items<Bytes>;

/// Files, each a name and its bytes.
pub type Files = Items<(Bytes, Bytes)>;

/// Numbers of calls, the first call having number 1.
pub type Calls = Items<u64>;
