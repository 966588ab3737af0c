//! Why a statement can't be bound to a schema.
use sql_value::{Bytes, Memory};

/// The first check on a statement that fails. Each name is as the statement writes it, a column
/// behind its table's name and a dot where that is written.
#[derive(Drop)]
pub enum BindFault {
    NoSuchTable(Bytes),
    /// A table whose form isn't read.
    UnreadTable(Bytes),
    NoSuchColumn(Bytes),
    /// Several tables of FROM have such a column.
    AmbiguousColumn(Bytes),
    /// An earlier table of FROM stands under the same name.
    SameName(Bytes),
    NoSuchCollation(Bytes),
    /// A name in the ON condition of a LEFT JOIN that denotes a table to its right.
    RightName(Bytes),
    /// A number in ORDER BY that isn't that of a result.
    BadPosition,
    /// More than 64 tables in FROM.
    TooManyTables,
    /// More than 256 conditions joined by AND.
    TooManyTerms,
    /// Want of memory, which says nothing of the statement.
    Memory,
}

impl From<Memory> for BindFault {
    ghost use Rattle.std.specs.Prelude.{◌≡◌};
    ghost use Rattle.sql_names.specs.declared.faults.BindFault.TheVariants.{Memory as memory_fault};

    ghost from_gives = { λ _ fault. fault ≡ memory_fault };

    fn from(_: Memory) -> BindFault {
        BindFault::Memory
    }
}
