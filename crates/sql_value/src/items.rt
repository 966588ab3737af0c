//! Lists that grow at their end, and want of memory.
ghost use Rattle.std.specs.Prelude.{◌≡◌, [], ◌∷◌, ◌++◌, OnOk, OnErr, IfOk};

use std::alloc::{AllocError, AllocFailed, Allocator, Global};
use std::marker::Model;

/// Want of memory: an allocation was refused, and the call changed nothing that it was lent.
#[derive(Clone, Copy, Debug, PartialEq, Eq)]
pub struct Memory;

impl From<AllocError> for Memory {
    ghost use Rattle.std.specs.Prelude.{◌≡◌};

    ghost from_gives = { λ _ fault. fault ≡ record {} };

    fn from(_: AllocError) -> Memory {
        Memory
    }
}

impl<T: Drop> From<AllocFailed<T>> for Memory {
    ghost use Rattle.std.specs.Prelude.{◌≡◌};

    ghost from_gives = { λ _ fault. fault ≡ record {} };

    fn from(_: AllocFailed<T>) -> Memory {
        Memory
    }
}

/// A list that grows at its end.
#[derive(Drop)]
pub struct Items<T: Drop> {
    held: Vec<T>,
}

/// A list of bytes: a name, a text, a file.
pub type Bytes = Items<u8>;

impl<T: Drop> Model for Items<T> {
    ghost use Rattle.std.specs.Prelude.{List};

    ghost Value = { List T };

    ghost view = { λ list. list.held.items };
}

impl<T: Drop> Items<T> {
    /// The empty list, which takes no memory.
    pub fn new(alloc: Global) -> Self
        ensures { result ≡ [] }
    {
        Items {
            held: Vec::new(alloc),
        }
    }

    /// Appends one. After `Memory` the list is as it was, and the item is given up.
    pub fn push(&mut self, item: T) -> Result<(), Memory>
        ensures ok { OnOk result (self.new ≡ self.old ++ item ∷ []) }
        ensures err { OnErr result (self.new ≡ self.old) }
    {
        Ok(self.held.push(item)?)
    }

    /// The allocator that the list grows by.
    pub fn allocator(&self) -> Global {
        *self.held.allocator()
    }

    /// The list.
    pub fn as_slice(&self) -> &[T]
        ensures { result.now ≡ self.now }
    {
        self.held.as_slice()
    }
}

impl Items<u8> {
    /// The bytes of a slice.
    pub fn copy(alloc: Global, from: &[u8]) -> Result<Bytes, Memory>
        ensures { IfOk result (λ bytes. bytes ≡ from.now) }
    {
        Ok(Items {
            held: Vec::from_slice(alloc, from)?,
        })
    }

    /// Appends a slice. After `Memory` the list is as it was.
    pub fn append(&mut self, piece: &[u8]) -> Result<(), Memory>
        ensures ok { OnOk result (self.new ≡ self.old ++ piece.now) }
        ensures err { OnErr result (self.new ≡ self.old) }
    {
        Ok(self.held.extend_from_slice(piece)?)
    }
}

/// Appends one to a list of std's. After `Memory` the list is as it was.
pub fn push<T: Copy, A: Allocator>(list: &mut Vec<T, A>, item: T) -> Result<(), Memory>
    ensures ok { OnOk result (list.new.items ≡ list.old.items ++ item ∷ []) }
    ensures err { OnErr result (list.new.items ≡ list.old.items) }
{
    Ok(list.push(item)?)
}
