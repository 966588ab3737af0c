//! A shelf of named files, of which one is open at a time.
ghost use Rattle.std.specs.Prelude.{◌≡◌, ◌<◌, ◌≤◌, ◌⊎◌, ◌+◌, ◌^◌, ℕ, List, [], length, drop};
ghost use Rattle.std.specs.Prelude.{IsErr, IfOk, OnOk, Some};
ghost use Rattle.std.specs.Prelude.{OnErr, IfSome, IsErrOf};
ghost use Rattle.std.specs.declared.option.Option.{Option};
ghost use Rattle.std.specs.Io.{ReadsAtMost};
ghost use Rattle.std.specs.Io.KnownBytes.{ReadConsumes};
ghost use Rattle.expert_io.specs.Faults.{Rose, HasCause};
ghost use Rattle.expert_io.specs.Told.{File, file_of, Lacks};

use crate::sink::Failed;
use sql_value::{Bytes, Memory};
use std::alloc::Global;
use thiserror::Error;

/// How many bytes one read asks for, at most.
const PIECE: u64 = 4096;

/// Named files, of which one is open at a time.
pub trait Shelf {
    // The files by name, where they are told. No call changes them.
    ghost files: { Self → Option (List File) };

    // What reads of the file that was opened last will still give, where it is told.
    ghost left: { Self → Option (List ℕ) };

    // How many calls failed for a reason of the outside. The count never falls, and has 64 bits.
    ghost faults: { Self → ℕ };

    /// Opens the file of a name in place of the one that is open. It fails where a shelf that tells
    /// its files has none of this name, and by a fault; then no file is open.
    fn open_file(&mut self, name: &[u8]) -> Result<(), Failed>
        ensures files { files self.new ≡ files self.old }
        ensures opened { OnOk result (IfSome (files self.old) (λ told. (bytes : List ℕ)
            × (file_of told name.now ≡ Some bytes) × (left self.new ≡ Some bytes))) }
        ensures closed { OnErr result (IfSome (files self.old) (λ _. left self.new ≡ Some [])) }
        ensures later { faults self.old ≤ faults self.new }
        ensures kept { OnOk result (faults self.new ≡ faults self.old) }
        ensures lacks { Lacks (files self.old) name.now → IsErr result
            × (faults self.new ≡ faults self.old) }
        ensures failed { OnErr result (Lacks (files self.old) name.now
            ⊎ Rose (faults self.old) (faults self.new)) }
        ensures bounded { faults self.new < 2 ^ 64 };

    /// Moves the next bytes of the open file into the front of the buffer and answers how many: 0
    /// for a buffer that is not empty says that the file ends here. It fails by a fault alone.
    fn read(&mut self, buf: &mut [u8]) -> Result<usize, Failed>
        ensures files { files self.new ≡ files self.old }
        ensures bound { ReadsAtMost result buf.new }
        ensures bytes { ReadConsumes (left self.old) (left self.new) result buf.new }
        ensures cause { HasCause (faults self.old) (faults self.new) result }
        ensures bounded { faults self.new < 2 ^ 64 };
}

/// Why a file was not read.
#[derive(Clone, Copy, Debug, PartialEq, Eq, Error)]
pub enum ReadFault {
    /// The shelf has no such file, or a call of it failed.
    #[error("the file can't be read")]
    Failed,
    /// The file has more bytes than the limit.
    #[error("the file is too large")]
    TooLarge,
    /// Memory was wanting.
    #[error("out of memory")]
    Memory,
}

impl From<Memory> for ReadFault {
    ghost use Rattle.expert_io.specs.ReadFaults.{IsMemory};

    ghost from_gives = { λ _ fault. IsMemory fault };

    fn from(_: Memory) -> ReadFault {
        ReadFault::Memory
    }
}

// What is left of the open file, if it has at most `limit` bytes.
fn read_left<F: Shelf>(alloc: Global, shelf: &mut F, limit: u64) -> Result<Bytes, ReadFault>
    ensures files { F.files shelf.new ≡ F.files shelf.old }
    ensures ok { IfOk result (λ bytes. IfSome (F.left shelf.old) (λ all. bytes ≡ all)
        × (length bytes ≤ limit)) }
    ensures too_large { IsErrOf result ReadFault.TooLarge → IfSome (F.left shelf.old)
        (λ all. (limit < length all) × (F.left shelf.new ≡ Some (drop (limit + 1) all))) }
    ensures later { F.faults shelf.old ≤ F.faults shelf.new }
    ensures failed_only { IsErrOf result ReadFault.Failed
        → Rose (F.faults shelf.old) (F.faults shelf.new) }
    ensures failed_always { F.faults shelf.old < F.faults shelf.new
        → IsErrOf result ReadFault.Failed }
{
    let mut bytes = Bytes::new(alloc);
    let mut room = limit;
    let mut buf = [0u8; 4096];
    loop {
        // One byte behind the limit tells that the file is too large.
        let want = room.saturating_add(1).min(PIECE) as usize;
        let n = match shelf.read(&mut buf[..want]) {
            Ok(n) => n,
            Err(_) => return Err(ReadFault::Failed),
        };
        if n == 0 {
            return Ok(bytes);
        }
        if n as u64 > room {
            return Err(ReadFault::TooLarge);
        }
        bytes.append(&buf[..n])?;
        room -= n as u64;
    }
}

/// The bytes of a file, if it has at most `limit`. No byte is asked for beyond the first one behind
/// the limit, and no more is held than the limit and one buffer.
pub fn read_file<F: Shelf>(
    alloc: Global,
    shelf: &mut F,
    name: &[u8],
    limit: u64,
) -> Result<Bytes, ReadFault>
    ensures files { F.files shelf.new ≡ F.files shelf.old }
    ensures ok { IfOk result (λ bytes. length bytes ≤ limit) }
    ensures told { IfOk result (λ bytes. IfSome (F.files shelf.old)
        (λ told. file_of told name.now ≡ Some bytes)) }

    ensures later { F.faults shelf.old ≤ F.faults shelf.new }
    ensures failed_always { F.faults shelf.old < F.faults shelf.new
        → IsErrOf result ReadFault.Failed }
    ensures lacks { Lacks (F.files shelf.old) name.now → IsErrOf result ReadFault.Failed }
    ensures failed_only { IsErrOf result ReadFault.Failed →
        Lacks (F.files shelf.old) name.now ⊎ Rose (F.faults shelf.old) (F.faults shelf.new) }

    // A file that is too large is read up to its first byte behind the limit, and no further.
    ensures too_large_only { IsErrOf result ReadFault.TooLarge →
        IfSome (F.files shelf.old) (λ told. (bytes : List ℕ)
        × (file_of told name.now ≡ Some bytes) × (limit < length bytes)
        × (F.left shelf.new ≡ Some (drop (limit + 1) bytes))) }
{
    match shelf.open_file(name) {
        Ok(()) => read_left(alloc, shelf, limit),
        Err(_) => Err(ReadFault::Failed),
    }
}
