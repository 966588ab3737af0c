//! A shelf in memory.
ghost use Rattle.std.specs.Prelude.{◌≡◌, ◌≤◌, ◌<◌, ◌+◌, ◌^◌, ◌⊎◌, ◌↔◌, ℕ, List, [], None, Some};
ghost use Rattle.std.specs.Prelude.{MatchOption, length, take, min, OnOk, OnErr, IfOk, IfSome};
ghost use Rattle.std.specs.Prelude.{IsErr, IsSome};
ghost use Rattle.std.specs.Io.{ReadsAtMost};
ghost use Rattle.std.specs.Io.KnownBytes.{ReadConsumes};
ghost use Rattle.expert_io.specs.Faults.{Rose, HasCause};
ghost use Rattle.expert_io.specs.Told.{file_of, Lacks};
ghost use Rattle.expert_io.specs.Left.{left_of};
ghost use Rattle.expert_io.specs.Objects.{Shelved, raised, IsListed};

use crate::lists::{Calls, Files};
use crate::shelf::Shelf;
use crate::sink::Failed;
use std::marker::Model;

/// Files in memory, of which the first of a name counts. The calls of the given numbers fail, opens
/// and reads counted together from 1; an open of a name that is not there fails by itself and is no
/// fault. One read gives at most `most` bytes.
#[derive(Drop)]
pub struct MemoryShelf {
    files: Files,
    failing: Calls,
    most: u64,
    current: Option<usize>,
    at: usize,
    calls: u64,
    faults: u64,
}

impl Model for MemoryShelf {
    ghost Value = { Shelved };

    ghost view = { λ s. record {
      files = s.files;
      failing = s.failing;
      most = s.most;
      left = left_of s.files s.current s.at;
      calls = s.calls;
      faults = s.faults;
    } };

    ghost invariant = { λ s. 1 ≤ s.most };
}

// The place of the first file of a name.
fn place_of(files: &Files, name: &[u8]) -> Option<usize>
    ensures { MatchOption result (file_of files.now name.now ≡ None)
        (λ i. (i < length files.now)
        × (file_of files.now name.now ≡ Some (left_of files.now (Some i) 0))) }
{
    let all = files.as_slice();
    for (i, file) in all.iter().enumerate() {
        if file.0.as_slice() == name {
            return Some(i);
        }
    }
    None
}

// What is left of the file at a place from an offset on.
fn rest_of(files: &Files, current: Option<usize>, at: usize) -> &[u8]
    ensures rest { result.now ≡ left_of files.now current at }
    ensures fits { 0 < length result.now → at + length result.now < 2 ^ 64 }
{
    match current {
        Some(i) => match files.as_slice().get(i) {
            Some(file) => {
                let bytes = file.1.as_slice();
                &bytes[at.min(bytes.len())..]
            }
            None => &[],
        },
        None => &[],
    }
}

// Copies the front of `rest` to the front of the buffer, at most `most` bytes, and answers how
// many.
fn give(rest: &[u8], most: u64, buf: &mut [u8]) -> usize
    requires { 1 ≤ most }
    ensures least { result ≡ min (min (length buf.new) (length rest.now)) most }
    ensures bytes { take result buf.new ≡ take result rest.now }
    ensures none { result ≡ 0 → 0 < length buf.new → rest.now ≡ [] }
{
    let n = buf.len().min(rest.len()).min(most as usize);
    buf[..n].copy_from_slice(&rest[..n]);
    n
}

impl MemoryShelf {
    /// A shelf with no file open. `most` is the most bytes that one read gives.
    pub fn new(files: Files, failing: Calls, most: u64) -> MemoryShelf
        requires { 1 ≤ most }
        ensures { result ≡ record {
          files = files;
          failing = failing;
          most = most;
          left = [];
          calls = 0;
          faults = 0;
        } }
    {
        MemoryShelf {
            files,
            failing,
            most,
            current: None,
            at: 0,
            calls: 0,
            faults: 0,
        }
    }
}

impl Shelf for MemoryShelf {
    ghost files = { λ s. Some s.files };

    ghost left = { λ s. Some s.left };

    ghost faults = { λ s. s.faults };

    fn open_file(&mut self, name: &[u8]) -> Result<(), Failed>
        ensures files { Some self.new.files ≡ Some self.old.files }
        ensures opened { OnOk result (IfSome (Some self.old.files) (λ told. (bytes : List ℕ)
            × (file_of told name.now ≡ Some bytes) × (Some self.new.left ≡ Some bytes))) }
        ensures closed { OnErr result (IfSome (Some self.old.files)
            (λ _. Some self.new.left ≡ Some [])) }
        ensures later { self.old.faults ≤ self.new.faults }
        ensures kept { OnOk result (self.new.faults ≡ self.old.faults) }
        ensures lacks { Lacks (Some self.old.files) name.now → IsErr result
            × (self.new.faults ≡ self.old.faults) }
        ensures failed { OnErr result (Lacks (Some self.old.files) name.now
            ⊎ Rose self.old.faults self.new.faults) }
        ensures bounded { self.new.faults < 2 ^ 64 }

        // It fails exactly at a listed call and where no file has the name.
        ensures exactly { IsErr result ↔ ((file_of self.old.files name.now ≡ None)
            ⊎ IsListed self.old.calls self.old.failing) }
        ensures fault { IsErr result → IsSome (file_of self.old.files name.now)
            → self.new.faults ≡ raised self.old.faults }
        ensures call { self.new.calls ≡ raised self.old.calls }
    {
        self.calls = self.calls.saturating_add(1);
        self.current = None;
        self.at = 0;
        let place = place_of(&self.files, name);
        if place.is_none() {
            return Err(Failed);
        }
        if self.failing.as_slice().contains(&self.calls) {
            self.faults = self.faults.saturating_add(1);
            return Err(Failed);
        }
        self.current = place;
        Ok(())
    }

    fn read(&mut self, buf: &mut [u8]) -> Result<usize, Failed>
        ensures files { Some self.new.files ≡ Some self.old.files }
        ensures bound { ReadsAtMost result buf.new }
        ensures bytes { ReadConsumes (Some self.old.left) (Some self.new.left) result buf.new }
        ensures cause { HasCause self.old.faults self.new.faults result }
        ensures bounded { self.new.faults < 2 ^ 64 }

        // It fails exactly at a listed call, and gives as much as the buffer, the file and the
        // bound allow.
        ensures exactly { IsErr result ↔ IsListed self.old.calls self.old.failing }
        ensures gives { IfOk result
            (λ n. n ≡ min (min (length buf.new) (length self.old.left)) self.old.most) }
        ensures fault { OnErr result (self.new.faults ≡ raised self.old.faults) }
        ensures call { self.new.calls ≡ raised self.old.calls }
    {
        self.calls = self.calls.saturating_add(1);
        if self.failing.as_slice().contains(&self.calls) {
            self.faults = self.faults.saturating_add(1);
            return Err(Failed);
        }
        let rest = rest_of(&self.files, self.current, self.at);
        let n = give(rest, self.most, buf);
        self.at += n;
        Ok(n)
    }
}
