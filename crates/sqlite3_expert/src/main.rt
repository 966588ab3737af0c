//! The program over the real files and streams.
#![tactic(auto)]

use expert_io::{FileShelf, StdSink, Words};
use expert_main::{OUT_OF_MEMORY, expert};
use sql_value::{Bytes, Memory};
use std::alloc::Global;
use std::env::{Env, FillError};
use std::process::ExitCode;

// A word of the command line as its bytes, which need not be UTF-8, or none behind the last.
fn word<R: Env>(alloc: Global, rt: &R, i: usize) -> Result<Option<Bytes>, Memory> {
    let mut size = 256usize;
    // A word that is longer than the buffer is asked for again with twice the room.
    for _ in 0..32 {
        let mut buf = vec![in alloc; 0u8; size]?;
        match rt.arg(i, &mut buf) {
            Ok(n) => return Ok(Some(Bytes::copy(alloc, &buf[..n])?)),
            Err(FillError::NotPresent) => return Ok(None),
            Err(FillError::TooLong) => size = size.saturating_mul(2),
        }
    }
    Err(Memory)
}

// The words behind the program's name.
fn gather<R: Env>(alloc: Global, rt: &R) -> Result<Words, Memory> {
    let mut words = Words::new(alloc);
    for i in 1..usize::MAX {
        match word(alloc, rt, i)? {
            Some(word) => words.push(word)?,
            None => break,
        }
    }
    Ok(words)
}

fn main(rt: HostRuntime) -> ExitCode {
    let words = match gather(rt.alloc(), &rt) {
        Ok(words) => words,
        Err(_) => return ExitCode::from(OUT_OF_MEMORY),
    };
    let mut shelf = FileShelf::new(&rt);
    let mut out = StdSink::new(rt.stdout());
    let mut err = StdSink::new(rt.stderr());
    ExitCode::from(expert(rt.alloc(), &words, &mut shelf, &mut out, &mut err))
}
