//! The real files and streams: the edge that is trusted, since nothing tells what they hold.
ghost use Rattle.std.specs.Prelude.{◌≡◌, None};

use crate::shelf::Shelf;
use crate::sink::{Failed, Sink};
use std::fs;
use std::io::{Read, Write};
use std::rt::Files;

/// The files of the system.
#[derive(Drop)]
pub struct FileShelf<'a, R: Files> {
    rt: &'a R,
    open: Option<R::File>,
    faults: u64,
}

impl<'a, R: Files> FileShelf<'a, R> {
    /// No file is open, and no fault is counted yet.
    pub fn new(rt: &'a R) -> Self
        ensures { result.faults ≡ 0 }
    {
        FileShelf {
            rt,
            open: None,
            faults: 0,
        }
    }
}

impl<'a, R: Files> Shelf for FileShelf<'a, R> {
    ghost files = { λ _. None };

    ghost left = { λ _. None };

    ghost faults = { λ s. s.faults };

    fn open_file(&mut self, name: &[u8]) -> Result<(), Failed> {
        let one_more = self.faults.saturating_add(1);
        self.open = None;
        if let Ok(path) = str::from_utf8(name) {
            if let Ok(file) = fs::open(self.rt, path) {
                self.open = Some(file);
                return Ok(());
            }
        }
        self.faults = one_more;
        Err(Failed)
    }

    fn read(&mut self, buf: &mut [u8]) -> Result<usize, Failed> {
        let one_more = self.faults.saturating_add(1);
        if let Some(file) = &mut self.open {
            if let Ok(n) = file.read(buf) {
                return Ok(n);
            }
        }
        self.faults = one_more;
        Err(Failed)
    }
}

/// A standard stream, or any other writer.
#[derive(Drop)]
pub struct StdSink<W: Write + Drop> {
    inner: W,
    faults: u64,
}

impl<W: Write + Drop> StdSink<W> {
    /// Nothing is written yet, and no fault is counted.
    pub fn new(inner: W) -> Self
        ensures faults { result.faults ≡ 0 }
        ensures written { W.contents result.inner ≡ W.contents inner }
    {
        StdSink { inner, faults: 0 }
    }
}

impl<W: Write + Drop> Sink for StdSink<W> {
    ghost written = { λ s. W.contents s.inner };

    ghost faults = { λ s. s.faults };

    fn write(&mut self, piece: &[u8]) -> Result<usize, Failed> {
        let one_more = self.faults.saturating_add(1);
        match self.inner.write(piece) {
            Ok(n) if n > 0 || piece.is_empty() => Ok(n),
            _ => {
                self.faults = one_more;
                Err(Failed)
            }
        }
    }
}
