ghost use Rattle.std.specs.Prelude.{◌≡◌, List, ℕ, [], IfOk, None};
ghost use Rattle.std.specs.Io.KnownBytes.{WriteAppends};
ghost use Rattle.outside.specs.Shelf.{Reads};
ghost use Rattle.outside.specs.Sink.{AnswersPut};
ghost use Rattle.outside.specs.Stream.{ReadsAll, WritesFront};

use crate::shelf::{Shelf, TakeFault, Taken};
use crate::sink::{PutFailed, Sink};
use qs_values::{List, Name};
use std::alloc::Global;
use std::fs;
use std::io::{ErrorKind, Read, Write};
use std::marker::Model;
use std::rt::Files;

/// How many bytes of a file are read at a time.
const CHUNK_BYTES: usize = 16_384;

/// A sink over a writer, as standard output. A write that takes nothing is a fault, and one that was
/// interrupted is tried again.
#[derive(Drop)]
pub struct StreamSink<W: Write + Drop> {
    writer: W,
    faults: u64,
}

impl<W: Write + Drop> Model for StreamSink<W> {
    ghost use Rattle.outside.specs.Stream.{StreamState};

    ghost Value = { StreamState };

    ghost view = { λ s. record { held = W.contents s.writer; faults = s.faults } };
}

impl<W: Write + Drop> StreamSink<W> {
    /// A sink that had no fault yet.
    pub fn new(writer: W) -> StreamSink<W>
        ensures { result ≡ record { held = W.contents writer; faults = 0 } }
    {
        StreamSink { writer, faults: 0 }
    }

    /// How many faults it had.
    pub fn faults(&self) -> u64
        ensures { result ≡ self.now.faults }
    {
        self.faults
    }
}

/// Writes a front of a piece, of at least one byte. `None`, and nothing is written, where the writer
/// fails or takes nothing.
fn write_front<W: Write>(writer: &mut W, piece: &[u8]) -> Option<usize>
    ensures { WritesFront (W.contents writer.old) (W.contents writer.new) piece.now result }
{
    for _ in 0..u64::MAX {
        match writer.write(piece) {
            Ok(0) => return None,
            Ok(count) => return Some(count),
            Err(error) if error.kind() == ErrorKind::Interrupted => {}
            Err(_) => return None,
        }
    }
    None
}

impl<W: Write + Drop> Sink for StreamSink<W> {
    ghost use Rattle.outside.specs.Stream.{stream_state};

    ghost state = { stream_state };

    fn put(&mut self, piece: &[u8]) -> Result<usize, PutFailed>
        ensures meaning { AnswersPut (stream_state self.old) (stream_state self.new)
            piece.now result }
        ensures held { WriteAppends self.old.held self.new.held result piece.now }
    {
        if piece.is_empty() {
            return Ok(0);
        }
        match write_front(&mut self.writer, piece) {
            Some(count) => Ok(count),
            None => {
                self.faults = self.faults.saturating_add(1);
                Err(PutFailed)
            }
        }
    }
}

/// A shelf of the machine's files, by their paths. A file that can't be opened or read is a fault.
#[derive(Drop)]
pub struct FileShelf<R: Files + Drop> {
    files: R,
    faults: u64,
    failed: Option<Name>,
}

impl<R: Files + Drop> Model for FileShelf<R> {
    ghost use Rattle.std.specs.Prelude.{None};
    ghost use Rattle.outside.specs.Shelf.{ShelfState};
    ghost use Rattle.outside.specs.Kept.{name_or_empty};

    ghost Value = { ShelfState };

    ghost view = { λ s. record {
      files = None;
      faults = s.faults;
      failed = name_or_empty s.failed;
    } };
}

impl<R: Files + Drop> FileShelf<R> {
    /// A shelf that had no fault yet.
    pub fn new(files: R) -> FileShelf<R>
        ensures { result ≡ record { files = None; faults = 0; failed = [] } }
    {
        FileShelf {
            files,
            faults: 0,
            failed: None,
        }
    }

    /// How many faults it had.
    pub fn faults(&self) -> u64
        ensures { result ≡ self.now.faults }
    {
        self.faults
    }

    /// The name that the last fault was of, and no text where there was none.
    pub fn failed(&self) -> &str
        ensures { result.now ≡ self.now.failed }
    {
        match &self.failed {
            Some(name) => name.as_str(),
            None => "",
        }
    }
}

impl<R: Files + Drop> Shelf for FileShelf<R> {
    ghost state = { λ s. s };

    fn take(&mut self, alloc: Global, name: &str, limit: u32) -> Result<Taken, TakeFault> {
        let Ok(copy) = Name::copy_of(alloc, name) else {
            return Err(TakeFault::Memory);
        };
        match taken_of(&self.files, alloc, name, limit) {
            Err(TakeFault::Failed) => {
                self.faults = self.faults.saturating_add(1);
                self.failed = Some(copy);
                Err(TakeFault::Failed)
            }
            answer => answer,
        }
    }
}

/// What the file of this name has. Out of memory alone is told as that.
fn taken_of<R: Files>(files: &R, alloc: Global, name: &str, limit: u32) -> Result<Taken, TakeFault>
    ensures { IfOk result (λ taken. (bytes : List ℕ) × Reads bytes limit taken) }
{
    match fs::open(files, name) {
        Ok(file) => read_taken(file, alloc, limit),
        Err(error) if error.kind() == ErrorKind::OutOfMemory => Err(TakeFault::Memory),
        Err(_) => Err(TakeFault::Failed),
    }
}

/// All bytes that a reader has, or `Longer` where they are more than the limit. A read that was
/// interrupted is tried again. `Memory` comes only where the bytes find no room.
pub fn read_taken<R: Read + Drop>(reader: R, alloc: Global, limit: u32) -> Result<Taken, TakeFault>
    ensures { IfOk result (λ taken. ReadsAll (R.remaining reader) limit taken) }
{
    let mut reader = reader;
    let mut bytes = Vec::new(alloc);
    let mut chunk = [0; CHUNK_BYTES];
    for _ in 0..u64::MAX {
        if bytes.len() > limit as usize {
            return Ok(Taken::Longer);
        }
        match reader.read(&mut chunk) {
            Ok(0) => return Ok(Taken::Whole(List::from_vec(bytes))),
            Ok(count) => {
                let Ok(()) = bytes.extend_from_slice(&chunk[..count]) else {
                    return Err(TakeFault::Memory);
                };
            }
            Err(error) if error.kind() == ErrorKind::Interrupted => {}
            Err(_) => return Err(TakeFault::Failed),
        }
    }
    Err(TakeFault::Failed)
}
