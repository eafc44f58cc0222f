ghost use Rattle.std.specs.Prelude.{◌≡◌, ◌↔◌, [], IsTrue, Contains, MatchOption, None, Some};
ghost use Rattle.outside.specs.Shelf.{AnswersTake, bytes_of};
ghost use Rattle.outside.specs.Memory.{TakesInMemory, shelf_state};
ghost use Rattle.outside.specs.Kept.{files_of, ReadsOf};

use crate::shelf::{Shelf, TakeFault, Taken};
use qs_values::{List, Name};
use std::alloc::Global;
use std::marker::Model;

/// A file in memory: its name and its bytes.
#[derive(Debug, Drop)]
pub struct Kept {
    pub name: Name,
    pub bytes: List<u8>,
}

/// Files in memory, of which chosen calls fail.
#[derive(Debug, Drop)]
pub struct MemoryShelf {
    files: List<Kept>,
    fails: List<u32>,
    calls: u64,
    faults: u64,
    failed: Option<Name>,
}

impl Model for MemoryShelf {
    ghost use Rattle.outside.specs.Memory.{ShelfInMemory};

    ghost Value = { ShelfInMemory };

    ghost use Rattle.outside.specs.Kept.{files_of, name_or_empty};

    ghost view = { λ s. record {
      files = files_of s.files;
      fails = s.fails;
      calls = s.calls;
      faults = s.faults;
      failed = name_or_empty s.failed;
    } };
}

impl MemoryShelf {
    /// A shelf whose calls of `take` are numbered from 0, and of which those in `fails` fail, as a
    /// call by a name that no file has. Of several files with one name the first counts. A call
    /// that finds no memory has no number.
    pub fn new(files: List<Kept>, fails: List<u32>) -> MemoryShelf
        ensures { result ≡ record {
          files = files_of files;
          fails = fails;
          calls = 0;
          faults = 0;
          failed = [];
        } }
    {
        MemoryShelf {
            files,
            fails,
            calls: 0,
            faults: 0,
            failed: None,
        }
    }
}

impl Shelf for MemoryShelf {
    ghost use Rattle.outside.specs.Memory.{shelf_state};

    ghost state = { shelf_state };

    fn take(&mut self, alloc: Global, name: &str, limit: u32) -> Result<Taken, TakeFault>
        ensures meaning { AnswersTake (shelf_state self.old) (shelf_state self.new)
            name.now limit result }
        ensures exact { TakesInMemory self.old self.new name.now limit result }
    {
        let Ok(copy) = Name::copy_of(alloc, name) else {
            return Err(TakeFault::Memory);
        };
        let answer = if is_listed(self.fails.as_slice(), self.calls) {
            Err(TakeFault::Failed)
        } else {
            read(alloc, self.files.as_slice(), name, limit)
        };
        match answer {
            Ok(taken) => {
                self.calls = self.calls.saturating_add(1);
                Ok(taken)
            }
            Err(TakeFault::Failed) => {
                self.calls = self.calls.saturating_add(1);
                self.faults = self.faults.saturating_add(1);
                self.failed = Some(copy);
                Err(TakeFault::Failed)
            }
            Err(TakeFault::Memory) => Err(TakeFault::Memory),
        }
    }
}

fn is_listed(fails: &[u32], call: u64) -> bool
    ensures { IsTrue result ↔ Contains fails.now call }
{
    fails.iter().any(|fail| u64::from(*fail) == call)
}

fn read(alloc: Global, files: &[Kept], name: &str, limit: u32) -> Result<Taken, TakeFault>
    ensures { ReadsOf (bytes_of (files_of files.now) name.now) limit result }
{
    let Some(file) = first_named(files, name) else {
        return Err(TakeFault::Failed);
    };
    let bytes = file.bytes.as_slice();
    if bytes.len() > limit as usize {
        return Ok(Taken::Longer);
    }
    match Vec::from_slice(alloc, bytes) {
        Ok(copy) => Ok(Taken::Whole(List::from_vec(copy))),
        Err(_) => Err(TakeFault::Memory),
    }
}

fn first_named<'a>(files: &'a [Kept], name: &str) -> Option<&'a Kept>
    ensures { MatchOption result (bytes_of (files_of files.now) name.now ≡ None)
        (λ f. bytes_of (files_of files.now) name.now ≡ Some f.now.bytes) }
{
    for file in files {
        if file.name.as_str() == name {
            return Some(file);
        }
    }
    None
}
