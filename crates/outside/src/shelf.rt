ghost use Rattle.outside.specs.Shelf.{AnswersTake, ShelfState};

use qs_values::List;
use std::alloc::Global;

/// What a file has: all its bytes, or more than were asked for.
#[derive(Debug, Drop)]
pub enum Taken {
    /// All bytes of the file.
    Whole(List<u8>),
    /// The file has more bytes than were asked for, and none of them is given.
    Longer,
}

/// Why a file wasn't taken.
#[derive(Clone, Copy, Debug, PartialEq, Eq)]
pub enum TakeFault {
    /// It couldn't be read.
    Failed,
    /// Out of memory.
    Memory,
}

/// Files by name. It counts its faults, and keeps the name that failed last.
pub trait Shelf {
    ghost state: { Self → ShelfState };

    /// All bytes of the file of this name, where it has at most `limit` bytes, and `Longer` where it
    /// has more.
    ///
    /// `Failed` comes only where the shelf counts a fault, and the name that it keeps is then this
    /// one. `Memory` is out of memory. But for a fault the shelf stays as it was.
    fn take(&mut self, alloc: Global, name: &str, limit: u32) -> Result<Taken, TakeFault>
        ensures { AnswersTake (state self.old) (state self.new) name.now limit result };
}
