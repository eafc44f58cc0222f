ghost use Rattle.std.specs.Prelude.{◌≡◌};

use crate::list::List;
use crate::name::Name;
use crate::span::Span;
use std::alloc::{AllocError, AllocFailed};
use thiserror::Error;

/// Why a source, a table or a tape is refused: the code, its place in the source where it has one,
/// and the words that are printed after the code's name.
#[derive(Debug, Drop)]
pub struct Refusal {
    pub code: u16,
    pub span: Option<Span>,
    pub words: List<Name>,
}

/// Why an operation on constant numbers has no value.
#[derive(Clone, Copy, Debug, PartialEq, Eq, Error)]
pub enum NumRefusal {
    /// A part in lowest terms reaches 10^18.
    #[error("a part in lowest terms reaches 10^18")]
    TooWide,
    /// A product of two numbers with pi.
    #[error("a product of two numbers with pi")]
    PiTimesPi,
    /// A divisor 0.
    #[error("a divisor 0")]
    ByZero,
    /// A divisor with pi, where dividend and divisor aren't both multiples of pi alone.
    #[error("a divisor with pi")]
    ByPi,
}

impl NumRefusal {
    ghost use Rattle.qs_values.specs.Number.{code_of};

    /// The refusal's number, from 121 to 124.
    pub fn code(&self) -> u16
        ensures { result ≡ code_of self.now }
    {
        match self {
            NumRefusal::TooWide => 121,
            NumRefusal::PiTimesPi => 122,
            NumRefusal::ByZero => 123,
            NumRefusal::ByPi => 124,
        }
    }
}

/// Out of memory.
#[derive(Clone, Copy, Debug, PartialEq, Eq)]
pub struct Memory;

impl From<AllocError> for Memory {
    fn from(_: AllocError) -> Memory {
        Memory
    }
}

impl<T: Drop> From<AllocFailed<T>> for Memory {
    fn from(_: AllocFailed<T>) -> Memory {
        Memory
    }
}

/// What ends a compilation without a plan.
#[derive(Debug, Drop)]
pub enum Halt {
    Refused(Refusal),
    Memory,
}

impl From<AllocError> for Halt {
    ghost use Rattle.qs_values.specs.declared.refusal.Halt.TheVariants.{Memory as OutOfMemory};

    ghost from_gives = { λ _ halt. halt ≡ OutOfMemory };

    fn from(_: AllocError) -> Halt {
        Halt::Memory
    }
}

impl From<Memory> for Halt {
    ghost use Rattle.qs_values.specs.declared.refusal.Halt.TheVariants.{Memory as OutOfMemory};

    ghost from_gives = { λ _ halt. halt ≡ OutOfMemory };

    fn from(_: Memory) -> Halt {
        Halt::Memory
    }
}
