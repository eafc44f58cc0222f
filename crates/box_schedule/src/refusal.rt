ghost use Rattle.std.specs.Prelude.{◌≡◌};
ghost use Rattle.box_schedule.specs.Codes.{code_of};

use qs_values::Span;
use std::alloc::AllocError;

/// Why a block is refused.
#[derive(Clone, Copy, Debug, PartialEq, Eq)]
pub enum BoxRefusal {
    /// The block lasts longer than 2^40 ticks. The place is that of its first operation.
    TickOut { span: Span },
    /// A delay lasts less than 0 ticks. The place is that of the delay.
    DelayNegative { span: Span },
    /// Out of memory.
    Memory,
}

impl BoxRefusal {
    /// The number under which a refusal is printed, and 0 for out of memory.
    pub fn code(&self) -> u16
        ensures { result ≡ code_of self.now }
    {
        match self {
            BoxRefusal::TickOut { .. } => 203,
            BoxRefusal::DelayNegative { .. } => 204,
            BoxRefusal::Memory => 0,
        }
    }
}

impl From<AllocError> for BoxRefusal {
    ghost use Rattle.box_schedule.specs.declared.refusal.BoxRefusal.TheVariants.{Memory as OutOfMemory};

    ghost from_gives = { λ _ refusal. refusal ≡ OutOfMemory };

    fn from(_: AllocError) -> BoxRefusal {
        BoxRefusal::Memory
    }
}
