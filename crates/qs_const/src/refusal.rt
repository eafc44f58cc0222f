ghost use Rattle.std.specs.Prelude.{◌≡◌, ◌≢◌, Some};
ghost use Rattle.qs_const.specs.declared.cause.Cause.TheVariants.{NoRule};
ghost use Rattle.qs_const.specs.Causes.{cause_code};
ghost use Rattle.qs_const.specs.Folding.{told};

use crate::cause::{Cause, Fault};
use qs_values::{NumRefusal, Span};
use std::alloc::AllocError;

/// Why a constant expression has no value, and where: the first refusal in the order of the text.
#[derive(Clone, Copy, Debug, PartialEq, Eq)]
pub enum ConstRefusal {
    /// A part of a number reaches 10^18 in lowest terms, a result doesn't fit, or a shift's count
    /// is a whole number outside of 0 to 63.
    TooWide { span: Span },
    /// A product of two numbers with pi.
    PiTimesPi { span: Span },
    /// A divisor 0.
    ByZero { span: Span },
    /// A divisor with pi, but for a quotient of two multiples of pi alone.
    ByPi { span: Span },
    /// An exponent that isn't a whole constant from 0 to 63, or a power at run time.
    BadPower { span: Span },
    /// A name without a constant.
    NotConst { span: Span },
    /// Out of memory.
    Memory,
}

impl ConstRefusal {
    ghost use Rattle.std.specs.Option.{option_map};
    ghost use Rattle.qs_const.specs.Folding.{refusal_code, told};

    /// Its number and its place; out of memory has no place.
    fn told(&self) -> Option<(u16, Span)>
        ensures { result ≡ told self.now }
    {
        match self {
            ConstRefusal::TooWide { span } => Some((121, *span)),
            ConstRefusal::PiTimesPi { span } => Some((122, *span)),
            ConstRefusal::ByZero { span } => Some((123, *span)),
            ConstRefusal::ByPi { span } => Some((124, *span)),
            ConstRefusal::BadPower { span } => Some((125, *span)),
            ConstRefusal::NotConst { span } => Some((126, *span)),
            ConstRefusal::Memory => None,
        }
    }

    /// The refusal's number, from 121 to 126, and 0 for out of memory.
    pub fn code(&self) -> u16
        ensures { result ≡ refusal_code self.now }
    {
        match self.told() {
            Some((code, _)) => code,
            None => 0,
        }
    }

    /// Where the refusal is; out of memory has no place.
    pub fn span(&self) -> Option<Span>
        ensures { result ≡ option_map (λ told. told.1) (told self.now) }
    {
        match self.told() {
            Some((_, span)) => Some(span),
            None => None,
        }
    }
}

impl From<AllocError> for ConstRefusal {
    ghost use Rattle.qs_const.specs.declared.refusal.ConstRefusal.TheVariants.{Memory as OutOfMemory};

    ghost from_gives = { λ _ refusal. refusal ≡ OutOfMemory };

    fn from(_: AllocError) -> ConstRefusal {
        ConstRefusal::Memory
    }
}

/// A fault as the call answers it.
pub fn refusal_of(fault: Fault) -> ConstRefusal
    requires { fault.cause ≢ NoRule }
    ensures { told result ≡ Some (cause_code fault.cause, fault.span) }
{
    let span = fault.span;
    match fault.cause {
        Cause::Number(NumRefusal::TooWide) => ConstRefusal::TooWide { span },
        Cause::Number(NumRefusal::PiTimesPi) => ConstRefusal::PiTimesPi { span },
        Cause::Number(NumRefusal::ByZero) => ConstRefusal::ByZero { span },
        Cause::Number(NumRefusal::ByPi) => ConstRefusal::ByPi { span },
        Cause::BadPower => ConstRefusal::BadPower { span },
        Cause::Variable | Cause::Unknown => ConstRefusal::NotConst { span },
        Cause::NoRule => unreachable!(),
    }
}
