ghost use Rattle.std.specs.Prelude.{◌≡◌};

use qs_values::{NumRefusal, Span};

/// Why a part of an expression has no value.
#[derive(Clone, Copy, Debug, PartialEq, Eq)]
pub enum Cause {
    /// As an operation on numbers is refused, or a shift's count is a whole number outside of 0 to
    /// 63: 121 to 124.
    Number(NumRefusal),
    /// An exponent that isn't a whole number from 0 to 63, or a power at run time: 125.
    BadPower,
    /// The name of a variable: 126.
    Variable,
    /// A name that isn't known: 126.
    Unknown,
    /// No rule types it: 133.
    NoRule,
}

impl Cause {
    ghost use Rattle.qs_const.specs.Causes.{cause_code};

    /// Its number.
    pub fn code(self) -> u16
        ensures { result ≡ cause_code self }
    {
        match self {
            Cause::Number(refusal) => refusal.code(),
            Cause::BadPower => 125,
            Cause::Variable | Cause::Unknown => 126,
            Cause::NoRule => 133,
        }
    }
}

/// A cause at its place.
#[derive(Clone, Copy, Debug, PartialEq, Eq)]
pub struct Fault {
    pub span: Span,
    pub cause: Cause,
}

impl Fault {
    ghost use Rattle.qs_const.specs.Causes.{is_before};

    /// Whether it comes before another: it stands before it in the text, or at the same place with
    /// a lower number.
    pub fn is_before(&self, other: &Fault) -> bool
        ensures { result ≡ is_before self.now other.now }
    {
        if self.span.line != other.span.line {
            self.span.line < other.span.line
        } else if self.span.col != other.span.col {
            self.span.col < other.span.col
        } else {
            self.cause.code() < other.cause.code()
        }
    }
}
