ghost use Rattle.std.specs.Prelude.{◌≡◌};
ghost use Rattle.qs_const.specs.Operands.{has_anything, has_duration_alone, has_number, has_truth};

use crate::cause::Fault;
use qs_tree::ConstVal;

/// The kinds that a part without a value may have.
#[derive(Clone, Copy, Debug, PartialEq, Eq)]
pub enum Kinds {
    /// A number alone: a constant, an `int`, a `uint` or an `angle`.
    Number,
    /// A truth value alone: a constant, a `bit` or a `bool`.
    Truth,
    /// A duration alone.
    Duration,
    /// Any but a duration.
    NoDuration,
    /// Any, a duration too.
    Anything,
}

impl Kinds {
    /// Whether a number is among them.
    pub fn has_number(self) -> bool
        ensures { result ≡ has_number self }
    {
        match self {
            Kinds::Number | Kinds::NoDuration | Kinds::Anything => true,
            Kinds::Truth | Kinds::Duration => false,
        }
    }

    /// Whether a truth value is among them.
    pub fn has_truth(self) -> bool
        ensures { result ≡ has_truth self }
    {
        match self {
            Kinds::Truth | Kinds::NoDuration | Kinds::Anything => true,
            Kinds::Number | Kinds::Duration => false,
        }
    }

    /// Whether they are a duration's alone.
    pub fn has_duration_alone(self) -> bool
        ensures { result ≡ has_duration_alone self }
    {
        match self {
            Kinds::Duration => true,
            _ => false,
        }
    }

    /// Whether they are all kinds, a duration's too.
    pub fn has_anything(self) -> bool
        ensures { result ≡ has_anything self }
    {
        match self {
            Kinds::Anything => true,
            _ => false,
        }
    }
}

/// What is known of a part without a value.
#[derive(Clone, Copy, Debug, PartialEq, Eq)]
pub struct Absent {
    /// The first cause in the order of the text, and where it stands. Where there is none, nothing
    /// is wrong with the part: it reads a parameter or is a duration.
    pub fault: Option<Fault>,
    /// The kinds that it may have.
    pub kinds: Kinds,
    /// Whether it is a variable, one with an index, or one of these in brackets.
    pub variable: bool,
}

/// What an expression comes to.
#[derive(Debug, Drop)]
pub enum Judgement {
    /// Its value.
    Value(ConstVal),
    /// What is known of it without one.
    Absent(Absent),
}
