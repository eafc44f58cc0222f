ghost use Rattle.std.specs.Prelude.{IsTrue};
ghost use Rattle.qs_values.specs.Kind.{has_width};

use crate::name::Name;

/// The kinds of run-time values (OpenQASM 3.0, types).
#[derive(Clone, Copy, Debug, PartialEq, Eq)]
pub enum Kind {
    /// `bit`
    Bit,
    /// `bool`
    Bool,
    /// `bit[n]`, which is n variables of one bit each
    Bits,
    /// `int[n]`, which stands as its number modulo 2^n
    Int,
    /// `uint[n]`
    Uint,
    /// `angle[n]`, which stands as its number of 2^n-ths of a full turn
    Angle,
}

/// A run-time type: its kind and its width in bits, 1 for `bit` and `bool`.
#[derive(Clone, Copy, Debug, PartialEq, Eq)]
pub struct Ty {
    pub kind: Kind,
    pub width: u8,
    ghost wide: { IsTrue (has_width kind width) },
}

/// An `input` variable, and the number of its first variable in the plan.
#[derive(Debug, Drop)]
pub struct Input {
    pub name: Name,
    pub ty: Ty,
    pub first: u32,
}

/// An output, and the number of its first variable in the plan.
#[derive(Debug, Drop)]
pub struct Out {
    pub name: Name,
    pub ty: Ty,
    pub first: u32,
}
