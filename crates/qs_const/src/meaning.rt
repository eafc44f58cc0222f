ghost use Rattle.std.specs.Prelude.{◌≡◌, IfOk};

use qs_tree::ConstVal;
use std::alloc::{AllocError, Global};

/// What a name means in an expression.
#[derive(Debug, Drop)]
pub enum Meaning {
    /// A constant with this value.
    Constant(ConstVal),
    /// A variable, of whatever type.
    Variable,
    /// Nothing that is known there.
    Unknown,
    /// A parameter of a gate, which may be of any kind.
    Parameter,
    /// A duration or a stretch.
    Duration,
    /// A gate, of a statement or of the include.
    Gate,
    /// Anything else that no expression reads, as a qubit.
    NoValue,
}

/// The names that an expression may read, as whoever has it judged knows them. `pi`, `π`, `tau` and
/// `τ` are never asked for.
pub trait Names {
    ghost use Rattle.qs_const.specs.Scopes.{Scope};

    ghost scope: { Self → Scope };

    /// What a name means; an error where memory runs out.
    fn meaning(&self, alloc: Global, name: &str) -> Result<Meaning, AllocError>
        ensures { IfOk result (λ meaning. meaning ≡ (scope self.now).means name.now) };

    /// Whether the expression stands in a duration. There a part that is refused, and a name that
    /// is unknown, may be durations too, and nothing round them is refused.
    fn is_in_duration(&self) -> bool
        ensures { result ≡ (scope self.now).in_duration };
}
