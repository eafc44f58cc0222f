ghost use Rattle.std.specs.Prelude.{◌≡◌};
ghost use Rattle.stretch_solve.specs.Codes.{code_of};

use thiserror::Error;

/// Why a group of equations has no solution that can be used. The front adds the place.
#[derive(Clone, Copy, Debug, PartialEq, Eq, Error)]
pub enum StretchRefusal {
    /// No fractions satisfy each equation.
    #[error("no lengths of the stretches satisfy each equation")]
    StretchNone,
    /// Fractions that differ satisfy each equation.
    #[error("lengths of the stretches that differ satisfy each equation")]
    StretchMany,
    /// The only fractions that satisfy each equation have a negative one among them.
    #[error("a stretch would have a negative length")]
    StretchNegative,
    /// More than four stretches share equations.
    #[error("more than four stretches share equations")]
    GroupTooLarge,
}

impl StretchRefusal {
    /// The number under which a refusal is printed, from 191 to 194.
    pub fn code(&self) -> u16
        ensures { result ≡ code_of self.now }
    {
        match self {
            StretchRefusal::StretchNone => 191,
            StretchRefusal::StretchMany => 192,
            StretchRefusal::StretchNegative => 193,
            StretchRefusal::GroupTooLarge => 194,
        }
    }
}
