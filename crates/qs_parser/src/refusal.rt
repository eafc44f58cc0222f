ghost use Rattle.std.specs.Prelude.{◌≡◌};
ghost use Rattle.qs_parser.specs.Refusals.{code_of, span_of};

use qs_values::{Name, Span};
use std::alloc::AllocError;

/// Why tokens have no tree, at the first token of the rest: that is what follows the longest list of
/// whole statements at their front.
#[derive(Debug, Drop)]
pub enum ParseRefusal {
    /// The rest begins with no statement.
    NoStatement { span: Span },
    /// The rest begins with a statement that is too deep, or has an expression with too many
    /// operators; within twice these limits it follows the grammar.
    TooDeep { span: Span },
    /// The rest begins with a word that is left out, or has it after `const`, `input` or `output`.
    Unsupported { span: Span, word: Name },
    /// The source begins with a version line whose number is no known version.
    VersionUnknown { span: Span },
    /// Out of memory.
    Memory,
}

impl ParseRefusal {
    /// The refusal's number, from 111 to 114, and 0 for out of memory.
    pub fn code(&self) -> u16
        ensures { result ≡ code_of self.now }
    {
        match self {
            ParseRefusal::NoStatement { .. } => 111,
            ParseRefusal::TooDeep { .. } => 112,
            ParseRefusal::Unsupported { .. } => 113,
            ParseRefusal::VersionUnknown { .. } => 114,
            ParseRefusal::Memory => 0,
        }
    }

    /// Where the rest begins; out of memory has no place.
    pub fn span(&self) -> Option<Span>
        ensures { result ≡ span_of self.now }
    {
        match self {
            ParseRefusal::NoStatement { span }
            | ParseRefusal::TooDeep { span }
            | ParseRefusal::Unsupported { span, .. }
            | ParseRefusal::VersionUnknown { span } => Some(*span),
            ParseRefusal::Memory => None,
        }
    }
}

impl From<AllocError> for ParseRefusal {
    ghost use Rattle.qs_parser.specs.declared.refusal.ParseRefusal.TheVariants.{Memory as OutOfMemory};

    ghost from_gives = { λ _ refusal. refusal ≡ OutOfMemory };

    fn from(_: AllocError) -> ParseRefusal {
        ParseRefusal::Memory
    }
}
