ghost use Rattle.std.specs.Prelude.{◌≡◌};

use qs_values::Span;
use std::alloc::{AllocError, AllocFailed};

/// Why a source has no tokens, and where: the first fault in the order of the text.
#[derive(Clone, Copy, Debug, PartialEq, Eq)]
pub enum LexRefusal {
    /// The first byte that belongs to no character.
    NotUtf8 { span: Span },
    /// A character that begins no gap and no lexeme.
    BadChar { span: Span },
    /// A comment without its end.
    OpenComment { span: Span },
    /// A text without its end on its line.
    OpenText { span: Span },
    /// A number past its limit.
    NumberTooWide { span: Span },
    /// One token more than a source may have.
    TooManyTokens { span: Span },
    /// Out of memory.
    Memory,
}

impl LexRefusal {
    ghost use Rattle.qs_lexer.specs.Lexed.{code_of, span_of};

    /// The refusal's number, from 101 to 106, and 0 where memory is out.
    pub fn code(&self) -> u16
        ensures { result ≡ code_of self.now }
    {
        match self {
            LexRefusal::NotUtf8 { .. } => 101,
            LexRefusal::BadChar { .. } => 102,
            LexRefusal::OpenComment { .. } => 103,
            LexRefusal::OpenText { .. } => 104,
            LexRefusal::NumberTooWide { .. } => 105,
            LexRefusal::TooManyTokens { .. } => 106,
            LexRefusal::Memory => 0,
        }
    }

    /// Where the fault is; `Memory` has no place.
    pub fn span(&self) -> Option<Span>
        ensures { result ≡ span_of self.now }
    {
        match self {
            LexRefusal::NotUtf8 { span }
            | LexRefusal::BadChar { span }
            | LexRefusal::OpenComment { span }
            | LexRefusal::OpenText { span }
            | LexRefusal::NumberTooWide { span }
            | LexRefusal::TooManyTokens { span } => Some(*span),
            LexRefusal::Memory => None,
        }
    }
}

impl From<AllocError> for LexRefusal {
    ghost use Rattle.qs_lexer.specs.declared.refusal.LexRefusal.TheVariants.{Memory as OutOfMemory};

    ghost from_gives = { λ _ refusal. refusal ≡ OutOfMemory };

    fn from(_: AllocError) -> LexRefusal {
        LexRefusal::Memory
    }
}
