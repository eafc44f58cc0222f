ghost use Rattle.std.specs.Prelude.{◌≡◌, Option, ℕ};
ghost use Rattle.qs_values.specs.declared.span.Span.{Span as Place};
ghost use Rattle.qasm_main.specs.front.Refused.{MalformedHalt, halt_of, refusal_at};

use box_schedule::BoxRefusal;
use qs_lexer::LexRefusal;
use qs_parser::ParseRefusal;
use qs_values::{Halt, List, Refusal, Span};
use std::alloc::Global;

/// Why a pass refuses, or that it is out of memory.
pub trait PassRefusal {
    ghost code_of: { Self → ℕ };

    ghost place_of: { Self → Option Place };

    /// The number under which it is told, and 0 where out of memory.
    fn code(&self) -> u16
        ensures { result ≡ code_of self.now };

    /// Where the fault stands, and none where out of memory.
    fn place(&self) -> Option<Span>
        ensures { result ≡ place_of self.now };
}

impl PassRefusal for LexRefusal {
    ghost use Rattle.qs_lexer.specs.Lexed.{code_of, span_of};

    ghost code_of = { code_of };

    ghost place_of = { span_of };

    fn code(&self) -> u16 {
        self.code()
    }

    fn place(&self) -> Option<Span> {
        self.span()
    }
}

impl PassRefusal for BoxRefusal {
    ghost use Rattle.box_schedule.specs.Codes.{code_of};
    ghost use Rattle.qasm_main.specs.front.Refused.{place_of};

    ghost code_of = { code_of };

    ghost place_of = { place_of };

    fn code(&self) -> u16 {
        self.code()
    }

    fn place(&self) -> Option<Span> {
        match self {
            BoxRefusal::TickOut { span } | BoxRefusal::DelayNegative { span } => Some(*span),
            BoxRefusal::Memory => None,
        }
    }
}

/// What a pass's refusal ends a compilation with.
pub fn halt_of<E: PassRefusal>(alloc: Global, refusal: &E) -> Halt
    ensures { result ≡ halt_of (E.code_of refusal.now) (E.place_of refusal.now) }
{
    match refusal.code() {
        0 => Halt::Memory,
        code => Halt::Refused(refusal_at(alloc, code, refusal.place())),
    }
}

/// What a refusal of tokens ends a compilation with: its code, its place, and the word for 113.
pub fn malformed_halt(alloc: Global, refusal: ParseRefusal) -> Halt
    ensures { MalformedHalt refusal result }
{
    let code = refusal.code();
    let span = refusal.span();
    match refusal {
        ParseRefusal::Unsupported { word, .. } => {
            let mut words = List::new(alloc);
            match words.push(word) {
                Ok(()) => Halt::Refused(Refusal { code, span, words }),
                Err(_) => Halt::Memory,
            }
        }
        ParseRefusal::NoStatement { .. }
        | ParseRefusal::TooDeep { .. }
        | ParseRefusal::VersionUnknown { .. } => Halt::Refused(refusal_at(alloc, code, span)),
        ParseRefusal::Memory => Halt::Memory,
    }
}

/// A refusal without words, at a place where it has one.
pub fn refusal_at(alloc: Global, code: u16, place: Option<Span>) -> Refusal
    ensures { result ≡ refusal_at code place }
{
    Refusal {
        code,
        span: place,
        words: List::new(alloc),
    }
}
