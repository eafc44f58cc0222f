ghost use Rattle.std.specs.Prelude.{◌≤◌, length};
ghost use Rattle.qs_lexer.specs.Lexed.{longest_source};
ghost use Rattle.qasm_dump.specs.Output.{LexedIs};
ghost use Rattle.qasm_dump.specs.Refusals.{HaltIs};

use qs_lexer::{LexRefusal, Token, lex};
use qs_values::{Halt, List, Refusal};
use std::alloc::Global;

/// What a fault among lexemes ends a pass with.
fn halt_of(alloc: Global, fault: LexRefusal) -> Halt
    ensures { HaltIs fault result }
{
    match fault {
        LexRefusal::Memory => Halt::Memory,
        _ => Halt::Refused(Refusal {
            code: fault.code(),
            span: fault.span(),
            words: List::new(alloc),
        }),
    }
}

/// The tokens of a source, or the refusal of its first fault.
pub fn lexed(alloc: Global, source: &[u8]) -> Result<List<Token>, Halt>
    requires { length source.now ≤ longest_source }
    ensures { LexedIs source.now result }
{
    match lex(alloc, source) {
        Ok(tokens) => Ok(tokens),
        Err(fault) => Err(halt_of(alloc, fault)),
    }
}
