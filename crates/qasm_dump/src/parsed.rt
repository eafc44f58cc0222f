ghost use Rattle.std.specs.Prelude.{◌≤◌, length};
ghost use Rattle.qs_lexer.specs.Lexed.{longest_source};
ghost use Rattle.qasm_dump.specs.Output.{ParsedIs};
ghost use Rattle.qasm_dump.specs.Refusals.{MalformedHalt};

use crate::lexed::lexed;
use qs_parser::{ParseRefusal, parse};
use qs_tree::Source;
use qs_values::{Halt, List, Refusal};
use std::alloc::Global;

/// What tokens without a tree end a pass with: the code, the place, and the word for 113.
fn malformed_halt(alloc: Global, refusal: ParseRefusal) -> Halt
    ensures { MalformedHalt refusal result }
{
    let code = refusal.code();
    let span = refusal.span();
    let mut words = List::new(alloc);
    match refusal {
        ParseRefusal::Unsupported { word, .. } => match words.push(word) {
            Ok(()) => Halt::Refused(Refusal { code, span, words }),
            Err(_) => Halt::Memory,
        },
        ParseRefusal::NoStatement { .. }
        | ParseRefusal::TooDeep { .. }
        | ParseRefusal::VersionUnknown { .. } => Halt::Refused(Refusal { code, span, words }),
        ParseRefusal::Memory => Halt::Memory,
    }
}

/// The tree of a source, or the refusal of its first fault.
pub fn parsed(alloc: Global, source: &[u8]) -> Result<Source, Halt>
    requires { length source.now ≤ longest_source }
    ensures { ParsedIs source.now result }
{
    let tokens = match lexed(alloc, source) {
        Ok(tokens) => tokens,
        Err(halt) => return Err(halt),
    };
    match parse(alloc, tokens.as_slice()) {
        Ok(tree) => Ok(tree),
        Err(refusal) => Err(malformed_halt(alloc, refusal)),
    }
}
