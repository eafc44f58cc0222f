ghost use Rattle.std.specs.Prelude.{◌≡◌};
ghost use Rattle.qs_parser.specs.Language.{ParseIs};

use crate::refusal::ParseRefusal;
use crate::sources::{refusal_of, statements_at, version_at};
use qs_lexer::Token;
use qs_tree::Source;
use std::alloc::Global;

/// Reads a whole source (OpenQASM 3.0, program): its only tree, or why it has none.
pub fn parse(alloc: Global, tokens: &[Token]) -> Result<Source, ParseRefusal>
    ensures { ParseIs tokens.now result }
{
    let (version, at) = version_at(alloc, tokens)?;
    let (body, at) = statements_at(alloc, tokens, at)?;
    match tokens.get(at) {
        None => Ok(Source { version, body }),
        Some(token) => Err(refusal_of(alloc, tokens, token, at)?),
    }
}
