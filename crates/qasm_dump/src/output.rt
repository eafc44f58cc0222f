ghost use Rattle.std.specs.Prelude.{◌≤◌, length};
ghost use Rattle.outside.specs.Sink.{PutsText};
ghost use Rattle.qs_lexer.specs.Lexed.{longest_source};
ghost use Rattle.qasm_dump.specs.Output.{OutputIs, TreeTextIs, output_text};

use crate::lexed::lexed;
use crate::parsed::parsed;
use crate::tokens::put_tokens;
use crate::trees::tree_text;
use outside::{PutFailed, Sink, TextBuffer};
use qs_lexer::Token;
use qs_values::{Halt, List};
use std::alloc::Global;

/// A pass of the compiler, by the word that asks for it.
#[derive(Clone, Copy, Debug, PartialEq, Eq)]
pub enum Pass {
    /// The lexer, which cuts a source into tokens.
    Tokens,
    /// The parser, which reads tokens to a tree.
    Tree,
}

/// What a pass makes of a source.
#[derive(Debug, Drop)]
pub enum Output {
    /// The tokens, in the order of the text.
    Tokens(List<Token>),
    /// The text of the tree.
    Tree(List<u8>),
}

/// The text of a source's tree.
fn tree_of(alloc: Global, source: &[u8]) -> Result<List<u8>, Halt>
    requires { length source.now ≤ longest_source }
    ensures { TreeTextIs source.now result }
{
    match parsed(alloc, source) {
        Ok(tree) => match tree_text(alloc, &tree) {
            Ok(text) => Ok(List::from_vec(text)),
            Err(_) => Err(Halt::Memory),
        },
        Err(halt) => Err(halt),
    }
}

/// What a pass makes of a source of at most 1,048,576 bytes.
///
/// # Errors
/// `Refused` with the pass's own refusal, or with that of a pass before it; `Memory` where memory
/// ran out.
pub fn output_of(alloc: Global, pass: Pass, source: &[u8]) -> Result<Output, Halt>
    requires { length source.now ≤ longest_source }
    ensures { OutputIs pass source.now result }
{
    match pass {
        Pass::Tokens => match lexed(alloc, source) {
            Ok(tokens) => Ok(Output::Tokens(tokens)),
            Err(halt) => Err(halt),
        },
        Pass::Tree => match tree_of(alloc, source) {
            Ok(text) => Ok(Output::Tree(text)),
            Err(halt) => Err(halt),
        },
    }
}

/// Writes a text.
fn put_text<K: Sink>(sink: &mut K, text: &[u8]) -> Result<(), PutFailed>
    ensures { PutsText (K.state sink.old) (K.state sink.new) text.now result }
{
    let mut page = TextBuffer::new();
    page.text(sink, text);
    page.finish(sink)
}

/// Writes the text of what a pass made.
pub fn put_output<K: Sink>(sink: &mut K, output: &Output) -> Result<(), PutFailed>
    ensures { PutsText (K.state sink.old) (K.state sink.new) (output_text output.now) result }
{
    match output {
        Output::Tokens(tokens) => put_tokens(sink, tokens.as_slice()),
        Output::Tree(text) => put_text(sink, text.as_slice()),
    }
}
