ghost use Rattle.std.specs.Prelude.{◌≡◌, ◌⊎◌, ◌≤◌, ◌++◌, IfOk, IsSome, List, ℕ, length};
ghost use Rattle.std.specs.Prelude.{map, string_bytes};
ghost use Rattle.outside.specs.Sink.{PutsText, SinkState};
ghost use Rattle.timeline_board.specs.Refused.{name_of};
ghost use Rattle.qs_lexer.specs.Lexed.{longest_source};
ghost use Rattle.qasm_dump.specs.Refusals.{refusal_text, too_long};
ghost use Rattle.qasm_dump.specs.Answer.{Answers, AnswersFile, AnswersSource};
ghost use Rattle.qasm_dump.specs.Answer.{Finishes, WantsMemory, told};

use crate::output::{Output, Pass, output_of, put_output};
use crate::words::call_of;
use outside::{PutFailed, Shelf, Sink, TakeFault, Taken, TextBuffer};
use qs_values::{Halt, List, Memory, Name, Refusal};
use std::alloc::Global;
use timeline_board::refused;

/// The code of a file that is too long.
const FILE_TOO_LONG: u16 = 10;

/// The most bytes of a file.
pub const LONGEST_FILE: u32 = 1_048_576;

const USAGE: &[u8] = b"usage: tokens F | tree F\n";

/// The status of a text that was put, which a fault of the sink replaces.
fn status_of(written: Result<(), PutFailed>, status: u8) -> u8
    ensures { (old new : SinkState) (text : List ℕ)
        → PutsText old new text written → Finishes old new (told status text) result }
{
    match written {
        Ok(()) => status,
        Err(_) => 5,
    }
}

/// Tells a text of three pieces.
fn tell<K: Sink>(sink: &mut K, first: &[u8], second: &[u8], third: &[u8], status: u8) -> u8
    ensures { Finishes (K.state sink.old) (K.state sink.new)
        (told status (first.now ++ second.now ++ third.now)) result }
{
    let mut page = TextBuffer::new();
    page.text(sink, first);
    page.text(sink, second);
    page.text(sink, third);
    let written = page.finish(sink);
    status_of(written, status)
}

/// Tells a refusal.
fn tell_refusal<K: Sink>(sink: &mut K, refusal: &Refusal, status: u8) -> u8
    requires { IsSome (name_of refusal.now.code) }
    ensures { Finishes (K.state sink.old) (K.state sink.new)
        (told status (refusal_text refusal.now)) result }
{
    let written = refused(refusal, sink);
    status_of(written, status)
}

/// The refusal of a file that is too long.
fn too_long(alloc: Global, name: &str) -> Result<Refusal, Memory>
    ensures { IfOk result (λ refusal. refusal ≡ too_long name.now) }
{
    let mut words = List::new(alloc);
    words.push(Name::copy_of(alloc, name)?)?;
    Ok(Refusal {
        code: FILE_TOO_LONG,
        span: None,
        words,
    })
}

/// Tells that a file is too long.
fn answer_longer<K: Sink>(alloc: Global, name: &str, sink: &mut K) -> u8
    ensures { WantsMemory (K.state sink.old) (K.state sink.new) result
        ⊎ Finishes (K.state sink.old) (K.state sink.new)
        (told 3 (refusal_text (too_long name.now))) result }
{
    match too_long(alloc, name) {
        Ok(refusal) => tell_refusal(sink, &refusal, 3),
        Err(_) => 7,
    }
}

/// Tells what a pass makes of a source, or its refusal.
fn answer_source<K: Sink>(alloc: Global, pass: Pass, source: &[u8], sink: &mut K) -> u8
    requires { length source.now ≤ longest_source }
    ensures { WantsMemory (K.state sink.old) (K.state sink.new) result
        ⊎ AnswersSource pass source.now (K.state sink.old) (K.state sink.new) result }
{
    match output_of(alloc, pass, source) {
        Ok(output) => {
            let written = put_output(sink, &output);
            status_of(written, 0)
        }
        Err(Halt::Refused(refusal)) => tell_refusal(sink, &refusal, 1),
        Err(Halt::Memory) => 7,
    }
}

/// Tells what a pass makes of a file.
fn answer_file<H: Shelf, K: Sink>(
    alloc: Global,
    pass: Pass,
    name: &str,
    shelf: &mut H,
    sink: &mut K,
    longest: u32,
) -> u8
    requires { longest ≤ longest_source }
    ensures { AnswersFile longest pass name.now (H.state shelf.old) (H.state shelf.new)
        (K.state sink.old) (K.state sink.new) result }
{
    match shelf.take(alloc, name, longest) {
        Err(TakeFault::Failed) => tell(sink, b"read failed ", name.as_bytes(), b"\n", 4),
        Err(TakeFault::Memory) => 7,
        Ok(Taken::Longer) => answer_longer(alloc, name, sink),
        Ok(Taken::Whole(bytes)) => answer_source(alloc, pass, bytes.as_slice(), sink),
    }
}

/// Writes what the pass that the words name makes of their file, which is on a shelf, into a sink.
///
/// The status is 0 where that was written, 1 where the source is refused, 2 where the words are no
/// call, 3 where the file is too long, 4 where it couldn't be read, 5 where the sink had a fault, and
/// 7 where memory ran out before anything was written.
pub fn dump<H: Shelf, K: Sink>(alloc: Global, words: &[String], shelf: &mut H, sink: &mut K) -> u8
    ensures { Answers longest_source (map string_bytes words.now)
        (H.state shelf.old) (H.state shelf.new) (K.state sink.old) (K.state sink.new) result }
{
    match call_of(words) {
        Some((pass, name)) => answer_file(alloc, pass, name, shelf, sink, LONGEST_FILE),
        None => tell(sink, USAGE, b"", b"", 2),
    }
}
