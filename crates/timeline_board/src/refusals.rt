ghost use Rattle.std.specs.Prelude.{IsSome};
ghost use Rattle.std.specs.List.{flat_map};
ghost use Rattle.outside.specs.Text.{GoesOn};
ghost use Rattle.timeline_board.specs.Conditions.{PutsRefusal};
ghost use Rattle.timeline_board.specs.Refused.{name_of, place_text, word_text};

use crate::names::name_of_code;
use outside::{PutFailed, Sink, TextBuffer};
use qs_values::{Name, Refusal, Span};

/// Writes the line of a refusal whose code has a name. `PutFailed` comes where the sink counted a
/// fault, and then a front of the line was put.
pub fn refused<K: Sink>(refusal: &Refusal, sink: &mut K) -> Result<(), PutFailed>
    requires { IsSome (name_of refusal.now.code) }
    ensures { PutsRefusal refusal.now (K.state sink.old) (K.state sink.new) result }
{
    let name = name_of_code(refusal.code).unwrap();
    let mut page = TextBuffer::new();
    page.text(sink, b"refused ");
    page.number(sink, refusal.code as u64);
    put_place(&mut page, sink, refusal.span);
    page.text(sink, b" ");
    page.text(sink, name.as_bytes());
    put_words(&mut page, sink, refusal.words.as_slice());
    page.text(sink, b"\n");
    page.finish(sink)
}

/// A line and a column, where there is a place.
fn put_place<K: Sink>(page: &mut TextBuffer, sink: &mut K, place: Option<Span>)
    ensures { GoesOn (K.state sink.old) page.old (K.state sink.new) page.new (place_text place) }
{
    let Some(span) = place else {
        return;
    };
    page.text(sink, b" ");
    page.number(sink, span.line as u64);
    page.text(sink, b":");
    page.number(sink, span.col as u64);
}

/// Words, each after a blank.
fn put_words<K: Sink>(page: &mut TextBuffer, sink: &mut K, words: &[Name])
    ensures { GoesOn (K.state sink.old) page.old (K.state sink.new) page.new
        (flat_map word_text words.now) }
{
    for word in words {
        page.text(sink, b" ");
        page.text(sink, word.as_str().as_bytes());
    }
}
