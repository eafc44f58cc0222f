ghost use Rattle.std.specs.Prelude.{◌≡◌, ◌+◌, ◌≤◌, ◌++◌, [], List, ℕ, false, length, take, decimal};
ghost use Rattle.outside.specs.Sink.{PutsText, SinkState};
ghost use Rattle.outside.specs.Text.{GoesOn, IsAt, PutsUnless, room_bytes};

use crate::sink::{PutFailed, Sink};
use itoa::Buffer;
use std::marker::Model;

/// How many bytes wait at most.
const ROOM_BYTES: usize = 65_536;

/// Puts a whole text.
fn put_all<K: Sink>(sink: &mut K, text: &[u8]) -> Result<(), PutFailed>
    ensures { PutsText (K.state sink.old) (K.state sink.new) text.now result }
{
    let mut rest = text;
    while !rest.is_empty() {
        match sink.put(rest) {
            Ok(count) => rest = rest.split_at(count).1,
            Err(failed) => return Err(failed),
        }
    }
    Ok(())
}

/// Puts a text where no fault came before, and answers whether one came by now.
fn put_unless<K: Sink>(failed: bool, sink: &mut K, text: &[u8]) -> bool
    ensures { PutsUnless failed (K.state sink.old) (K.state sink.new) text.now result }
{
    if failed {
        return true;
    }
    match put_all(sink, text) {
        Ok(()) => false,
        Err(_) => true,
    }
}

/// A text on its way to a sink. Its last bytes wait, so that they're put together; after a fault of
/// the sink nothing more is put.
#[derive(Drop)]
pub struct TextBuffer {
    held: [u8; ROOM_BYTES],
    len: usize,
    failed: bool,
}

impl Model for TextBuffer {
    ghost use Rattle.std.specs.Prelude.{◌≤◌, take};
    ghost use Rattle.outside.specs.Text.{Waiting, room_bytes};

    ghost Value = { Waiting };

    ghost view = { λ t. record { bytes = take t.len t.held; failed = t.failed } };

    ghost invariant = { λ t. t.len ≤ room_bytes };
}

impl TextBuffer {
    /// The beginning of a text.
    pub fn new() -> TextBuffer
        ensures { result ≡ record { bytes = []; failed = false } }
    {
        TextBuffer {
            held: [0; ROOM_BYTES],
            len: 0,
            failed: false,
        }
    }

    /// Goes on with these bytes. A fault of the sink is told by `finish`.
    pub fn text<K: Sink>(&mut self, sink: &mut K, text: &[u8])
        ensures { GoesOn (K.state sink.old) self.old (K.state sink.new) self.new text.now }
    {
        if text.len() <= ROOM_BYTES - self.len {
            self.wait(text);
            return;
        }
        self.put_waiting(sink);
        if text.len() <= ROOM_BYTES {
            self.wait(text);
        } else {
            self.failed = put_unless(self.failed, sink, text);
        }
    }

    /// Goes on with a number in decimal digits, as `text` does.
    pub fn number<K: Sink>(&mut self, sink: &mut K, number: u64)
        ensures { GoesOn (K.state sink.old) self.old (K.state sink.new) self.new (decimal number) }
    {
        let mut digits = Buffer::new();
        self.text(sink, digits.format(number).as_bytes());
    }

    /// Ends the text: puts what waits, and tells whether all was put. `PutFailed` comes where the
    /// sink counted a fault since the beginning of the text, and then a front of the text was put.
    pub fn finish<K: Sink>(self, sink: &mut K) -> Result<(), PutFailed>
        ensures { (start : SinkState) (text : List ℕ) → IsAt start (K.state sink.old) self text
            → PutsText start (K.state sink.new) text result }
    {
        let mut all = self;
        all.put_waiting(sink);
        if all.failed { Err(PutFailed) } else { Ok(()) }
    }
}

impl TextBuffer {
    /// Lets these bytes wait, for which there is room.
    fn wait(&mut self, text: &[u8])
        requires { length self.old.bytes + length text.now ≤ room_bytes }
        ensures { self.new
            ≡ record { bytes = self.old.bytes ++ text.now; failed = self.old.failed } }
    {
        keep(&mut self.held, self.len, text);
        self.len += text.len();
    }

    /// Puts what waits, where no fault came before.
    fn put_waiting<K: Sink>(&mut self, sink: &mut K)
        ensures same { (start : SinkState) (text : List ℕ)
            → IsAt start (K.state sink.old) self.old text
            → IsAt start (K.state sink.new) self.new text }
        ensures none { self.new.bytes ≡ [] }
    {
        let waiting = &self.held[..self.len];
        self.failed = put_unless(self.failed, sink, waiting);
        self.len = 0;
    }
}

/// Copies a text to this place of the buffer.
fn keep(held: &mut [u8; ROOM_BYTES], place: usize, text: &[u8])
    requires { place + length text.now ≤ room_bytes }
    ensures { take (place + length text.now) held.new ≡ take place held.old ++ text.now }
{
    held[place..place + text.len()].copy_from_slice(text);
}
