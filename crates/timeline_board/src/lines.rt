ghost use Rattle.std.specs.Prelude.{◌≡◌, ℕ, ◌+◌, ◌<◌, ◌≤◌, ◌^◌, All, IsTrue, length, map};
ghost use Rattle.std.specs.List.{flat_map};
ghost use Rattle.qs_values.specs.Kind.{has_width};
ghost use Rattle.outside.specs.Text.{GoesOn};
ghost use Rattle.timeline_board.specs.Conditions.{HoldsValue, IsNamed};
ghost use Rattle.timeline_board.specs.Report.{bit_text, digits_from, end_line, ending_word as word_of_ending, entry_line, entry_word as word_of_entry, name_at, out_line, signed_text, value_text};

use controller_machine::{Ending, Played};
use outside::{Sink, TextBuffer};
use qs_machine::Machine;
use qs_values::{Kind, Out, Ty};

/// The line of an entry of the timeline.
pub fn put_entry<K: Sink>(page: &mut TextBuffer, sink: &mut K, machine: &Machine, played: &Played)
    requires { IsNamed machine.now played.now }
    ensures { GoesOn (K.state sink.old) page.old (K.state sink.new) page.new
        (entry_line machine.now played.now) }
{
    page.text(sink, entry_word(played.bit));
    page.number(sink, played.tick);
    page.text(sink, b" ");
    page.text(sink, port_name(machine, played.port).as_bytes());
    page.text(sink, b" ");
    page.text(sink, wave_name(machine, played.wave).as_bytes());
    page.text(sink, b" ");
    page.number(sink, played.phase as u64);
    page.text(sink, b" ");
    page.number(sink, played.hz);
    put_bit(page, sink, played.bit);
    page.text(sink, b"\n");
}

fn entry_word(bit: Option<u8>) -> &'static [u8]
    ensures { result.now ≡ word_of_entry bit }
{
    match bit {
        Some(_) => b"capture ",
        None => b"pulse ",
    }
}

/// The bit of a capture.
fn put_bit<K: Sink>(page: &mut TextBuffer, sink: &mut K, bit: Option<u8>)
    ensures { GoesOn (K.state sink.old) page.old (K.state sink.new) page.new (bit_text bit) }
{
    if let Some(bit) = bit {
        page.text(sink, b" ");
        page.number(sink, bit as u64);
    }
}

fn port_name(machine: &Machine, port: u8) -> &str
    requires { port < length machine.now.ports }
    ensures { result.now ≡ name_at (map (λ p. p.name) machine.now.ports) port }
{
    machine.ports.as_slice()[port as usize].name.as_str()
}

fn wave_name(machine: &Machine, wave: u16) -> &str
    requires { wave < length machine.now.waveforms }
    ensures { result.now ≡ name_at (map (λ w. w.name) machine.now.waveforms) wave }
{
    machine.waveforms.as_slice()[wave as usize].name.as_str()
}

/// The lines of outputs, whose values a store has.
pub fn put_outs<K: Sink>(page: &mut TextBuffer, sink: &mut K, store: &[u64], outs: &[Out])
    requires { All (λ o. HoldsValue store.now o.first o.ty.kind o.ty.width) outs.now }
    ensures { GoesOn (K.state sink.old) page.old (K.state sink.new) page.new
        (flat_map (out_line store.now) outs.now) }
{
    for out in outs {
        put_out(page, sink, store, out);
    }
}

/// The line of an output.
fn put_out<K: Sink>(page: &mut TextBuffer, sink: &mut K, store: &[u64], out: &Out)
    requires { HoldsValue store.now out.now.first out.now.ty.kind out.now.ty.width }
    ensures { GoesOn (K.state sink.old) page.old (K.state sink.new) page.new
        (out_line store.now out.now) }
{
    page.text(sink, b"out ");
    page.text(sink, out.name.as_str().as_bytes());
    page.text(sink, b" ");
    put_value(page, sink, store, out.first, out.ty);
    page.text(sink, b"\n");
}

/// The value of a type that stands in a store from this variable on.
fn put_value<K: Sink>(page: &mut TextBuffer, sink: &mut K, store: &[u64], first: u32, ty: Ty)
    requires { HoldsValue store.now first ty.kind ty.width }
    ensures { GoesOn (K.state sink.old) page.old (K.state sink.new) page.new
        (value_text store.now first ty.kind ty.width) }
{
    match ty.kind {
        Kind::Bits => put_bits(page, sink, store, first, ty.width),
        Kind::Int => put_signed(page, sink, ty.width, store[first as usize]),
        Kind::Bit | Kind::Bool | Kind::Uint | Kind::Angle => {
            page.number(sink, store[first as usize])
        }
    }
}

/// So many bits of a store from this one on, the last one first.
fn put_bits<K: Sink>(page: &mut TextBuffer, sink: &mut K, store: &[u64], first: u32, width: u8)
    requires { (i : ℕ) → i < width → first + i < length store.now }
    ensures { GoesOn (K.state sink.old) page.old (K.state sink.new) page.new
        (digits_from store.now first width) }
{
    for i in (0..width).rev() {
        page.number(sink, store[first as usize + i as usize]);
    }
}

/// A number of so many bits with its sign, from its value modulo 2^width.
fn put_signed<K: Sink>(page: &mut TextBuffer, sink: &mut K, width: u8, value: u64)
    requires some { 1 ≤ width }
    requires few { width ≤ 64 }
    requires within { value < 2 ^ width }
    ensures { GoesOn (K.state sink.old) page.old (K.state sink.new) page.new
        (signed_text width value) }
{
    let half = 1 << (width - 1);
    if value < half {
        page.number(sink, value);
        return;
    }
    page.text(sink, b"-");
    page.number(sink, half - (value - half));
}

/// The last line of a report.
pub fn put_end<K: Sink>(page: &mut TextBuffer, sink: &mut K, tick: u64, ending: Ending)
    ensures { GoesOn (K.state sink.old) page.old (K.state sink.new) page.new
        (end_line tick ending) }
{
    page.text(sink, b"end ");
    page.number(sink, tick);
    page.text(sink, b" ");
    page.text(sink, ending_word(ending));
    page.text(sink, b"\n");
}

fn ending_word(ending: Ending) -> &'static [u8]
    ensures { result.now ≡ word_of_ending ending }
{
    match ending {
        Ending::Going => b"",
        Ending::Done => b"done",
    }
}
