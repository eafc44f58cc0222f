ghost use Rattle.std.specs.Prelude.{◌≡◌};
ghost use Rattle.std.specs.Fmt.{signed_decimal};
ghost use Rattle.std.specs.List.{flat_map};
ghost use Rattle.outside.specs.Sink.{PutsText};
ghost use Rattle.outside.specs.Text.{GoesOn};
ghost use Rattle.qasm_dump.specs.Tokens.{frac_text, kind_text, span_text};
ghost use Rattle.qasm_dump.specs.Tokens.{token_line, tokens_text, unit_text};

use itoa::Buffer;
use outside::{PutFailed, Sink, TextBuffer};
use qs_lexer::{Token, TokenKind, Unit};
use qs_values::{Frac, Span};

/// A line and a column.
fn put_span<K: Sink>(page: &mut TextBuffer, sink: &mut K, span: Span)
    ensures { GoesOn (K.state sink.old) page.old (K.state sink.new) page.new (span_text span) }
{
    page.number(sink, span.line as u64);
    page.text(sink, b":");
    page.number(sink, span.col as u64);
}

/// A whole number in decimal digits, with a minus where it is below 0.
fn put_int<K: Sink>(page: &mut TextBuffer, sink: &mut K, number: i128)
    ensures { GoesOn (K.state sink.old) page.old (K.state sink.new) page.new
        (signed_decimal number) }
{
    let mut digits = Buffer::new();
    page.text(sink, digits.format(number).as_bytes());
}

/// A fraction by its two parts.
fn put_frac<K: Sink>(page: &mut TextBuffer, sink: &mut K, value: Frac)
    ensures { GoesOn (K.state sink.old) page.old (K.state sink.new) page.new (frac_text value) }
{
    put_int(page, sink, value.num());
    page.text(sink, b"/");
    put_int(page, sink, value.den());
}

/// The letters of a unit.
pub fn unit_text(unit: Unit) -> &'static [u8]
    ensures { result.now ≡ unit_text unit }
{
    match unit {
        Unit::Dt => b"dt",
        Unit::Ns => b"ns",
        Unit::Us => b"us",
        Unit::Ms => b"ms",
        Unit::S => b"s",
    }
}

/// The word of a kind, and its value where it has one.
fn put_kind<K: Sink>(page: &mut TextBuffer, sink: &mut K, kind: TokenKind)
    ensures { GoesOn (K.state sink.old) page.old (K.state sink.new) page.new (kind_text kind) }
{
    match kind {
        TokenKind::Word => page.text(sink, b"word"),
        TokenKind::Physical(number) => {
            page.text(sink, b"physical ");
            page.number(sink, number as u64);
        }
        TokenKind::Whole(number) => {
            page.text(sink, b"whole ");
            page.number(sink, number);
        }
        TokenKind::Decimal(value) => {
            page.text(sink, b"decimal ");
            put_frac(page, sink, value);
        }
        TokenKind::Time(value, unit) => {
            page.text(sink, b"time ");
            put_frac(page, sink, value);
            page.text(sink, b" ");
            page.text(sink, unit_text(unit));
        }
        TokenKind::Text => page.text(sink, b"text"),
        TokenKind::Sign => page.text(sink, b"sign"),
    }
}

/// The line of a token.
fn put_token<K: Sink>(page: &mut TextBuffer, sink: &mut K, token: &Token)
    ensures { GoesOn (K.state sink.old) page.old (K.state sink.new) page.new
        (token_line token.now) }
{
    put_span(page, sink, token.span);
    page.text(sink, b" ");
    put_kind(page, sink, token.kind);
    page.text(sink, b" ");
    page.text(sink, token.text.as_str().as_bytes());
    page.text(sink, b"\n");
}

/// Writes tokens, a line each. `PutFailed` comes where the sink counted a fault, and then a front of
/// the lines was put.
pub fn put_tokens<K: Sink>(sink: &mut K, tokens: &[Token]) -> Result<(), PutFailed>
    ensures { PutsText (K.state sink.old) (K.state sink.new) (tokens_text tokens.now) result }
{
    let mut page = TextBuffer::new();
    for token in tokens {
        put_token(&mut page, sink, token);
    }
    page.finish(sink)
}
