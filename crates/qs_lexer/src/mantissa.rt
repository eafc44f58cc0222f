ghost use Rattle.std.specs.Prelude.{◌≡◌, ◌+◌, ◌-◌, ◌<◌, ◌≤◌, ◌^◌, length, IfSome};
ghost use Rattle.std.specs.Bool.{OnTrue};
ghost use Rattle.qs_lexer.specs.Values.{is_mantissa, with_digit};
ghost use Rattle.qs_lexer.specs.steps.Mantissas.{EndsMantissa, GoesOn, IsMantissa, ReadsPart, ReadsSide, places_with};

use crate::digits::with_digit;

/// What a number times 10^17 stays below, where it may be within its limit.
pub const CAP: u128 = 1_000_000_000_000_000_000_000_000_000_000_000_000;

/// Whether a character stands before a number's exponent and unit.
pub fn is_mantissa(c: char) -> bool
    ensures { result ≡ is_mantissa c }
{
    c.is_ascii_digit() || c == '_' || c == '.'
}

/// How many digits stand after the point, with one more character of a mantissa.
#[inline(always)]
fn places_with(pointed: bool, places: usize, c: char) -> usize
    requires { places + 1 < 2 ^ 64 }
    ensures { result ≡ places_with pointed places c }
{
    if pointed && c.is_ascii_digit() {
        places + 1
    } else {
        places
    }
}

/// A number below 10^18 with one more decimal digit; other characters add none.
#[inline(always)]
fn short_with_digit(n: u64, c: char) -> u64
    requires { n < 10 ^ 18 }
    ensures { result ≡ with_digit 10 n c }
{
    match c.to_digit(10) {
        Some(digit) => n * 10 + digit as u64,
        None => n,
    }
}

/// Whether a byte that is no digit goes on with a mantissa on the same side of its point.
#[inline(always)]
fn goes_on(pointed: bool, byte: u8) -> bool
    ensures { OnTrue result (GoesOn pointed byte) }
{
    byte == b'_' || pointed && byte == b'.'
}

/// A mantissa of at most 18 bytes, read on from a number and so many digits after the point, on one
/// side of the point: the number, the digits after the point, and what follows.
#[inline(always)]
fn read_side(pointed: bool, bytes: &[u8], before: u64, count: usize) -> (u64, usize, &[u8])
    requires few { count + length bytes.now ≤ 18 }
    requires small { before < 10 ^ (18 - length bytes.now) }
    ensures { ReadsSide pointed bytes.now before count result.0 result.1 result.2.now }
{
    let mut value = before;
    let mut places = count;
    let mut rest = bytes;
    while let Some((byte, after)) = rest.split_first() {
        let byte = *byte;
        if byte.is_ascii_digit() {
            value = short_with_digit(value, byte as char);
            places = places_with(pointed, places, byte as char);
        } else if !goes_on(pointed, byte) {
            return (value, places, rest);
        }
        rest = after;
    }
    (value, places, rest)
}

/// The same from the point on, if it comes next.
#[inline(always)]
fn read_part(bytes: &[u8], before: u64, count: usize) -> (u64, usize, &[u8])
    requires few { count + length bytes.now ≤ 18 }
    requires small { before < 10 ^ (18 - length bytes.now) }
    ensures { ReadsPart bytes.now before count result.0 result.1 result.2.now }
{
    let Some((byte, after)) = bytes.split_first() else {
        return (before, count, bytes);
    };
    if *byte != b'.' {
        return (before, count, bytes);
    }
    read_side(true, after, before, count)
}

/// Whether a mantissa doesn't go on with these bytes, as far as bytes of ASCII say.
#[inline(always)]
fn ends_mantissa(rest: &[u8]) -> bool
    ensures { OnTrue result (EndsMantissa rest.now) }
{
    let Some((byte, _)) = rest.split_first() else {
        return true;
    };
    *byte < 128 && !is_mantissa(*byte as char)
}

/// A mantissa in a text of at most 18 bytes; `None` before a character that isn't of ASCII.
#[inline(always)]
fn short_mantissa(text: &str) -> Option<(u128, usize, &str)>
    requires { length text.now ≤ 18 }
    ensures { IfSome result (λ p. IsMantissa text.now p.0 p.1 p.2.now) }
{
    let (whole, count, point) = read_side(false, text.as_bytes(), 0, 0);
    let (value, places, rest) = read_part(point, whole, count);
    if !ends_mantissa(rest) {
        return None;
    }
    let (_, left) = text.split_at(text.len() - rest.len());
    Some((value as u128, places, left))
}

/// A mantissa in a text of any length, character by character.
fn long_mantissa(text: &str) -> (u128, usize, &str)
    ensures { IsMantissa text.now result.0 result.1 result.2.now }
{
    let _count = text.len();
    let mut value = 0;
    let mut places = 0;
    let mut pointed = false;
    let mut ahead = text.chars();
    let mut rest = text;
    while let Some(c) = ahead.next() {
        if !is_mantissa(c) {
            return (value, places, rest);
        }
        value = with_digit(CAP, 10, value, c);
        places = places_with(pointed, places, c);
        pointed = pointed | (c == '.');
        rest = ahead.as_str();
    }
    (value, places, rest)
}

/// A mantissa: its digits as a number, cut to `CAP`, how many of them stand after the point, and
/// what follows it.
#[inline(always)]
pub fn read_mantissa(text: &str) -> (u128, usize, &str)
    ensures { IsMantissa text.now result.0 result.1 result.2.now }
{
    if text.len() <= 18 {
        if let Some(found) = short_mantissa(text) {
            return found;
        }
    }
    long_mantissa(text)
}
