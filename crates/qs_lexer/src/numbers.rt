ghost use Rattle.std.specs.Prelude.{◌≡◌, false, true, IfSome};
ghost use Rattle.std.specs.Bool.{OnTrue};
ghost use Rattle.qs_lexer.specs.declared.state.Base.TheVariants.{Hexadecimal};
ghost use Rattle.qs_lexer.specs.declared.state.State.TheVariants.{Based, Digits, Ended, Exponent, Half, Letter, Part, Pointed, Signed, Zero};
ghost use Rattle.qs_lexer.specs.steps.Runs.{IsAsciiPiece, IsRead, ReadsTo};

use crate::ascii::{piece_before, read_on};
use crate::shape::Shape;
use crate::state::{Base, State};
use crate::token::Unit;

/// A piece of which so much is read that it is in a state, read on: the next state, the bytes after
/// it, and whether no line feed was read. `Nothing` where nothing goes on with it.
#[inline(always)]
fn read_to<'a>(
    first: bool,
    bytes: &[u8],
    state: State,
    in_line: bool,
    rest: &'a [u8],
) -> Option<(State, &'a [u8], bool)>
    requires { IsRead first bytes.now state in_line rest.now }
    ensures { IfSome result (λ p. ReadsTo first bytes.now state in_line p.0 p.1.now p.2) }
{
    let (next, after, is_in_line) = read_on(state, rest)?;
    Some((next, after, in_line & is_in_line))
}

/// After the digits of the exponent: the number's end.
#[inline(always)]
fn from_exponent(
    first: bool,
    bytes: &[u8],
    in_line: bool,
    rest: &[u8],
) -> Option<(Shape, usize, bool)>
    requires { IsRead first bytes.now (Exponent true) in_line rest.now }
    ensures { IfSome result (λ p. IsAsciiPiece first bytes.now p.0 p.1 p.2) }
{
    let (next, after, line) = read_to(first, bytes, State::Exponent(true), in_line, rest)?;
    match next {
        State::Nothing => piece_before(State::Exponent(true), bytes, after, in_line),
        _ => None,
    }
}

/// After the sign of the exponent: its digits.
#[inline(always)]
fn from_signed(
    first: bool,
    bytes: &[u8],
    in_line: bool,
    rest: &[u8],
) -> Option<(Shape, usize, bool)>
    requires { IsRead first bytes.now Signed in_line rest.now }
    ensures { IfSome result (λ p. IsAsciiPiece first bytes.now p.0 p.1 p.2) }
{
    let (next, after, line) = read_to(first, bytes, State::Signed, in_line, rest)?;
    match next {
        State::Exponent(true) => from_exponent(first, bytes, line, after),
        _ => None,
    }
}

/// After the letter of the exponent: its sign or its digits.
#[inline(always)]
fn from_letter(
    first: bool,
    bytes: &[u8],
    in_line: bool,
    rest: &[u8],
) -> Option<(Shape, usize, bool)>
    requires { IsRead first bytes.now Letter in_line rest.now }
    ensures { IfSome result (λ p. IsAsciiPiece first bytes.now p.0 p.1 p.2) }
{
    let (next, after, line) = read_to(first, bytes, State::Letter, in_line, rest)?;
    match next {
        State::Signed => from_signed(first, bytes, line, after),
        State::Exponent(true) => from_exponent(first, bytes, line, after),
        _ => None,
    }
}

/// After the unit: the number's end.
#[inline(always)]
fn from_unit(
    first: bool,
    bytes: &[u8],
    unit: Unit,
    in_line: bool,
    rest: &[u8],
) -> Option<(Shape, usize, bool)>
    requires { IsRead first bytes.now (Ended unit) in_line rest.now }
    ensures { IfSome result (λ p. IsAsciiPiece first bytes.now p.0 p.1 p.2) }
{
    let (next, after, line) = read_to(first, bytes, State::Ended(unit), in_line, rest)?;
    match next {
        State::Nothing => piece_before(State::Ended(unit), bytes, after, in_line),
        _ => None,
    }
}

/// After the first letter of a unit: its second one.
#[inline(always)]
fn from_half(
    first: bool,
    bytes: &[u8],
    unit: Unit,
    in_line: bool,
    rest: &[u8],
) -> Option<(Shape, usize, bool)>
    requires { IsRead first bytes.now (Half unit) in_line rest.now }
    ensures { IfSome result (λ p. IsAsciiPiece first bytes.now p.0 p.1 p.2) }
{
    let (next, after, line) = read_to(first, bytes, State::Half(unit), in_line, rest)?;
    match next {
        State::Ended(whole) => from_unit(first, bytes, whole, line, after),
        _ => None,
    }
}

/// After the digits that follow the point: the number's end, an exponent or a unit.
#[inline(always)]
fn from_part(first: bool, bytes: &[u8], in_line: bool, rest: &[u8]) -> Option<(Shape, usize, bool)>
    requires { IsRead first bytes.now (Part true) in_line rest.now }
    ensures { IfSome result (λ p. IsAsciiPiece first bytes.now p.0 p.1 p.2) }
{
    let (next, after, line) = read_to(first, bytes, State::Part(true), in_line, rest)?;
    match next {
        State::Nothing => piece_before(State::Part(true), bytes, after, in_line),
        State::Letter => from_letter(first, bytes, line, after),
        State::Half(unit) => from_half(first, bytes, unit, line, after),
        _ => None,
    }
}

/// After the point: the number's end, or digits.
#[inline(always)]
fn from_pointed(
    first: bool,
    bytes: &[u8],
    in_line: bool,
    rest: &[u8],
) -> Option<(Shape, usize, bool)>
    requires { IsRead first bytes.now Pointed in_line rest.now }
    ensures { IfSome result (λ p. IsAsciiPiece first bytes.now p.0 p.1 p.2) }
{
    let (next, after, line) = read_to(first, bytes, State::Pointed, in_line, rest)?;
    match next {
        State::Nothing => piece_before(State::Pointed, bytes, after, in_line),
        State::Part(true) => from_part(first, bytes, line, after),
        _ => None,
    }
}

/// Whether a number to base 16 ends in a digit in this state.
#[inline(always)]
fn ends_in_digit(state: State) -> bool
    ensures { OnTrue result (state ≡ Based Hexadecimal true) }
{
    matches!(state, State::Based(Base::Hexadecimal, true))
}

/// Whether a number to base 16 ends in `_` in this state.
#[inline(always)]
fn ends_in_line(state: State) -> bool
    ensures { OnTrue result (state ≡ Based Hexadecimal false) }
{
    matches!(state, State::Based(Base::Hexadecimal, false))
}

/// After `0x`: hexadecimal digits in groups, with `_` between them, and the number's end.
#[inline(always)]
fn from_hexadecimal(
    first: bool,
    bytes: &[u8],
    in_line: bool,
    rest: &[u8],
) -> Option<(Shape, usize, bool)>
    requires { IsRead first bytes.now (Based Hexadecimal false) in_line rest.now }
    ensures { IfSome result (λ p. IsAsciiPiece first bytes.now p.0 p.1 p.2) }
{
    let mut line = in_line;
    let mut ahead = rest;
    'groups: loop {
        let (digit, digits, digit_line) = read_on(State::Based(Base::Hexadecimal, false), ahead)?;
        if !ends_in_digit(digit) {
            return None;
        }
        let (next, after, next_line) = read_on(State::Based(Base::Hexadecimal, true), digits)?;
        let to_digit = line & digit_line;
        if let State::Nothing = next {
            return piece_before(
                State::Based(Base::Hexadecimal, true),
                bytes,
                after,
                to_digit,
            );
        }
        if !ends_in_line(next) {
            return None;
        }
        line = to_digit & next_line;
        ahead = after;
    }
}

/// After `0`: the number's end, a point, a unit, or `x` and hexadecimal digits.
#[inline(always)]
fn from_zero(first: bool, bytes: &[u8], in_line: bool, rest: &[u8]) -> Option<(Shape, usize, bool)>
    requires { IsRead first bytes.now Zero in_line rest.now }
    ensures { IfSome result (λ p. IsAsciiPiece first bytes.now p.0 p.1 p.2) }
{
    let (next, after, line) = read_to(first, bytes, State::Zero, in_line, rest)?;
    match next {
        State::Nothing => piece_before(State::Zero, bytes, after, in_line),
        State::Pointed => from_pointed(first, bytes, line, after),
        State::Half(unit) => from_half(first, bytes, unit, line, after),
        State::Based(Base::Hexadecimal, false) => from_hexadecimal(first, bytes, line, after),
        _ => None,
    }
}

/// After the digits: the number's end, a point or a unit.
#[inline(always)]
fn from_digits(
    first: bool,
    bytes: &[u8],
    in_line: bool,
    rest: &[u8],
) -> Option<(Shape, usize, bool)>
    requires { IsRead first bytes.now (Digits true) in_line rest.now }
    ensures { IfSome result (λ p. IsAsciiPiece first bytes.now p.0 p.1 p.2) }
{
    let (next, after, line) = read_to(first, bytes, State::Digits(true), in_line, rest)?;
    match next {
        State::Nothing => piece_before(State::Digits(true), bytes, after, in_line),
        State::Pointed => from_pointed(first, bytes, line, after),
        State::Half(unit) => from_half(first, bytes, unit, line, after),
        _ => None,
    }
}

/// A number in the forms that are met often: a whole one, decimal or hexadecimal, or one with a
/// point, an exponent or a unit. `None` of another form, and before a character that isn't of ASCII.
#[inline(always)]
pub fn number(first: bool, bytes: &[u8]) -> Option<(Shape, usize, bool)>
    ensures { IfSome result (λ p. IsAsciiPiece first bytes.now p.0 p.1 p.2) }
{
    let byte = bytes.first()?;
    if !byte.is_ascii_digit() {
        return None;
    }
    let (next, after, line) = read_to(first, bytes, State::Start(first), true, bytes)?;
    match next {
        State::Zero => from_zero(first, bytes, line, after),
        State::Digits(true) => from_digits(first, bytes, line, after),
        _ => None,
    }
}
