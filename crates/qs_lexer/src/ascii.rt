ghost use Rattle.std.specs.Prelude.{◌≡◌, ◌≤◌, Bool, true, IfSome, IsTrue, length, slice_get};
ghost use Rattle.std.specs.Bool.{OnTrue};
ghost use Rattle.qs_lexer.specs.declared.state.State.TheVariants.{Line as LineState, Word as WordState};
ghost use Rattle.qs_lexer.specs.Forms.{is_blank};
ghost use Rattle.qs_lexer.specs.steps.Runs.{BeginsOnlyWord, IsPast, IsRead, IsAsciiPiece, MayEnd, ReadsOn, StaysWith, is_single_sign};

use crate::shape::Shape;
use crate::state::{Base, State, shape_before, step};

/// Whether a piece stays in a state with a byte that is of ASCII and no line feed. It may do so
/// with others too, which are read one by one.
#[inline(always)]
fn stays_with(state: State, byte: u8) -> bool
    ensures { OnTrue result (StaysWith state byte) }
{
    match state {
        State::Word => byte.is_ascii_alphanumeric() || byte == b'_',
        State::Line => byte < 128 && byte != b'\n',
        State::Comment(false) => byte < 128 && byte != b'\n' && byte != b'*',
        State::Quote => byte < 128 && byte != b'\n' && byte != b'"',
        State::Physical | State::Digits(true) | State::Part(true) | State::Exponent(true) =>
            byte.is_ascii_digit(),
        State::Based(Base::Hexadecimal, true) => byte.is_ascii_hexdigit(),
        _ => false,
    }
}

/// The bytes after those with which a piece stays in a state, one after another.
#[inline(always)]
fn past_each(state: State, bytes: &[u8]) -> &[u8]
    ensures { IsPast state bytes.now result.now }
{
    let mut rest = bytes;
    while let Some((byte, after)) = rest.split_first() {
        if !stays_with(state, *byte) {
            return rest;
        }
        rest = after;
    }
    rest
}

/// Whether a piece stays a word with a byte, which holds of small letters, the most common ones.
#[inline(always)]
fn is_small_letter(byte: u8) -> bool
    ensures { OnTrue result (StaysWith WordState byte) }
{
    byte.is_ascii_lowercase()
}

/// The bytes after small letters, with which a piece stays a word.
#[inline(always)]
fn past_small_letters(bytes: &[u8]) -> &[u8]
    ensures { IsPast WordState bytes.now result.now }
{
    let mut rest = bytes;
    while let Some((byte, after)) = rest.split_first() {
        if !is_small_letter(*byte) {
            return rest;
        }
        rest = after;
    }
    rest
}

/// The bytes after those with which a piece stays a word.
#[inline(always)]
fn past_word(bytes: &[u8]) -> &[u8]
    ensures { IsPast WordState bytes.now result.now }
{
    let mut rest = past_small_letters(bytes);
    while let Some((byte, after)) = rest.split_first() {
        if !stays_with(State::Word, *byte) {
            return rest;
        }
        rest = past_small_letters(after);
    }
    rest
}

/// Whether a piece stays in its line with a byte, which holds of printed ones, the most common.
#[inline(always)]
fn is_printed(byte: u8) -> bool
    ensures { OnTrue result (StaysWith LineState byte) }
{
    b' ' <= byte && byte <= b'~'
}

/// The bytes after printed ones, with which a piece stays in its line, two a turn.
#[inline(always)]
fn past_printed(bytes: &[u8]) -> &[u8]
    ensures { IsPast LineState bytes.now result.now }
{
    let mut rest = bytes;
    while let Some((byte, after)) = rest.split_first() {
        if !is_printed(*byte) {
            return rest;
        }
        let Some((second, behind)) = after.split_first() else {
            return after;
        };
        if !is_printed(*second) {
            return after;
        }
        rest = behind;
    }
    rest
}

/// The bytes after those with which a piece stays in its line.
fn past_line(bytes: &[u8]) -> &[u8]
    ensures { IsPast LineState bytes.now result.now }
{
    let mut rest = past_printed(bytes);
    while let Some((byte, after)) = rest.split_first() {
        if !stays_with(State::Line, *byte) {
            return rest;
        }
        rest = past_printed(after);
    }
    rest
}

/// The bytes after those with which a piece stays in a state.
#[inline(always)]
fn past(state: State, bytes: &[u8]) -> &[u8]
    ensures { IsPast state bytes.now result.now }
{
    match state {
        State::Word => past_word(bytes),
        State::Line => past_line(bytes),
        _ => past_each(state, bytes),
    }
}

/// The first byte as a character.
fn first_char(bytes: &[u8]) -> Option<char>
    ensures { result ≡ slice_get bytes.now 0 }
{
    match bytes.first() {
        Some(byte) => Some(*byte as char),
        None => None,
    }
}

/// What a piece is after a run and one more byte that goes on with it, the bytes after that one, and
/// whether it is no line feed. Where none goes on, `Nothing` and the bytes after the run. `None`
/// before a character that isn't of ASCII.
#[inline(always)]
pub fn read_on(state: State, bytes: &[u8]) -> Option<(State, &[u8], bool)>
    ensures { IfSome result (λ p. ReadsOn state bytes.now p.0 p.1.now p.2) }
{
    let rest = past(state, bytes);
    let Some((byte, after)) = rest.split_first() else {
        return Some((State::Nothing, rest, true));
    };
    if *byte >= 128 {
        return None;
    }
    match step(state, *byte as char) {
        State::Nothing => Some((State::Nothing, rest, true)),
        next => Some((next, after, *byte != b'\n')),
    }
}

/// The same, with code of its own for each state that is read often.
#[inline(always)]
fn read_state(state: State, bytes: &[u8]) -> Option<(State, &[u8], bool)>
    ensures { IfSome result (λ p. ReadsOn state bytes.now p.0 p.1.now p.2) }
{
    match state {
        State::Start(first) => read_on(State::Start(first), bytes),
        State::Blank => read_on(State::Blank, bytes),
        State::Line => read_on(State::Line, bytes),
        State::Slash => read_on(State::Slash, bytes),
        State::Comment(false) => read_on(State::Comment(false), bytes),
        State::Word => read_on(State::Word, bytes),
        State::Dollar => read_on(State::Dollar, bytes),
        State::Physical => read_on(State::Physical, bytes),
        State::Quote => read_on(State::Quote, bytes),
        State::One(a) => read_on(State::One(a), bytes),
        State::Zero => read_on(State::Zero, bytes),
        State::Digits(true) => read_on(State::Digits(true), bytes),
        State::Based(Base::Hexadecimal, ended) => read_on(
            State::Based(Base::Hexadecimal, ended),
            bytes,
        ),
        State::Pointed => read_on(State::Pointed, bytes),
        State::Part(true) => read_on(State::Part(true), bytes),
        State::Letter => read_on(State::Letter, bytes),
        State::Signed => read_on(State::Signed, bytes),
        State::Exponent(true) => read_on(State::Exponent(true), bytes),
        State::Half(unit) => read_on(State::Half(unit), bytes),
        State::Ended(unit) => read_on(State::Ended(unit), bytes),
        _ => read_on(state, bytes),
    }
}

/// The piece of these bytes before `rest`, where one may end there.
pub fn piece_before(
    state: State,
    bytes: &[u8],
    rest: &[u8],
    in_line: bool,
) -> Option<(Shape, usize, bool)>
    requires { length rest.now ≤ length bytes.now }
    ensures { IfSome result (λ p. MayEnd state bytes.now rest.now p.0 p.1 × (p.2 ≡ in_line)) }
{
    let shape = shape_before(state, first_char(rest))?;
    Some((shape, bytes.len() - rest.len(), in_line))
}

/// Whether a character is a sign with which no longer sign begins.
fn is_single_sign(c: char) -> bool
    ensures { result ≡ is_single_sign c }
{
    matches!(c, '(' | ')' | '[' | ']' | '{' | '}' | ':' | ';' | ',' | '~')
}

/// Whether a character is a blank that isn't a line feed.
#[inline(always)]
fn is_spacing(c: char) -> bool
    ensures { OnTrue result (IsTrue (is_blank c)) }
{
    c == ' ' || c == '\t' || c == '\r'
}

/// Whether a character is a line feed, which is a blank too.
#[inline(always)]
fn is_line_feed(c: char) -> bool
    ensures { OnTrue result (IsTrue (is_blank c)) }
{
    c == '\n'
}

/// A blank that isn't a line feed, which is a piece whatever comes next: its shape, its length, and
/// whether it is no line feed.
#[inline(always)]
pub fn spacing(bytes: &[u8]) -> Option<(Shape, usize, bool)>
    ensures { (first : Bool) → IfSome result (λ p. IsAsciiPiece first bytes.now p.0 p.1 p.2) }
{
    let c = first_char(bytes)?;
    if is_spacing(c) {
        return Some((Shape::Gap, 1, c != '\n'));
    }
    None
}

/// A line feed, which is a piece whatever comes next.
#[inline(always)]
pub fn line_feed(bytes: &[u8]) -> Option<(Shape, usize, bool)>
    ensures { (first : Bool) → IfSome result (λ p. IsAsciiPiece first bytes.now p.0 p.1 p.2) }
{
    let c = first_char(bytes)?;
    if is_line_feed(c) {
        return Some((Shape::Gap, 1, c != '\n'));
    }
    None
}

/// A sign with which no longer sign begins, which is a piece whatever comes next.
#[inline(always)]
pub fn single_sign(bytes: &[u8]) -> Option<(Shape, usize, bool)>
    ensures { (first : Bool) → IfSome result (λ p. IsAsciiPiece first bytes.now p.0 p.1 p.2) }
{
    let c = first_char(bytes)?;
    if is_single_sign(c) {
        return Some((Shape::Sign, 1, c != '\n'));
    }
    None
}

/// Whether a byte is an ASCII letter or `_` that begins a word and no pragma.
#[inline(always)]
fn begins_only_word(first: bool, byte: u8) -> bool
    ensures { OnTrue result (BeginsOnlyWord first byte) }
{
    if first && byte == b'p' {
        return false;
    }
    byte.is_ascii_lowercase() || byte.is_ascii_uppercase() || byte == b'_'
}

/// A word of ASCII that can't begin a pragma, where what comes next is of ASCII too.
#[inline(always)]
pub fn plain_word(first: bool, bytes: &[u8]) -> Option<(Shape, usize, bool)>
    ensures { IfSome result (λ p. IsAsciiPiece first bytes.now p.0 p.1 p.2) }
{
    let (byte, after) = bytes.split_first()?;
    if !begins_only_word(first, *byte) {
        return None;
    }
    match read_on(State::Word, after)? {
        (State::Nothing, rest, _) => Some((Shape::Word, bytes.len() - rest.len(), *byte != b'\n')),
        _ => None,
    }
}

/// A piece of which so much is read that it is in a state, where it ends after a run with which it
/// stays in that state.
#[inline(always)]
fn run_to_end(first: bool, bytes: &[u8], state: State, rest: &[u8]) -> Option<(Shape, usize, bool)>
    requires { IsRead first bytes.now state true rest.now }
    ensures { IfSome result (λ p. IsAsciiPiece first bytes.now p.0 p.1 p.2) }
{
    match read_on(state, rest)? {
        (State::Nothing, after, _) => piece_before(state, bytes, after, true),
        _ => None,
    }
}

/// A comment to the end of the line, where it and what comes next are of ASCII.
#[inline(always)]
pub fn line_comment(first: bool, bytes: &[u8]) -> Option<(Shape, usize, bool)>
    ensures { IfSome result (λ p. IsAsciiPiece first bytes.now p.0 p.1 p.2) }
{
    let (slash, after) = bytes.split_first()?;
    if *slash != b'/' {
        return None;
    }
    let (second, rest) = after.split_first()?;
    if *second != b'/' {
        return None;
    }
    run_to_end(first, bytes, State::Line, rest)
}

/// A physical qubit, where what comes next is of ASCII.
#[inline(always)]
pub fn physical(first: bool, bytes: &[u8]) -> Option<(Shape, usize, bool)>
    ensures { IfSome result (λ p. IsAsciiPiece first bytes.now p.0 p.1 p.2) }
{
    let (dollar, after) = bytes.split_first()?;
    if *dollar != b'$' {
        return None;
    }
    let (digit, rest) = after.split_first()?;
    if !digit.is_ascii_digit() {
        return None;
    }
    run_to_end(first, bytes, State::Physical, rest)
}

/// The longest piece that begins a text, state by state, where it and what comes next are of
/// ASCII: its shape, its length, and whether it is without a line feed. `None` where another way has
/// to find it.
pub fn ascii_piece(first: bool, bytes: &[u8]) -> Option<(Shape, usize, bool)>
    ensures { IfSome result (λ p. IsAsciiPiece first bytes.now p.0 p.1 p.2) }
{
    let mut state = State::Start(first);
    let mut in_line = true;
    let mut rest = bytes;
    'bytes: loop {
        let (next, after, is_in_line) = read_state(state, rest)?;
        if let State::Nothing = next {
            return piece_before(state, bytes, after, in_line);
        }
        state = next;
        in_line = in_line & is_in_line;
        rest = after;
    }
}
