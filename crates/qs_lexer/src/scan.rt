ghost use Rattle.std.specs.Prelude.{◌≡◌, IfSome, MatchOption, option_map};
ghost use Rattle.std.specs.Str.{chars};
ghost use Rattle.qs_lexer.specs.declared.state.State.TheVariants.{Start};
ghost use Rattle.qs_lexer.specs.Cut.{BeginsNothing};
ghost use Rattle.qs_lexer.specs.steps.Scan.{Begins, IsBehind, longest_from};
ghost use Rattle.qs_lexer.specs.steps.Runs.{IsAsciiPiece, IsInLine};

use crate::ascii::{self, ascii_piece, line_comment, physical};
use crate::numbers::number;
use crate::shape::Shape;
use crate::state::{State, shape_before, step};

/// A piece of a text: what it is, its characters, what stands after it, and whether it is known to
/// be of ASCII alone and without a line feed.
#[derive(Clone, Copy)]
pub struct Piece<'a> {
    pub shape: Shape,
    pub text: &'a str,
    pub after: &'a str,
    pub in_line: bool,
}

/// What the longest piece that begins a text is, and what stands after it.
fn longest(first: bool, text: &str) -> Option<(Shape, &str)>
    ensures value { option_map (λ f. (f.0, chars f.1.now)) result
        ≡ longest_from (Start first) (chars text.now) }
    ensures behind { IfSome result (λ f. IsBehind text.now f.1.now) }
{
    let mut state = State::Start(first);
    let mut found = None;
    let mut ahead = text.chars();
    let mut next = ahead.next();
    while let Some(c) = next {
        state = step(state, c);
        if let State::Nothing = state {
            break;
        }
        let behind = ahead.as_str();
        next = ahead.next();
        if let Some(shape) = shape_before(state, next) {
            found = Some((shape, behind));
        }
    }
    found
}

/// The longest piece that begins a text, of any characters.
fn any_piece(first: bool, text: &str) -> Option<Piece<'_>>
    ensures piece { MatchOption result (BeginsNothing first (chars text.now))
        (λ p. Begins first text.now p.shape p.text.now p.after.now) }
    ensures in_line { IfSome result (λ p. IsInLine p.in_line p.text.now) }
{
    let (shape, after) = longest(first, text)?;
    let (piece, _) = text.split_at(text.len() - after.len());
    Some(Piece {
        shape,
        text: piece,
        after,
        in_line: false,
    })
}

/// A piece of ASCII alone with which a text begins, cut off it.
#[inline(always)]
fn cut_off(first: bool, text: &str, found: (Shape, usize, bool)) -> Piece<'_>
    requires { IsAsciiPiece first text.now found.0 found.1 found.2 }
    ensures piece { Begins first text.now result.shape result.text.now result.after.now }
    ensures in_line { IsInLine result.in_line result.text.now }
{
    let (piece, after) = text.split_at(found.1);
    Piece {
        shape: found.0,
        text: piece,
        after,
        in_line: found.2,
    }
}

/// The blank, but for a line feed, that begins a text.
#[inline(always)]
pub fn spacing(first: bool, text: &str) -> Option<Piece<'_>>
    ensures piece { IfSome result (λ p. Begins first text.now p.shape p.text.now p.after.now) }
    ensures in_line { IfSome result (λ p. IsInLine p.in_line p.text.now) }
{
    let found = ascii::spacing(text.as_bytes())?;
    Some(cut_off(first, text, found))
}

/// The line feed that begins a text.
#[inline(always)]
pub fn line_feed(first: bool, text: &str) -> Option<Piece<'_>>
    ensures piece { IfSome result (λ p. Begins first text.now p.shape p.text.now p.after.now) }
    ensures in_line { IfSome result (λ p. IsInLine p.in_line p.text.now) }
{
    let found = ascii::line_feed(text.as_bytes())?;
    Some(cut_off(first, text, found))
}

/// The sign with which no longer sign begins, that begins a text.
#[inline(always)]
pub fn single_sign(first: bool, text: &str) -> Option<Piece<'_>>
    ensures piece { IfSome result (λ p. Begins first text.now p.shape p.text.now p.after.now) }
    ensures in_line { IfSome result (λ p. IsInLine p.in_line p.text.now) }
{
    let found = ascii::single_sign(text.as_bytes())?;
    Some(cut_off(first, text, found))
}

/// The word of ASCII that begins a text, and can't begin a pragma.
#[inline(always)]
pub fn plain_word(first: bool, text: &str) -> Option<Piece<'_>>
    ensures piece { IfSome result (λ p. Begins first text.now p.shape p.text.now p.after.now) }
    ensures in_line { IfSome result (λ p. IsInLine p.in_line p.text.now) }
{
    let found = ascii::plain_word(first, text.as_bytes())?;
    Some(cut_off(first, text, found))
}

/// A physical qubit, a comment to the end of the line or a number in a form that is met often, where
/// it and what comes next are of ASCII.
#[inline(always)]
fn common_piece(first: bool, bytes: &[u8]) -> Option<(Shape, usize, bool)>
    ensures { IfSome result (λ p. IsAsciiPiece first bytes.now p.0 p.1 p.2) }
{
    match bytes.first()? {
        b'0'..=b'9' => number(first, bytes),
        b'$' => physical(first, bytes),
        b'/' => line_comment(first, bytes),
        _ => None,
    }
}

/// The longest piece that begins a text.
#[inline(always)]
pub fn next_piece(first: bool, text: &str) -> Option<Piece<'_>>
    ensures piece { MatchOption result (BeginsNothing first (chars text.now))
        (λ p. Begins first text.now p.shape p.text.now p.after.now) }
    ensures in_line { IfSome result (λ p. IsInLine p.in_line p.text.now) }
{
    if let Some(found) = common_piece(first, text.as_bytes()) {
        return Some(cut_off(first, text, found));
    }
    match ascii_piece(first, text.as_bytes()) {
        Some(found) => Some(cut_off(first, text, found)),
        None => any_piece(first, text),
    }
}
