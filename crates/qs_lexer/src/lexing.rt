ghost use Rattle.std.specs.Prelude.{◌≡◌, ◌⊎◌, ◌+◌, ◌<◌, ◌≤◌, ◌^◌, ℕ, [], length, MatchResult};
ghost use Rattle.std.specs.Bool.{MatchBool};
ghost use Rattle.std.specs.Str.{chars};
ghost use Rattle.qs_lexer.specs.declared.refusal.LexRefusal.TheVariants.{Memory as OutOfMemory};
ghost use Rattle.qs_lexer.specs.Lexed.{IsClear, IsPieceFault, IsReadable, LexIs, longest_source, most_tokens};
ghost use Rattle.qs_lexer.specs.steps.Runs.{IsInLine};
ghost use Rattle.qs_lexer.specs.steps.Scan.{Adds, Begins, FailsNext, GivesKind, TakesNext, first_of};

use crate::place::{START, place_behind_piece};
use crate::refusal::LexRefusal;
use crate::scan::{Piece, line_feed, next_piece, plain_word, single_sign, spacing};
use crate::shape::Shape;
use crate::token::{Token, TokenKind};
use crate::value::kind_of;
use qs_values::{List, Name, Span};
use std::alloc::Global;

/// How many tokens a source has at most.
const MOST_TOKENS: usize = 262_144;

/// The characters of a source up to the first byte that belongs to none, and the bytes from it on.
fn readable(bytes: &[u8]) -> (&str, &[u8])
    ensures { IsReadable bytes.now result.0.now result.1.now }
{
    match str::from_utf8(bytes) {
        Ok(text) => (text, &bytes[bytes.len()..]),
        Err(error) => {
            let (front, tail) = bytes.split_at(error.valid_up_to());
            match str::from_utf8(front) {
                Ok(text) => (text, tail),
                Err(_) => unreachable!(),
            }
        }
    }
}

/// What a piece gives: nothing for a gap, the kind of a token for a lexeme, or its fault.
#[inline(always)]
fn kind_at(place: Span, shape: Shape, piece: &str) -> Result<Option<TokenKind>, LexRefusal>
    requires { length (chars piece.now) ≤ longest_source }
    ensures { MatchResult result (λ found. GivesKind shape (chars piece.now) found)
        (λ refusal. (count : ℕ) → IsPieceFault count place shape (chars piece.now) refusal) }
{
    match shape {
        Shape::Gap => Ok(None),
        Shape::OpenComment => Err(LexRefusal::OpenComment { span: place }),
        Shape::OpenText => Err(LexRefusal::OpenText { span: place }),
        _ => match kind_of(shape, piece) {
            Some(kind) => Ok(Some(kind)),
            None => Err(LexRefusal::NumberTooWide { span: place }),
        },
    }
}

/// Puts the token of a piece, if it gives one, at the end of the list.
#[inline(always)]
fn put(
    alloc: Global,
    tokens: &mut List<Token>,
    place: Span,
    shape: Shape,
    piece: &str,
) -> Result<(), LexRefusal>
    requires short { length (chars piece.now) ≤ longest_source }
    requires few { length tokens.old ≤ most_tokens }
    ensures { MatchResult result (λ _. Adds place shape (chars piece.now) tokens.old tokens.new)
        (λ refusal. (refusal ≡ OutOfMemory)
        ⊎ IsPieceFault (length tokens.old) place shape (chars piece.now) refusal) }
{
    let kind = match kind_at(place, shape, piece) {
        Ok(Some(kind)) => kind,
        Ok(None) => return Ok(()),
        Err(refusal) => return Err(refusal),
    };
    if tokens.len() == MOST_TOKENS {
        return Err(LexRefusal::TooManyTokens { span: place });
    }
    let text = Name::copy_of(alloc, piece)?;
    tokens.push(Token {
        span: place,
        text,
        kind,
    })?;
    Ok(())
}

/// Whether a piece runs up to a byte that belongs to no character.
#[inline(always)]
fn runs_out(after: &str, tail: &[u8]) -> bool
    ensures { MatchBool result ((chars after.now ≡ []) × ¬ (tail.now ≡ []))
        (IsClear (chars after.now) tail.now) }
{
    after.is_empty() && !tail.is_empty()
}

/// Whether the next lexeme is the first of its line, after a piece that ends on a line below or not.
#[inline(always)]
fn first_of(first: bool, shape: Shape, is_below: bool) -> bool
    ensures { result ≡ first_of first shape is_below }
{
    match shape {
        Shape::Gap => first || is_below,
        _ => false,
    }
}

/// Puts the token of the piece that begins a text, if it gives one, at the end of the list: the place
/// after the piece, whether the next lexeme is the first of its line, and what is left of the text.
#[inline(always)]
fn take<'a>(
    alloc: Global,
    tokens: &mut List<Token>,
    place: Span,
    first: bool,
    text: &str,
    tail: &[u8],
    piece: Piece<'a>,
) -> Result<(Span, bool, &'a str), LexRefusal>
    requires line { place.line + length (chars text.now) < 2 ^ 32 }
    requires col { place.col + length (chars text.now) < 2 ^ 32 }
    requires short { length (chars text.now) ≤ longest_source }
    requires few { length tokens.old ≤ most_tokens }
    requires piece { Begins first text.now piece.shape piece.text.now piece.after.now }
    requires in_line { IsInLine piece.in_line piece.text.now }
    ensures { MatchResult result
        (λ p. TakesNext first place text.now tokens.old tokens.new p.0 p.1 p.2.now)
        (λ refusal. FailsNext first place text.now tail.now (length tokens.old) refusal) }
{
    let end = place_behind_piece(place, piece.text, piece.in_line);
    if runs_out(piece.after, tail) {
        return Err(LexRefusal::NotUtf8 { span: end });
    }
    match put(alloc, tokens, place, piece.shape, piece.text) {
        Ok(()) => Ok((
            end,
            first_of(first, piece.shape, end.line > place.line),
            piece.after,
        )),
        Err(refusal) => Err(refusal),
    }
}

/// Takes the longest piece that begins a text. Blanks, single signs and plain words, which are most
/// pieces, have code of their own.
#[inline(always)]
fn take_next<'a>(
    alloc: Global,
    tokens: &mut List<Token>,
    place: Span,
    first: bool,
    text: &'a str,
    tail: &[u8],
) -> Result<(Span, bool, &'a str), LexRefusal>
    requires line { place.line + length (chars text.now) < 2 ^ 32 }
    requires col { place.col + length (chars text.now) < 2 ^ 32 }
    requires short { length (chars text.now) ≤ longest_source }
    requires few { length tokens.old ≤ most_tokens }
    requires some { ¬ (text.now ≡ []) }
    ensures { MatchResult result
        (λ p. TakesNext first place text.now tokens.old tokens.new p.0 p.1 p.2.now)
        (λ refusal. FailsNext first place text.now tail.now (length tokens.old) refusal) }
{
    match text.as_bytes().first() {
        Some(b' ' | b'\t' | b'\r') => {
            if let Some(piece) = spacing(first, text) {
                return take(alloc, tokens, place, first, text, tail, piece);
            }
        }
        Some(b'(' | b')' | b'[' | b']' | b'{' | b'}' | b':' | b';' | b',' | b'~') => {
            if let Some(piece) = single_sign(first, text) {
                return take(alloc, tokens, place, first, text, tail, piece);
            }
        }
        Some(b'a'..=b'z' | b'A'..=b'Z' | b'_') => {
            if let Some(piece) = plain_word(first, text) {
                return take(alloc, tokens, place, first, text, tail, piece);
            }
        }
        Some(b'\n') => {
            if let Some(piece) = line_feed(first, text) {
                return take(alloc, tokens, place, first, text, tail, piece);
            }
        }
        _ => {}
    }
    match next_piece(first, text) {
        Some(piece) => take(alloc, tokens, place, first, text, tail, piece),
        None => Err(LexRefusal::BadChar { span: place }),
    }
}

/// The tokens of a source, or its first fault.
///
/// # Errors
/// `NotUtf8` at the first byte that belongs to no character, `BadChar` at a character that begins
/// no gap and no lexeme, `OpenComment` and `OpenText` where one begins that has no end,
/// `NumberTooWide` at a number past its limit, `TooManyTokens` at token 262,145, whichever comes
/// first in the text; `Memory` where memory is out.
pub fn lex(alloc: Global, bytes: &[u8]) -> Result<List<Token>, LexRefusal>
    requires { length bytes.now ≤ longest_source }
    ensures { LexIs bytes.now result }
{
    let (text, tail) = readable(bytes);
    let mut tokens = List::new(alloc);
    let mut place = START;
    let mut first = true;
    let mut rest = text;
    while !rest.is_empty() {
        match take_next(alloc, &mut tokens, place, first, rest, tail) {
            Ok((end, is_first, after)) => {
                place = end;
                first = is_first;
                rest = after;
            }
            Err(refusal) => return Err(refusal),
        }
    }
    if tail.is_empty() {
        Ok(tokens)
    } else {
        Err(LexRefusal::NotUtf8 { span: place })
    }
}
