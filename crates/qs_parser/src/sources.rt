ghost use Rattle.std.specs.Prelude.{◌≡◌, ◌<◌, IfOk, drop, length};
ghost use Rattle.std.specs.List.{list_any};
ghost use Rattle.std.specs.Option.{option_map};
ghost use Rattle.std.specs.Str.{bytes_eq};
ghost use Rattle.qs_tree.specs.WellFormed.{is_version, twice_limits};
ghost use Rattle.qs_parser.specs.Language.{left_out};
ghost use Rattle.qs_parser.specs.steps.Asking.{after_it, is_read};
ghost use Rattle.qs_parser.specs.steps.Globals.{statement_at};
ghost use Rattle.qs_parser.specs.steps.Sources.{is_left_out_word, is_number, refusal_of, statements_at};
ghost use Rattle.qs_parser.specs.steps.Sources.{unknown_version, unsupported, version_at};
ghost use Rattle.qs_parser.specs.steps.Tokens.{Gives};

use crate::globals::statement_at;
use crate::refusal::ParseRefusal;
use crate::stop::Stop;
use crate::tokens::{begins_sign, is_word};
use qs_lexer::{Token, TokenKind};
use qs_tree::Stmt;
use qs_values::{List, Name};
use std::alloc::{AllocError, Global};

/// How many nested statements, brackets and signs may be open at one place.
const DEPTH: usize = 64;

/// How many operators an expression may have.
const OPERATORS: usize = 1_024;

/// Up to twice the limits a statement is too deep, and past them it is none.
const TWICE_DEPTH: usize = 128;

const TWICE_OPERATORS: usize = 2_048;

/// Whether a token is a number as a version line has one.
fn is_number(kind: TokenKind) -> bool
    ensures { result ≡ is_number kind }
{
    match kind {
        TokenKind::Whole(_) => true,
        TokenKind::Decimal(_) => true,
        _ => false,
    }
}

/// Whether the text of a number is a known version.
fn is_version(text: &str) -> bool
    ensures { result ≡ is_version text.now }
{
    text == "3" || text == "3.0"
}

/// The version of a source, and the place after its line; the source's beginning where it has no
/// version line.
pub fn version_at(alloc: Global, tokens: &[Token]) -> Result<(Option<Name>, usize), AllocError>
    ensures { IfOk result (λ r. (r.0, drop r.1 tokens.now) ≡ version_at tokens.now) }
{
    let Some(first) = tokens.get(0) else {
        return Ok((None, 0));
    };
    let Some(number) = tokens.get(1) else {
        return Ok((None, 0));
    };
    if is_word(first, "OPENQASM")
        && is_number(number.kind)
        && is_version(number.text.as_str())
        && begins_sign(tokens, 2, ";")
    {
        return Ok((Some(Name::copy_of(alloc, number.text.as_str())?), 3));
    }
    Ok((None, 0))
}

/// Whether a version line begins whose number is no known version.
fn unknown_version(tokens: &[Token]) -> bool
    ensures { result ≡ unknown_version tokens.now }
{
    let Some(first) = tokens.get(0) else {
        return false;
    };
    let Some(number) = tokens.get(1) else {
        return false;
    };
    is_word(first, "OPENQASM") && is_number(number.kind) && !is_version(number.text.as_str())
}

/// The statements from a place on, and the place of the first token that begins none.
pub fn statements_at(
    alloc: Global,
    tokens: &[Token],
    mut at: usize,
) -> Result<(List<Stmt>, usize), AllocError>
    ensures { IfOk result (λ read. after_it tokens.now read
        ≡ statements_at (length tokens.now) (drop at tokens.now)) }
{
    let mut body = List::new(alloc);
    for _turn in 0..tokens.len() {
        match statement_at(alloc, tokens, DEPTH, OPERATORS, at) {
            Ok((statement, next)) => {
                body.push(statement)?;
                at = next;
            }
            Err(Stop::Unread) => return Ok((body, at)),
            Err(Stop::Memory) => return Err(AllocError),
        }
    }
    Ok((body, at))
}

/// Whether a word is left out.
fn is_left_out(text: &str) -> bool
    ensures { result ≡ list_any (bytes_eq text.now) left_out }
{
    match text {
        "array"
        | "let"
        | "complex"
        | "float"
        | "qreg"
        | "creg"
        | "switch"
        | "case"
        | "default"
        | "def"
        | "sizeof"
        | "void"
        | "readonly"
        | "mutable"
        | "extern"
        | "return"
        | "port"
        | "frame"
        | "waveform" => true,
        _ => false,
    }
}

/// Whether a token is a word that is left out.
fn is_left_out_word(token: &Token) -> bool
    ensures { result ≡ is_left_out_word token.now }
{
    match token.kind {
        TokenKind::Word => is_left_out(token.text.as_str()),
        _ => false,
    }
}

/// The word at a place that is left out, or the one after `const`, `input` or `output`.
fn unsupported(tokens: &[Token], at: usize) -> Option<&str>
    ensures { option_map (λ w. w.now) result ≡ unsupported (drop at tokens.now) }
{
    let token = tokens.get(at)?;
    let _count = tokens.len();
    if is_left_out_word(token) {
        return Some(token.text.as_str());
    }
    if !is_word(token, "const") && !is_word(token, "input") && !is_word(token, "output") {
        return None;
    }
    let second = tokens.get(at + 1)?;
    if is_left_out_word(second) {
        Some(second.text.as_str())
    } else {
        None
    }
}

/// Whether a statement stands at a place that follows the grammar within twice the limits.
fn is_too_deep(alloc: Global, tokens: &[Token], at: usize) -> Result<bool, AllocError>
    ensures { IfOk result (λ deep. deep
        ≡ is_read (statement_at twice_limits.depth twice_limits.operators (drop at tokens.now))) }
{
    match statement_at(alloc, tokens, TWICE_DEPTH, TWICE_OPERATORS, at) {
        Ok((statement, _next)) => {
            drop(statement);
            Ok(true)
        }
        Err(Stop::Unread) => Ok(false),
        Err(Stop::Memory) => Err(AllocError),
    }
}

/// Why tokens have no tree, by the first token of the rest and its place.
#[tactic(auto, unfolding(crate::specs::steps::Sources::refusal_of))]
pub fn refusal_of(
    alloc: Global,
    tokens: &[Token],
    token: &Token,
    at: usize,
) -> Result<ParseRefusal, AllocError>
    ensures { IfOk result
        (λ refusal. refusal ≡ refusal_of tokens.now token.now (drop at tokens.now)) }
{
    let span = token.span;
    if unknown_version(tokens) {
        return Ok(ParseRefusal::VersionUnknown { span });
    }
    if let Some(word) = unsupported(tokens, at) {
        let word = Name::copy_of(alloc, word)?;
        return Ok(ParseRefusal::Unsupported { span, word });
    }
    if is_too_deep(alloc, tokens, at)? {
        Ok(ParseRefusal::TooDeep { span })
    } else {
        Ok(ParseRefusal::NoStatement { span })
    }
}
