ghost use Rattle.std.specs.Prelude.{◌≡◌, IfOk, false, string_bytes};
ghost use Rattle.std.specs.Option.{option_map};
ghost use Rattle.qs_lexer.specs.Forms.{goes_on, is_binary_digit};
ghost use Rattle.qs_tree.specs.Texts.{bits_of, digits_alone, inner_text};

use crate::constant::Digits;
use qs_values::Name;
use std::alloc::{AllocError, Global};

/// How many digits a text has at most.
const MOST_DIGITS: usize = 64;

/// What stands between the first and the last byte.
fn inner_text(text: &[u8]) -> &[u8]
    ensures { result.now ≡ inner_text text.now }
{
    match text.split_first() {
        None => text,
        Some((_, behind)) => match behind.split_last() {
            None => behind,
            Some((_, inner)) => inner,
        },
    }
}

fn is_binary_digit(byte: u8) -> bool
    ensures { result ≡ is_binary_digit byte }
{
    byte == b'0' || byte == b'1'
}

/// Whether a text is of digits with single `_` between them.
fn is_of_digits(text: &[u8]) -> bool
    ensures { result ≡ goes_on is_binary_digit false text.now }
{
    let mut behind = false;
    for byte in text {
        if is_binary_digit(*byte) {
            behind = true;
        } else if *byte == b'_' && behind {
            behind = false;
        } else {
            return false;
        }
    }
    behind
}

/// The digits of a text.
fn digits_alone(alloc: Global, text: &[u8]) -> Result<String, AllocError>
    ensures { IfOk result (λ digits. string_bytes digits ≡ digits_alone text.now) }
{
    let mut digits = String::new(alloc);
    for byte in text {
        if is_binary_digit(*byte) {
            digits.push(*byte as char)?;
        }
    }
    Ok(digits)
}

/// The digits of a text in quotes, or `None` where it isn't of 1 to 64 digits `0` and `1` with
/// single `_` between them; an error where memory runs out.
pub fn bits_of(alloc: Global, text: &str) -> Result<Option<Digits>, AllocError>
    ensures { IfOk result (λ bits. option_map (λ digits. digits.text) bits ≡ bits_of text.now) }
{
    let inner = inner_text(text.as_bytes());
    if !is_of_digits(inner) {
        return Ok(None);
    }
    let digits = digits_alone(alloc, inner)?;
    if digits.len() > MOST_DIGITS {
        return Ok(None);
    }
    let text = Name::from_string(digits);
    Ok(Some(Digits { text }))
}
