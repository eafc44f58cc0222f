ghost use Rattle.std.specs.Prelude.{◌≡◌, drop};
ghost use Rattle.std.specs.Option.{option_map};
ghost use Rattle.qs_parser.specs.steps.Asking.{rest_at};
ghost use Rattle.qs_parser.specs.steps.Tokens.{Gives, after_sign, after_word, begins_sign, begins_word, is_sign, is_word};

use crate::stop::Stop;
use qs_lexer::{Token, TokenKind};

/// Whether a token is this word.
pub fn is_word(token: &Token, text: &str) -> bool
    ensures { result ≡ is_word text.now token.now }
{
    match token.kind {
        TokenKind::Word => token.text.as_str() == text,
        _ => false,
    }
}

/// Whether a token is this sign.
pub fn is_sign(token: &Token, text: &str) -> bool
    ensures { result ≡ is_sign text.now token.now }
{
    match token.kind {
        TokenKind::Sign => token.text.as_str() == text,
        _ => false,
    }
}

/// Whether this sign stands at a place.
pub fn begins_sign(tokens: &[Token], at: usize, text: &str) -> bool
    ensures { result ≡ begins_sign text.now (drop at tokens.now) }
{
    match tokens.get(at) {
        Some(token) => is_sign(token, text),
        None => false,
    }
}

/// Whether this word stands at a place.
pub fn begins_word(tokens: &[Token], at: usize, text: &str) -> bool
    ensures { result ≡ begins_word text.now (drop at tokens.now) }
{
    match tokens.get(at) {
        Some(token) => is_word(token, text),
        None => false,
    }
}

/// The place after this sign, where it stands at a place.
pub fn after_sign(tokens: &[Token], at: usize, text: &str) -> Result<usize, Stop>
    ensures { Gives (rest_at tokens.now) result (after_sign text.now (drop at tokens.now)) }
{
    match tokens.get(at) {
        Some(token) => {
            let _count = tokens.len();
            if is_sign(token, text) {
                Ok(at + 1)
            } else {
                Err(Stop::Unread)
            }
        }
        None => Err(Stop::Unread),
    }
}

/// The place after this word, where it stands at a place.
pub fn after_word(tokens: &[Token], at: usize, text: &str) -> Result<usize, Stop>
    ensures { Gives (rest_at tokens.now) result (after_word text.now (drop at tokens.now)) }
{
    match tokens.get(at) {
        Some(token) => {
            let _count = tokens.len();
            if is_word(token, text) {
                Ok(at + 1)
            } else {
                Err(Stop::Unread)
            }
        }
        None => Err(Stop::Unread),
    }
}

/// The place after this sign, or `None` where another token stands.
pub fn past_sign(tokens: &[Token], at: usize, text: &str) -> Option<usize>
    ensures { option_map (rest_at tokens.now) result ≡ after_sign text.now (drop at tokens.now) }
{
    let token = tokens.get(at)?;
    let _count = tokens.len();
    if is_sign(token, text) {
        Some(at + 1)
    } else {
        None
    }
}

/// The place after this word, or `None` where another token stands.
pub fn past_word(tokens: &[Token], at: usize, text: &str) -> Option<usize>
    ensures { option_map (rest_at tokens.now) result ≡ after_word text.now (drop at tokens.now) }
{
    let token = tokens.get(at)?;
    let _count = tokens.len();
    if is_word(token, text) {
        Some(at + 1)
    } else {
        None
    }
}
