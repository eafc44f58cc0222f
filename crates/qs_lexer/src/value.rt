ghost use Rattle.std.specs.Prelude.{◌≡◌, ◌-◌, ◌<◌, ◌≤◌, ◌*◌, ◌/◌, ◌^◌, pos, drop, length, min, count_by, nat_eq, IfSome, MatchOption};
ghost use Rattle.std.specs.Str.{chars};
ghost use Rattle.qs_values.specs.Lowest.{IsWide};
ghost use Rattle.qs_values.specs.Number.{IsFrac};
ghost use Rattle.std.specs.Char.{is_digit};
ghost use Rattle.qs_lexer.specs.Lexed.{longest_source};
ghost use Rattle.qs_lexer.specs.Values.{IsCutOf, IsLexeme, IsTooWide, KindIs, value_of, mantissa, scaled};
ghost use Rattle.qs_lexer.specs.Forms.{begins};
ghost use Rattle.qs_lexer.specs.steps.Mantissas.{HasDecimals, IsMantissa};

use crate::digits::{WHOLE_BOUND, decimal_value, decimal_word, whole_value, with_digit};
use crate::mantissa::{CAP, is_mantissa, read_mantissa};
use crate::shape::Shape;
use crate::token::TokenKind;
use qs_values::Frac;

/// What an exponent is cut to, which is more than a source has characters.
const EXPONENT_CAP: u64 = 2_000_000;

/// 2^31, which a number is below that is built as a fraction without a division.
const WHOLE_LIMIT: u128 = 2_147_483_648;

/// The powers of 10 that are numbers of one machine word.
const POWERS: [u64; 20] = [
    1,
    10,
    100,
    1_000,
    10_000,
    100_000,
    1_000_000,
    10_000_000,
    100_000_000,
    1_000_000_000,
    10_000_000_000,
    100_000_000_000,
    1_000_000_000_000,
    10_000_000_000_000,
    100_000_000_000_000,
    1_000_000_000_000_000,
    10_000_000_000_000_000,
    100_000_000_000_000_000,
    1_000_000_000_000_000_000,
    10_000_000_000_000_000_000,
];

/// 10^17, of which a cut number is a whole multiple of a part.
const SCALE: i128 = 100_000_000_000_000_000;

/// How many digits a mantissa has.
fn digits(text: &str) -> usize
    ensures { result ≡ count_by (λ c. is_digit c 10) (mantissa (chars text.now)) }
{
    text.chars()
        .take_while(|c| is_mantissa(*c))
        .filter(|c| c.is_digit(10))
        .count()
}

/// The size of the exponent in what follows a mantissa, cut to `EXPONENT_CAP`.
#[inline(always)]
fn exponent(rest: &str) -> u128
    ensures { result ≡ min (value_of 10 (chars rest.now)) EXPONENT_CAP }
{
    decimal_word(rest).min(EXPONENT_CAP) as u128
}

/// Whether a minus stands before the exponent in what follows a mantissa.
fn has_minus(rest: &str) -> bool
    ensures { result ≡ begins (nat_eq 45) (drop 1 (chars rest.now)) }
{
    rest.chars().nth(1) == Some('-')
}

/// The mantissa's digits but the last ones as a number, cut to `CAP`.
fn without_last(text: &str, last: u128) -> u128
    ensures { result ≡ min (value_of 10 (mantissa (chars text.now)) / (10 ^ last)) CAP }
{
    let left = (digits(text) as u128).saturating_sub(last);
    text.chars()
        .take_while(|c| is_mantissa(*c))
        .filter(|c| c.is_digit(10))
        .take(left as usize)
        .fold(0, |n, c| with_digit(CAP, 10, n, c))
}

/// A power of 10 that is a number of one machine word.
#[inline(always)]
fn power_of_ten(up: u128) -> u64
    requires { up < 20 }
    ensures { result ≡ 10 ^ up }
{
    POWERS[up as usize]
}

/// A number times a power of 10, cut to `CAP`, for numbers and powers of any size.
fn times_any_power(n: u128, up: u128) -> u128
    ensures { result ≡ min (n * 10 ^ up) CAP }
{
    n.saturating_mul(10u128.pow(up.min(36) as u32)).min(CAP)
}

/// A number times a power of 10, cut to `CAP`.
fn times_power(n: u128, up: u128) -> u128
    ensures { result ≡ min (n * 10 ^ up) CAP }
{
    if n < WHOLE_BOUND && up < 20 {
        (n as u64 as u128 * power_of_ten(up) as u128).min(CAP)
    } else {
        times_any_power(n, up)
    }
}

/// The mantissa, whose value cut to `CAP` this is, times one power of 10, over another, cut to a
/// whole number and to `CAP`.
fn shifted(text: &str, value: u128, up: u128, down: u128) -> u128
    requires { value ≡ min (value_of 10 (mantissa (chars text.now))) CAP }
    ensures { result ≡ min ((value_of 10 (mantissa (chars text.now)) * 10 ^ up) / (10 ^ down)) CAP }
{
    if up < down {
        without_last(text, down - up)
    } else {
        times_power(value, up - down)
    }
}

/// A number without its unit times 10^17, cut to a whole number and to `CAP`, of which the mantissa
/// was read.
fn scaled(text: &str, value: u128, places: usize, rest: &str) -> u128
    requires short { length (chars text.now) ≤ longest_source }
    requires mantissa { IsMantissa text.now value places rest.now }
    ensures { result ≡ min (scaled (chars text.now)) CAP }
{
    let places = places as u128;
    let exponent = exponent(rest);
    if has_minus(rest) {
        shifted(text, value, 17, places + exponent)
    } else {
        shifted(text, value, 17 + exponent, places)
    }
}

/// The same number cut to 17 decimals; `None` where it is past its limit.
fn scaled_cut(text: &str, value: u128, places: usize, rest: &str) -> Option<Frac>
    requires short { length (chars text.now) ≤ longest_source }
    requires mantissa { IsMantissa text.now value places rest.now }
    ensures { MatchOption result (IsWide (pos (scaled (chars text.now))) (pos (10 ^ 17)))
        (λ f. IsCutOf (chars text.now) f) }
{
    let value = scaled(text, value, places, rest);
    if value == CAP {
        return None;
    }
    match Frac::of(value as i128, SCALE) {
        Ok(number) => Some(number),
        Err(_) => None,
    }
}

/// How many decimals a number has, by its mantissa's places and what follows the mantissa. `None` of
/// one with more than 17, and of one with an exponent above 0.
#[inline(always)]
fn decimals(places: usize, rest: &str) -> Option<u128>
    ensures { IfSome result (λ count. HasDecimals places (chars rest.now) count) }
{
    let exponent = exponent(rest);
    if exponent > 0 && !has_minus(rest) {
        return None;
    }
    if places > 17 || exponent > 17 {
        return None;
    }
    let count = places as u128 + exponent;
    if count > 17 { None } else { Some(count) }
}

/// A number of so many decimals, whose digits are a number below `CAP`, as a fraction; `None` where
/// it is past its limit.
#[inline(always)]
fn uncut(value: u128, decimals: u128) -> Option<Frac>
    requires value { value < 10 ^ 36 }
    requires decimals { decimals ≤ 17 }
    ensures { MatchOption result (IsWide (pos (value * 10 ^ (17 - decimals))) (pos (10 ^ 17)))
        (λ f. IsFrac (pos (value * 10 ^ (17 - decimals))) (pos (10 ^ 17)) f) }
{
    if value < WHOLE_LIMIT && (decimals == 0 || value == 0) {
        return Some(Frac::whole(value as i32));
    }
    match Frac::of(value as i128, power_of_ten(decimals) as i128) {
        Ok(number) => Some(number),
        Err(_) => None,
    }
}

/// A number with a point, an exponent or a unit, cut to 17 decimals; `None` where it is past its
/// limit.
fn cut(text: &str) -> Option<Frac>
    requires { length (chars text.now) ≤ longest_source }
    ensures { MatchOption result (IsWide (pos (scaled (chars text.now))) (pos (10 ^ 17)))
        (λ f. IsCutOf (chars text.now) f) }
{
    let (value, places, rest) = read_mantissa(text);
    match decimals(places, rest) {
        Some(count) if value < CAP => uncut(value, count),
        _ => scaled_cut(text, value, places, rest),
    }
}

/// What a token of this shape and text is; `None` where it is a number past its limit.
#[inline(always)]
pub fn kind_of(shape: Shape, text: &str) -> Option<TokenKind>
    requires lexeme { IsLexeme shape }
    requires short { length (chars text.now) ≤ longest_source }
    ensures { MatchOption result (IsTooWide shape (chars text.now))
        (λ kind. KindIs shape (chars text.now) kind) }
{
    match shape {
        Shape::Physical => match u32::try_from(decimal_value(text)) {
            Ok(number) => Some(TokenKind::Physical(number)),
            Err(_) => None,
        },
        Shape::Whole => match u64::try_from(whole_value(text)) {
            Ok(number) => Some(TokenKind::Whole(number)),
            Err(_) => None,
        },
        Shape::Decimal => Some(TokenKind::Decimal(cut(text)?)),
        Shape::Time(unit) => Some(TokenKind::Time(cut(text)?, unit)),
        Shape::Text => Some(TokenKind::Text),
        Shape::Sign => Some(TokenKind::Sign),
        Shape::Word => Some(TokenKind::Word),
        Shape::Gap | Shape::OpenComment | Shape::OpenText => unreachable!(),
    }
}
