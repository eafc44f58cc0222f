ghost use Rattle.std.specs.Prelude.{◌≡◌, ◌+◌, ◌<◌, ◌≤◌, ◌*◌, ◌^◌, length, min, IfSome};
ghost use Rattle.std.specs.Str.{chars};
ghost use Rattle.qs_lexer.specs.Values.{with_digit, value_of, based_value, whole_value};

/// 2^64, which a whole number stays below.
pub const WHOLE_BOUND: u128 = 18_446_744_073_709_551_616;

/// The greatest number of one machine word.
const MOST_WORD: u64 = 18_446_744_073_709_551_615;

/// 2^56, below which a number with one more digit is below `MOST_WORD`.
const SHORT: u64 = 72_057_594_037_927_936;

/// A number below `SHORT` with one more digit.
#[inline(always)]
fn and_digit(base: u32, n: u64, digit: u32) -> u64
    requires base { base ≤ 36 }
    requires n { n < 2 ^ 56 }
    ensures { result ≡ n * base + digit }
{
    n * base as u64 + digit as u64
}

/// A number of one machine word with one more digit, cut to the greatest of them; other characters
/// add none.
#[inline(always)]
fn word_with_digit(base: u32, n: u64, c: char) -> u64
    requires least { 2 ≤ base }
    requires most { base ≤ 36 }
    ensures { result ≡ min (with_digit base n c) MOST_WORD }
{
    match c.to_digit(base) {
        Some(digit) if n < SHORT => and_digit(base, n, digit).min(MOST_WORD),
        Some(digit) => n.saturating_mul(base as u64).saturating_add(digit as u64),
        None => n,
    }
}

/// A number with one more digit, cut to `most`; other characters add none.
#[inline(always)]
pub fn with_digit(most: u128, base: u32, n: u128, c: char) -> u128
    requires least { 2 ≤ base }
    requires most { base ≤ 36 }
    ensures { result ≡ min (with_digit base n c) most }
{
    match c.to_digit(base) {
        Some(digit) => n
            .saturating_mul(base as u128)
            .saturating_add(digit as u128)
            .min(most),
        None => n.min(most),
    }
}

/// The digits of a text as a number of a base, cut to the greatest number of one machine word.
fn word_value(base: u32, text: &str) -> u64
    requires least { 2 ≤ base }
    requires most { base ≤ 36 }
    ensures { result ≡ min (value_of base (chars text.now)) MOST_WORD }
{
    text.chars().fold(0, |n, c| word_with_digit(base, n, c))
}

/// The digits of a text as a number of a base, cut to `WHOLE_BOUND`.
fn long_value(base: u32, text: &str) -> u128
    requires least { 2 ≤ base }
    requires most { base ≤ 36 }
    ensures { result ≡ min (value_of base (chars text.now)) WHOLE_BOUND }
{
    text.chars()
        .fold(0, |n, c| with_digit(WHOLE_BOUND, base, n, c))
}

/// The decimal digits of a text as a number, cut to the greatest number of one machine word.
#[inline(always)]
pub fn decimal_word(text: &str) -> u64
    ensures { result ≡ min (value_of 10 (chars text.now)) MOST_WORD }
{
    text.chars().fold(0, |n, c| word_with_digit(10, n, c))
}

/// A number below 16^15 with one more hexadecimal digit; `_` adds none. `None` with any other byte.
#[inline(always)]
fn and_hexadecimal(n: u64, byte: u8) -> Option<u64>
    requires { n < 16 ^ 15 }
    ensures { IfSome result (λ m. (byte < 128) × (m ≡ with_digit 16 n byte)) }
{
    if b'0' <= byte && byte <= b'9' {
        Some(n * 16 + (byte - b'0') as u64)
    } else if b'a' <= byte && byte <= b'f' {
        Some(n * 16 + (byte - b'W') as u64)
    } else if b'A' <= byte && byte <= b'F' {
        Some(n * 16 + (byte - b'7') as u64)
    } else if byte == b'_' {
        Some(n)
    } else {
        None
    }
}

/// At most 15 hexadecimal digits, with `_` between them, as a number; `None` where another byte
/// stands among them.
#[inline(always)]
fn short_hexadecimal(bytes: &[u8]) -> Option<u64>
    requires { length bytes.now ≤ 15 }
    ensures { IfSome result (λ n. (n < 16 ^ 15) × (n ≡ value_of 16 (chars bytes.now))) }
{
    let mut value = 0;
    let mut rest = bytes;
    while let Some((byte, after)) = rest.split_first() {
        let Some(more) = and_hexadecimal(value, *byte) else {
            return None;
        };
        value = more;
        rest = after;
    }
    Some(value)
}

/// The hexadecimal digits of a text as a number, cut to the greatest number of one machine word.
#[inline(always)]
fn hexadecimal_word(text: &str) -> u64
    ensures { result ≡ min (value_of 16 (chars text.now)) MOST_WORD }
{
    if text.len() <= 15 {
        if let Some(value) = short_hexadecimal(text.as_bytes()) {
            return value;
        }
    }
    word_value(16, text)
}

/// The digits of a text as a number of a base, cut to `WHOLE_BOUND`, where they are known as a
/// number that is cut to the greatest one of one machine word.
#[inline(always)]
fn value_of(base: u32, text: &str, value: u64) -> u128
    requires least { 2 ≤ base }
    requires most { base ≤ 36 }
    requires value { value ≡ min (value_of base (chars text.now)) MOST_WORD }
    ensures { result ≡ min (value_of base (chars text.now)) WHOLE_BOUND }
{
    if value < MOST_WORD {
        value as u128
    } else {
        long_value(base, text)
    }
}

/// The digits of a text as a decimal number, cut to `WHOLE_BOUND`.
pub fn decimal_value(text: &str) -> u128
    ensures { result ≡ min (value_of 10 (chars text.now)) WHOLE_BOUND }
{
    value_of(10, text, decimal_word(text))
}

/// The value of a whole number with this second character and these digits after it, cut to
/// `WHOLE_BOUND`.
fn based_value(text: &str, letter: char, digits: &str) -> u128
    ensures { result
        ≡ min (based_value (chars text.now) letter (chars digits.now)) WHOLE_BOUND }
{
    match letter {
        'x' | 'X' => value_of(16, digits, hexadecimal_word(digits)),
        'b' | 'B' => value_of(2, digits, word_value(2, digits)),
        'o' => value_of(8, digits, word_value(8, digits)),
        _ => decimal_value(text),
    }
}

/// The value of a whole number, cut to `WHOLE_BOUND`.
pub fn whole_value(text: &str) -> u128
    ensures { result ≡ min (whole_value (chars text.now)) WHOLE_BOUND }
{
    let mut ahead = text.chars();
    let Some(_) = ahead.next() else {
        return 0;
    };
    let Some(letter) = ahead.next() else {
        return decimal_value(text);
    };
    based_value(text, letter, ahead.as_str())
}
