ghost use Rattle.std.specs.Prelude.{◌≡◌, [], ◌∷◌};
ghost use Rattle.std.specs.Char.{is_ascii_digit, is_ascii_hexdigit};
ghost use Rattle.qs_lexer.specs.Forms.{is_blank};
ghost use Rattle.qs_lexer.specs.steps.Scan.{is_digit_of, unit_begun, is_one_sign, is_two_signs, is_three_signs, ends_line, where_so, shape_before, at_start, at_slash, at_comment, at_pragma, at_number, at_digits, at_zero, at_based, at_part, at_exponent, at_digit, at_half, at_quote, at_numeral, step};

use crate::shape::Shape;
use crate::token::Unit;
use qs_values::{begins_word, continues_word};

/// The base of a number that begins with `0` and a letter.
#[derive(Clone, Copy, Debug, PartialEq, Eq)]
pub enum Base {
    Hexadecimal,
    Binary,
    Octal,
}

/// What the characters that were read so far of a piece are, as far as it matters for what may
/// follow. A flag `ended` says whether the last character is a digit, so that a number may end there.
#[derive(Clone, Copy, Debug, PartialEq, Eq)]
pub enum State {
    /// Nothing was read; whether the first lexeme of a line would begin here.
    Start(bool),
    /// No piece begins so.
    Nothing,
    /// A gap that has ended.
    Blank,
    /// A comment, annotation or pragma that goes on to the end of the line.
    Line,
    /// `/`.
    Slash,
    /// A comment, and whether its last character is a `*` that may end it.
    Comment(bool),
    /// So many letters of `pragma`, after `#` or not, as the first lexeme of a line.
    Pragma(bool, u8),
    /// A word.
    Word,
    /// `$`.
    Dollar,
    /// `$` and digits.
    Physical,
    /// A text that isn't ended.
    Quote,
    /// A text.
    Text,
    /// A sign of one character, of two, and of three.
    One(char),
    Two(char, char),
    Three,
    /// `0`.
    Zero,
    /// Decimal digits.
    Digits(bool),
    /// `0`, the letter of a base, and digits.
    Based(Base, bool),
    /// A point alone.
    Point,
    /// Digits and a point.
    Pointed,
    /// Digits after a point.
    Part(bool),
    /// A number and the letter of an exponent.
    Letter,
    /// A number, the letter of an exponent and its sign.
    Signed,
    /// A number with its exponent.
    Exponent(bool),
    /// A number and the first letter of a unit of two.
    Half(Unit),
    /// A number and its unit.
    Ended(Unit),
}

/// The letters that begin a pragma.
const PRAGMA: [char; 6] = ['p', 'r', 'a', 'g', 'm', 'a'];

/// Whether a character is a blank, a tab, a line feed or a carriage return.
#[inline(always)]
pub fn is_blank(c: char) -> bool
    ensures { result ≡ is_blank c }
{
    c == ' ' || c == '\t' || c == '\n' || c == '\r'
}

/// Whether a character is a digit of a base.
#[inline(always)]
fn is_digit_of(base: Base, c: char) -> bool
    ensures { result ≡ is_digit_of base c }
{
    match base {
        Base::Hexadecimal => c.is_ascii_hexdigit(),
        Base::Binary => '0' <= c && c <= '1',
        Base::Octal => '0' <= c && c <= '7',
    }
}

#[inline(always)]
fn is_one_sign(a: char) -> bool
    ensures { result ≡ is_one_sign a }
{
    matches!(
        a,
        '[' | ']'
            | '{'
            | '}'
            | '('
            | ')'
            | ':'
            | ';'
            | ','
            | '@'
            | '='
            | '<'
            | '>'
            | '+'
            | '-'
            | '*'
            | '/'
            | '%'
            | '!'
            | '~'
            | '&'
            | '|'
            | '^'
    )
}

#[inline(always)]
fn is_two_signs(a: char, b: char) -> bool
    ensures { result ≡ is_two_signs a b }
{
    match b {
        '=' => matches!(
            a,
            '=' | '<' | '>' | '+' | '-' | '*' | '/' | '%' | '!' | '&' | '|' | '^'
        ),
        '>' => a == '-' || a == '>',
        '<' | '*' | '&' | '|' => a == b,
        _ => false,
    }
}

#[inline(always)]
fn is_three_signs(a: char, b: char, c: char) -> bool
    ensures { result ≡ is_three_signs a b c }
{
    c == '=' && a == b && (a == '<' || a == '>')
}

/// Whether a line or the text ends before the character that comes next.
#[inline(always)]
fn ends_line(next: Option<char>) -> bool
    ensures { result ≡ ends_line next }
{
    match next {
        None => true,
        Some(c) => c == '\n',
    }
}

/// The shape, where a piece may have it.
#[inline(always)]
fn where_so(is_so: bool, shape: Shape) -> Option<Shape>
    ensures { result ≡ where_so is_so shape }
{
    if is_so { Some(shape) } else { None }
}

/// What a piece is that ends in this state, before this character or the end of the text, where one
/// may end there.
#[inline(always)]
pub fn shape_before(state: State, next: Option<char>) -> Option<Shape>
    ensures { result ≡ shape_before state next }
{
    match state {
        State::Blank => Some(Shape::Gap),
        State::Line | State::Pragma(_, 6) => where_so(ends_line(next), Shape::Gap),
        State::Comment(_) => where_so(next.is_none(), Shape::OpenComment),
        State::Pragma(hash, _) => where_so(!hash, Shape::Word),
        State::Word => Some(Shape::Word),
        State::Physical => Some(Shape::Physical),
        State::Quote => where_so(ends_line(next), Shape::OpenText),
        State::Text => Some(Shape::Text),
        State::Slash | State::One(_) | State::Two(_, _) | State::Three => Some(Shape::Sign),
        State::Zero => Some(Shape::Whole),
        State::Digits(ended) | State::Based(_, ended) => where_so(ended, Shape::Whole),
        State::Pointed => Some(Shape::Decimal),
        State::Part(ended) | State::Exponent(ended) => where_so(ended, Shape::Decimal),
        State::Ended(unit) => Some(Shape::Time(unit)),
        _ => None,
    }
}

/// The unit of two letters that a first letter begins.
#[inline(always)]
fn unit_begun(c: char) -> State
    ensures { result ≡ unit_begun c }
{
    match c {
        'd' => State::Half(Unit::Dt),
        'n' => State::Half(Unit::Ns),
        'u' | 'µ' | 'μ' => State::Half(Unit::Us),
        'm' => State::Half(Unit::Ms),
        's' => State::Ended(Unit::S),
        _ => State::Nothing,
    }
}

/// The first character of a piece.
#[inline(always)]
fn at_start(first: bool, c: char) -> State
    ensures { result ≡ at_start first c }
{
    if is_blank(c) {
        return State::Blank;
    }
    match c {
        '/' => State::Slash,
        '@' if first => State::Line,
        '#' if first => State::Pragma(true, 0),
        'p' if first => State::Pragma(false, 1),
        '$' => State::Dollar,
        '"' => State::Quote,
        '0' => State::Zero,
        '.' => State::Point,
        _ if c.is_ascii_digit() => State::Digits(true),
        _ if is_one_sign(c) => State::One(c),
        _ if begins_word(c) => State::Word,
        _ => State::Nothing,
    }
}

/// What follows `/`.
#[inline(always)]
fn at_slash(c: char) -> State
    ensures { result ≡ at_slash c }
{
    match c {
        '/' => State::Line,
        '*' => State::Comment(false),
        '=' => State::Two('/', '='),
        _ => State::Nothing,
    }
}

/// What follows in a comment.
#[inline(always)]
fn at_comment(star: bool, c: char) -> State
    ensures { result ≡ at_comment star c }
{
    if star && c == '/' {
        State::Blank
    } else {
        State::Comment(c == '*')
    }
}

/// What follows so many letters of `pragma`.
#[inline(always)]
fn at_pragma(hash: bool, letters: u8, c: char) -> State
    ensures { result ≡ at_pragma hash letters c }
{
    if letters < 6 && c == PRAGMA[letters as usize] {
        State::Pragma(hash, letters + 1)
    } else if continues_word(c) {
        if hash { State::Nothing } else { State::Word }
    } else if letters < 6 || c == '\n' {
        State::Nothing
    } else {
        State::Line
    }
}

/// What follows decimal digits that may end there.
#[inline(always)]
fn at_number(c: char) -> State
    ensures { result ≡ at_number c }
{
    if c == 'e' || c == 'E' {
        State::Letter
    } else {
        unit_begun(c)
    }
}

/// What follows decimal digits.
#[inline(always)]
fn at_digits(ended: bool, c: char) -> State
    ensures { result ≡ at_digits ended c }
{
    if c.is_ascii_digit() {
        State::Digits(true)
    } else if !ended {
        State::Nothing
    } else if c == '_' {
        State::Digits(false)
    } else if c == '.' {
        State::Pointed
    } else {
        at_number(c)
    }
}

/// What follows `0`.
#[inline(always)]
fn at_zero(c: char) -> State
    ensures { result ≡ at_zero c }
{
    match c {
        'x' | 'X' => State::Based(Base::Hexadecimal, false),
        'b' | 'B' => State::Based(Base::Binary, false),
        'o' => State::Based(Base::Octal, false),
        _ => at_digits(true, c),
    }
}

/// What follows `0`, the letter of a base, and digits.
#[inline(always)]
fn at_based(base: Base, ended: bool, c: char) -> State
    ensures { result ≡ at_based base ended c }
{
    if is_digit_of(base, c) {
        State::Based(base, true)
    } else if ended && c == '_' {
        State::Based(base, false)
    } else {
        State::Nothing
    }
}

/// What follows a point that stands after digits, and digits after it.
#[inline(always)]
fn at_part(ended: bool, c: char) -> State
    ensures { result ≡ at_part ended c }
{
    if c.is_ascii_digit() {
        State::Part(true)
    } else if !ended {
        State::Nothing
    } else if c == '_' {
        State::Part(false)
    } else {
        at_number(c)
    }
}

/// What follows a number with its exponent.
#[inline(always)]
fn at_exponent(ended: bool, c: char) -> State
    ensures { result ≡ at_exponent ended c }
{
    if c.is_ascii_digit() {
        State::Exponent(true)
    } else if !ended {
        State::Nothing
    } else if c == '_' {
        State::Exponent(false)
    } else {
        unit_begun(c)
    }
}

/// This state where a character is a decimal digit.
#[inline(always)]
fn at_digit(next: State, c: char) -> State
    ensures { result ≡ at_digit next c }
{
    if c.is_ascii_digit() {
        next
    } else {
        State::Nothing
    }
}

/// The second letter of a unit.
#[inline(always)]
fn at_half(unit: Unit, c: char) -> State
    ensures { result ≡ at_half unit c }
{
    if c == if unit == Unit::Dt { 't' } else { 's' } {
        State::Ended(unit)
    } else {
        State::Nothing
    }
}

/// What follows in a text.
#[inline(always)]
fn at_quote(c: char) -> State
    ensures { result ≡ at_quote c }
{
    match c {
        '"' => State::Text,
        '\n' => State::Nothing,
        _ => State::Quote,
    }
}

/// What follows in a number.
#[inline(always)]
fn at_numeral(state: State, c: char) -> State
    ensures { result ≡ at_numeral state c }
{
    match state {
        State::Zero => at_zero(c),
        State::Digits(ended) => at_digits(ended, c),
        State::Based(base, ended) => at_based(base, ended, c),
        State::Point => at_digit(State::Part(true), c),
        State::Pointed if c.is_ascii_digit() => State::Part(true),
        State::Pointed => at_number(c),
        State::Part(ended) => at_part(ended, c),
        State::Letter if c == '+' || c == '-' => State::Signed,
        State::Letter | State::Signed => at_digit(State::Exponent(true), c),
        State::Exponent(ended) => at_exponent(ended, c),
        State::Half(unit) => at_half(unit, c),
        _ => State::Nothing,
    }
}

/// What a piece is with one more character.
#[inline(always)]
pub fn step(state: State, c: char) -> State
    ensures { result ≡ step state c }
{
    match state {
        State::Start(first) => at_start(first, c),
        State::Line => if c == '\n' {
            State::Nothing
        } else {
            State::Line
        },
        State::Slash => at_slash(c),
        State::Comment(star) => at_comment(star, c),
        State::Pragma(hash, letters) => at_pragma(hash, letters, c),
        State::Word => if continues_word(c) {
            State::Word
        } else {
            State::Nothing
        },
        State::Dollar | State::Physical => at_digit(State::Physical, c),
        State::Quote => at_quote(c),
        State::One(a) => if is_two_signs(a, c) {
            State::Two(a, c)
        } else {
            State::Nothing
        },
        State::Two(a, b) => if is_three_signs(a, b, c) {
            State::Three
        } else {
            State::Nothing
        },
        State::Nothing | State::Blank | State::Text | State::Three | State::Ended(_) =>
            State::Nothing,
        _ => at_numeral(state, c),
    }
}
