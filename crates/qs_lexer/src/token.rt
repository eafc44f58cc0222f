use qs_values::{Frac, Name, Span};

/// A unit of time (OpenQASM 3.0, timing literals): the machine's tick, nanoseconds, microseconds,
/// milliseconds and seconds.
#[derive(Clone, Copy, Debug, PartialEq, Eq)]
pub enum Unit {
    Dt,
    Ns,
    Us,
    Ms,
    S,
}

/// What a token is, with its value.
#[derive(Clone, Copy, Debug, PartialEq, Eq)]
pub enum TokenKind {
    /// A word: a name or a reserved word.
    Word,
    /// A physical qubit, by its number.
    Physical(u32),
    /// A whole number.
    Whole(u64),
    /// A number with a point or an exponent, cut to 17 decimals.
    Decimal(Frac),
    /// A number, cut to 17 decimals, of this unit.
    Time(Frac, Unit),
    /// A text in quotes.
    Text,
    /// A bracket, an operator or a mark.
    Sign,
}

/// A lexeme of a source: where it begins, its characters as they stand there (a text's with its
/// quotes), and what it is.
#[derive(Debug, Drop)]
pub struct Token {
    pub span: Span,
    pub text: Name,
    pub kind: TokenKind,
}
