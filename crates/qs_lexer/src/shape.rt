use crate::token::Unit;

/// What a piece of a source is: a gap, a comment or a text that is left open, or a lexeme.
#[derive(Clone, Copy, Debug, PartialEq, Eq)]
pub enum Shape {
    Gap,
    OpenComment,
    OpenText,
    Word,
    Physical,
    Whole,
    Decimal,
    Time(Unit),
    Text,
    Sign,
}
