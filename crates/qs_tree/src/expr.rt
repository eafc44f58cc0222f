use crate::operator::{BinOp, UnOp};
use crate::statement::Stmt;
use qs_lexer::Unit;
use qs_values::{Boxed, Frac, List, Name, Num, Span};

/// An expression, at its first token.
#[cycle(syntax)]
#[derive(Debug, Drop)]
pub struct Expr {
    pub span: Span,
    pub kind: ExprKind,
}

/// What an expression is: one kind for each form of the grammar (OpenQASM 3.0, expressions), with its
/// parts in their order.
#[cycle(syntax)]
#[derive(Debug, Drop)]
pub enum ExprKind {
    /// A whole number.
    Whole(u64),
    /// A number with a point or an exponent, cut to 17 decimals.
    Decimal(Frac),
    /// A time: the number before its unit, cut to 17 decimals, in that unit.
    Time(Frac, Unit),
    /// A text, as it stands in the source, with its quotes.
    Text(Name),
    /// `true` or `false`.
    Truth(bool),
    /// A name; `pi`, `π`, `tau` and `τ` are names of constants.
    Name(Name),
    /// A name with an index in brackets.
    Index(Name, Boxed<Expr>),
    /// A physical qubit, by its number.
    Physical(u32),
    /// A call of a function with its arguments.
    Call(Name, List<Expr>),
    /// A cast.
    Cast(TypeExpr, Boxed<Expr>),
    /// `durationof({ statements })`: how long these statements take.
    DurationOf(List<Stmt>),
    /// An expression in brackets.
    Group(Boxed<Expr>),
    /// An operator and its operand.
    Unary(UnOp, Boxed<Expr>),
    /// Two operands with an operator between.
    Binary(Boxed<Expr>, BinOp, Boxed<Expr>),
    /// A constant that is put in for a parameter; no source spells it.
    Number(Num),
}

/// The word of a type.
#[derive(Clone, Copy, Debug, PartialEq, Eq)]
pub enum TypeWord {
    Bit,
    Int,
    Uint,
    Angle,
    Bool,
    Duration,
}

/// A type as it is written: its word, and the width in brackets where it has one. `bool` and
/// `duration` have none.
#[cycle(syntax)]
#[derive(Debug, Drop)]
pub struct TypeExpr {
    pub span: Span,
    pub word: TypeWord,
    pub width: Option<Boxed<Expr>>,
}
