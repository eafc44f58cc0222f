use crate::expr::{Expr, TypeExpr};
use crate::name::Ident;
use crate::statement::Stmt;
use qs_values::Span;

/// What a `defcal` gives a calibration for (OpenPulse grammar, defcal).
#[derive(Debug, Drop)]
pub enum CalName {
    /// A gate of this name.
    Gate(Ident),
    /// `measure`
    Measure,
    /// `reset`
    Reset,
}

/// A parameter of a `defcal`.
#[cycle(syntax)]
#[derive(Debug, Drop)]
pub enum Param {
    /// `type name`, which takes any argument.
    Free(TypeExpr, Ident),
    /// A constant, which the argument has to equal.
    Fixed(Expr),
}

/// An item of a `cal` or a `defcal` at its first token (OpenPulse grammar, calibration blocks).
#[cycle(syntax)]
#[derive(Debug, Drop)]
pub enum Item {
    /// `port name;`, where the truth value says whether `extern` stands before it.
    Port(Span, bool, Ident),
    /// `extern frame name;`.
    ExternFrame(Span, Ident),
    /// `extern waveform name;`.
    ExternWaveform(Span, Ident),
    /// `frame name = expression;`.
    Frame(Span, Ident, Expr),
    /// `return expression;`.
    Return(Span, Expr),
    /// A statement, at its own first token.
    Statement(Stmt),
}
