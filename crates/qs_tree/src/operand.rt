use crate::expr::Expr;
use crate::name::Ident;
use qs_values::{Boxed, Span};

/// A name, or one element of what it names: what is assigned to, or an operand.
#[cycle(syntax)]
#[derive(Debug, Drop)]
pub struct Place {
    pub name: Ident,
    /// The index in brackets, where there is one.
    pub index: Option<Boxed<Expr>>,
}

/// What a quantum statement acts on.
#[cycle(syntax)]
#[derive(Debug, Drop)]
pub enum Operand {
    /// A declared qubit, a register or one of its elements; in a calibration also a frame.
    Named(Place),
    /// A physical qubit, by its number.
    PhysicalQubit(Span, u32),
}

/// What is assigned, or what a declaration begins with.
#[cycle(syntax)]
#[derive(Debug, Drop)]
pub enum Value {
    /// The value of an expression.
    Expression(Expr),
    /// `measure operand`: the result of a measurement.
    Measurement(Operand),
}
