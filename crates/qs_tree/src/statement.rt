use crate::assign::AssignOp;
use crate::expr::{Expr, TypeExpr};
use crate::gate::Call;
use crate::name::Ident;
use crate::operand::{Operand, Place, Value};
use crate::pulse::{CalName, Item, Param};
use qs_values::{Boxed, List, Name, Span};

/// A statement, at its first token.
#[cycle(syntax)]
#[derive(Debug, Drop)]
pub struct Stmt {
    pub span: Span,
    pub kind: StmtKind,
}

/// What a statement is: one kind for each form of the grammar (OpenQASM 3.0, statements), with its
/// parts in their order. Those up to `Defcal` stand at the top of a source alone.
#[cycle(syntax)]
#[derive(Debug, Drop)]
pub enum StmtKind {
    /// `include "file";`, the text with its quotes.
    Include(Name),
    /// `defcalgrammar "name";`, the text with its quotes.
    DefcalGrammar(Name),
    /// `qubit q;` or `qubit[size] q;`.
    Qubit(Option<Expr>, Ident),
    /// `input type name;`.
    Input(TypeExpr, Ident),
    /// `output type name;`.
    Output(TypeExpr, Ident),
    /// `gate name(parameters) qubits { calls }`: the parameters are `None` without brackets. Each
    /// statement of the body is a call.
    Gate(Ident, Option<List<Ident>>, List<Ident>, List<Stmt>),
    /// `cal { items }`.
    Cal(List<Item>),
    /// `defcal name(parameters) operands -> bit { items }`: the parameters are `None` without
    /// brackets, and the truth value says whether `-> bit` stands there.
    Defcal(CalName, Option<List<Param>>, List<Operand>, bool, List<Item>),
    /// `type name = value;`, where the truth value says whether `const` stands before it.
    Init(bool, TypeExpr, Ident, Value),
    /// `type name;`.
    Declare(TypeExpr, Ident),
    /// `stretch name;`.
    Stretch(Ident),
    /// A call of a gate, or of an instruction of OpenPulse.
    GateCall(Call),
    /// `place = value;`.
    Assign(Place, Value),
    /// An assignment by an operator, as `place += expression;`.
    Update(Place, AssignOp, Expr),
    /// `measure operand;` or `measure operand -> place;`.
    Measure(Operand, Option<Place>),
    /// `reset operand;`.
    Reset(Operand),
    /// `barrier;` or `barrier operands;`.
    Barrier(List<Operand>),
    /// `delay[time] operands;`.
    Delay(Expr, List<Operand>),
    /// `box { statements }` or `box[time] { statements }`.
    Box(Option<Expr>, List<Stmt>),
    /// `if (test) body` or `if (test) body else body`.
    If(Expr, Body, Option<Body>),
    /// `while (test) body`.
    While(Expr, Body),
    /// `for type name in range body`.
    For(TypeExpr, Ident, Range, Body),
    /// `break;`.
    Break,
    /// `continue;`.
    Continue,
    /// `end;`.
    End,
}

/// What an `if`, a `while` or a `for` does: one statement, or those in braces.
#[cycle(syntax)]
#[derive(Debug, Drop)]
pub enum Body {
    /// One statement without braces.
    One(Boxed<Stmt>),
    /// `{ statements }`.
    Braces(List<Stmt>),
}

/// The values that a `for` goes through, at the first bracket.
#[cycle(syntax)]
#[derive(Debug, Drop)]
pub enum Range {
    /// `[first:last]` or, with a step, `[first:step:last]`.
    Interval(Span, Boxed<Expr>, Option<Boxed<Expr>>, Boxed<Expr>),
    /// `{values}`.
    Set(Span, List<Expr>),
}
