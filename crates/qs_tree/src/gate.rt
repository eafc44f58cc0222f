use crate::expr::Expr;
use crate::name::Ident;
use crate::operand::Operand;
use qs_values::List;

/// A call of a gate (OpenQASM 3.0, gate call statements), without its `;`.
#[cycle(syntax)]
#[derive(Debug, Drop)]
pub struct Call {
    /// The modifiers, the outermost first.
    pub modifiers: List<Modifier>,
    pub name: Ident,
    /// The parameters in brackets, or `None` without brackets.
    pub args: Option<List<Expr>>,
    /// The qubits; a call of `gphase` needs none.
    pub operands: List<Operand>,
}

/// A modifier of a call, without its `@` (OpenQASM 3.0, quantum gate modifiers).
#[cycle(syntax)]
#[derive(Debug, Drop)]
pub enum Modifier {
    /// `inv`
    Inv,
    /// `pow(exponent)`
    Pow(Expr),
    /// `ctrl` or `ctrl(count)`
    Ctrl(Option<Expr>),
    /// `negctrl` or `negctrl(count)`
    NegCtrl(Option<Expr>),
}
