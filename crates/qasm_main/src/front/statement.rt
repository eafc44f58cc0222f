use qs_values::{List, Span};

/// A statement that is built. Its qubits are numbers from 0 to 2.
#[derive(Debug, Drop)]
pub enum Statement {
    /// `x` on a qubit.
    X(u8),
    /// `cx` from the first qubit to the second.
    Cx(u8, u8),
    /// `delay` of so many ticks on a qubit.
    Delay(u64, u8),
    /// `barrier` on these qubits, one or more, in the order of the source.
    Barrier(List<u8>),
}

/// A statement at its place.
#[derive(Debug, Drop)]
pub struct LocatedStatement {
    /// Where the statement's first character stands.
    pub span: Span,
    pub statement: Statement,
}
