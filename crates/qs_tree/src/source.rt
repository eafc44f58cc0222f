use crate::statement::Stmt;
use qs_values::{List, Name};

/// A whole source (OpenQASM 3.0, program).
#[derive(Debug, Drop)]
pub struct Source {
    /// The number after `OPENQASM`, as it stands there, where the source has a version line.
    pub version: Option<Name>,
    /// The statements in their order.
    pub body: List<Stmt>,
}
