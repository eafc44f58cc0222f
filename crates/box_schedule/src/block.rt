use qs_values::{Affine, List, Span};

/// A block: timed operations that start together on all qubits, in order of the text.
#[derive(Debug, Drop)]
pub struct TBlock {
    pub ops: List<TOp>,
}

/// A timed operation: a leaf call, a measurement, a reset, a delay, a barrier or a box (OpenQASM 3.0,
/// circuit timing).
#[derive(Debug, Drop)]
pub struct TOp {
    /// Where it stands in the source.
    pub span: Span,
    /// The numbers of its qubits.
    pub qubits: List<u8>,
    /// How many ticks it lasts; 0 for a barrier, and not read at a box. Below 0 it is refused.
    pub length: Affine,
    /// The operations of a box, and `None` for anything else.
    pub inner: Option<List<TOp>>,
    /// The length in ticks that a box states, as in `box[d]`.
    pub fixed: Option<u64>,
    /// Whether it is a barrier.
    pub barrier: bool,
}

/// When the operations of a block begin.
#[derive(Debug, Drop)]
pub struct Placed {
    /// How many ticks the block lasts.
    pub length: u64,
    /// The tick of the block at which each operation begins, in order of the text.
    pub starts: List<u64>,
}
