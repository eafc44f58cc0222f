use crate::list::List;
use crate::name::Name;

/// What a run is given: for each qubit the bits that its captures measure, in their order, and the
/// values of the inputs in order of declaration.
#[derive(Debug, Drop)]
pub struct Tape {
    pub bits: List<List<u8>>,
    pub inputs: List<u64>,
}

/// A frame as a run begins: its port's number, its phase in 2^32-ths of a full turn, and its
/// frequency in Hz.
#[derive(Debug, Drop)]
pub struct FrameStart {
    pub name: Name,
    pub port: u8,
    pub phase: u32,
    pub hz: u64,
}
