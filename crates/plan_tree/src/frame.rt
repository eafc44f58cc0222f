/// A frame as it stands during a run: its phase in 2^32-ths of a full turn, and its frequency in
/// Hz.
#[derive(Clone, Copy, Debug, PartialEq, Eq)]
pub struct FrameState {
    pub phase: u32,
    pub hz: u64,
}
