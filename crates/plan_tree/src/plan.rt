use qs_values::{FrameStart, Input, List, Out, Ty};

/// What an event does.
#[derive(Clone, Copy, Debug, PartialEq, Eq)]
pub enum Deed {
    /// Plays a waveform with the phase and the frequency that a frame has then. The frame's number
    /// is its place in the plan, the waveform's its place in the machine table, both from 0.
    Pulse { frame: u16, wave: u16 },
}

/// An event of a block: its ticks from the block's start, its port's number, and what it does.
#[derive(Clone, Copy, Debug, PartialEq, Eq)]
pub struct Event {
    pub offset: u64,
    pub port: u8,
    pub act: Deed,
}

/// A block: what happens from one tick on, before the next statement begins.
#[derive(Debug, Drop)]
pub struct Block {
    /// The ticks from its start to that of the next statement.
    pub length: u64,
    /// Its events: in a sound plan by offset and at one offset by port, each before the block's
    /// end.
    pub events: List<Event>,
}

/// A statement of the scheduled program.
#[derive(Debug, Drop)]
pub enum PlanStmt {
    /// Events at fixed ticks of a block.
    Block(Block),
}

/// The scheduled program. What is in a list goes by its place there, from 0.
#[derive(Debug, Drop)]
pub struct Plan {
    /// The types of the variables. A register of n bits is n variables of one bit each.
    pub vars: List<Ty>,
    /// The inputs, each with the number of its first variable. A tape has one value for each.
    pub inputs: List<Input>,
    /// The outputs, each with the number of its first variable, in the order of a report's lines.
    pub outs: List<Out>,
    /// The frames as a run begins: each one's port, its phase in 2^32-ths of a full turn, and its
    /// frequency in Hz.
    pub frames: List<FrameStart>,
    /// The controller of each port, by the port's number: from 1, since the hub has no port.
    pub owner: List<u8>,
    /// How many controllers there are, the hub among them. They are numbered from 0, the hub.
    pub controllers: u8,
    /// The ticks that a test of an `if` or a `while` takes.
    pub gap: u32,
    /// The most turns of one entry of a `while`.
    pub budget: u32,
    /// The statements, one after another, the first of them from tick 0 on.
    pub body: List<PlanStmt>,
}
