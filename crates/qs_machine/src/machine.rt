use qs_values::{FrameStart, List, Name};

/// A machine table: the controllers, ports, frames and waveforms of a machine, its limits, and the
/// calibrations that come with it. What is in a list goes by its place there, from 0.
#[derive(Debug, Drop)]
pub struct Machine {
    /// The version of the table's format.
    pub version: u8,
    /// Picoseconds per tick.
    pub dt: u32,
    /// How many qubits the machine has. They are numbered from 0.
    pub qubits: u8,
    /// What each controller is for. The first is the hub, and no other is.
    pub controllers: List<CtlKind>,
    /// The ports. A port's number is its place in this list.
    pub ports: List<Port>,
    /// The frames as a run begins (OpenPulse grammar, frames): each one's port, its phase in
    /// 2^32-ths of a full turn, and its frequency in Hz. A frame's number is its place in this list.
    pub frames: List<FrameStart>,
    /// The waveforms that a pulse or a capture can name.
    pub waveforms: List<Wave>,
    /// The families by which a calibration names the frame of an operand.
    pub families: List<Family>,
    /// The ticks that a test of an `if` or a `while` takes.
    pub gap: u32,
    /// The most turns of one entry of a `while`. One more true test ends the whole run.
    pub budget: u32,
    /// The most values that wait in the mailbox from one controller to another.
    pub mail: u8,
    /// The text of the machine's `cal` and `defcal` statements (OpenQASM 3.0, pulse-level
    /// descriptions), or nothing.
    pub cal: Name,
}

/// What a controller is for.
#[derive(Clone, Copy, Debug, PartialEq, Eq)]
pub enum CtlKind {
    /// It follows the whole program and has no port.
    Hub,
    /// It plays pulses on its ports.
    Drive,
    /// It plays pulses on its ports and captures there.
    Acquire,
}

/// A port: where pulses are played and captured (OpenPulse grammar, ports).
#[derive(Debug, Drop)]
pub struct Port {
    pub name: Name,
    /// The number of the controller that the port belongs to, from 1, since the hub has no port.
    pub controller: u8,
    /// The numbers of the qubits that the port reaches, each of them once.
    pub qubits: List<u8>,
}

/// A waveform, which lasts one tick for each of its samples (OpenPulse grammar, waveforms).
#[derive(Debug, Drop)]
pub struct Wave {
    pub name: Name,
    pub samples: List<Sample>,
}

/// The amplitude of a waveform for one tick: its in-phase part `i` and its quadrature part `q`, on
/// a scale that is the machine's own.
#[derive(Clone, Copy, Debug, PartialEq, Eq)]
pub struct Sample {
    pub i: i16,
    pub q: i16,
}

/// A family of frames: at the place of each qubit, the number of the frame that it has there.
#[derive(Debug, Drop)]
pub struct Family {
    pub name: Name,
    pub frames: List<u16>,
}
