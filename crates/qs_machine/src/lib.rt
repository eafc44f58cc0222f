//! Machine tables and tapes: what a machine has, the machine that is built in, and the readers of
//! both from JSON.
#![tactic(auto)]

mod builtin;
mod controllers;
mod families;
mod forms;
mod frames;
mod laws;
mod machine;
mod names;
mod ports;
mod refusal;
mod table;
mod tape;
mod waveforms;

pub use laws::read_once;
pub use machine::{CtlKind, Family, Machine, Port, Sample, Wave};
pub use refusal::{Field, MachineRefusal, Part, TapeField, TapeRefusal};
pub use tape::tape_from_json;
