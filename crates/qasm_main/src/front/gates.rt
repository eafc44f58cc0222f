ghost use Rattle.std.specs.Prelude.{◌≡◌, ◌≤◌, IfOk, length, slice_get};
ghost use Rattle.qasm_main.specs.front.Gates.{drive_of, drive_on, frames_in, gates_of, shape_of};

use qs_machine::{Family, Machine, Wave};
use qs_values::{FrameStart, List, Memory};
use std::alloc::Global;

/// A waveform: its number, which is its place in the machine's list, and how many ticks it lasts.
#[derive(Clone, Copy)]
pub struct Shape {
    pub wave: u16,
    pub ticks: u64,
}

/// Where a qubit is driven: a frame by its number, and that of its port.
#[derive(Clone, Copy)]
pub struct Drive {
    pub frame: u16,
    pub port: u8,
}

/// What a machine plays for the gates that are built.
#[derive(Drop)]
pub struct Gates {
    pub x: Shape,
    pub cx: Shape,
    /// Where each qubit is driven, by the qubit's number.
    pub drives: List<Drive>,
}

/// What a machine plays for `x` and `cx`, and where it drives each qubit.
///
/// # Errors
///
/// `Memory` where out of memory.
pub fn gates_of(alloc: Global, machine: &Machine) -> Result<Gates, Memory>
    requires { length machine.now.waveforms ≤ 256 }
    ensures { IfOk result (λ gates. gates ≡ gates_of machine.now) }
{
    let mut drives = List::new(alloc);
    for frame in frames_in(machine.families.as_slice(), "drive") {
        drives.push(drive_on(machine.frames.as_slice(), *frame))?;
    }
    Ok(Gates {
        x: shape_of(machine.waveforms.as_slice(), "w4"),
        cx: shape_of(machine.waveforms.as_slice(), "w8"),
        drives,
    })
}

/// The waveform of this name. Where there is none, its number is past the list, and it lasts no
/// tick.
fn shape_of(waves: &[Wave], name: &str) -> Shape
    requires { length waves.now ≤ 256 }
    ensures { result ≡ shape_of waves.now name.now }
{
    let mut number = 0;
    for wave in waves {
        if wave.name.as_str() == name {
            return Shape {
                wave: number,
                ticks: wave.samples.len() as u64,
            };
        }
        number += 1;
    }
    Shape {
        wave: number,
        ticks: 0,
    }
}

/// The frames of the family of this name, qubit by qubit, or none where there is no such family.
fn frames_in<'a>(families: &'a [Family], name: &str) -> &'a [u16]
    ensures { result.now ≡ frames_in families.now name.now }
{
    for family in families {
        if family.name.as_str() == name {
            return family.frames.as_slice();
        }
    }
    &[]
}

/// A frame and its port.
fn drive_on(frames: &[FrameStart], frame: u16) -> Drive
    ensures { result ≡ drive_on frames.now frame }
{
    let port = match frames.get(frame as usize) {
        Some(start) => start.port,
        None => 0,
    };
    Drive { frame, port }
}

/// Where a qubit is driven.
pub fn drive_of(gates: &Gates, qubit: u8) -> Drive
    ensures { result ≡ drive_of gates.now qubit }
{
    match gates.drives.as_slice().get(qubit as usize) {
        Some(drive) => *drive,
        None => Drive { frame: 0, port: 0 },
    }
}
