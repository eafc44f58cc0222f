ghost use Rattle.std.specs.Prelude.{◌≡◌, IfOk};
ghost use Rattle.qs_machine.specs.BuiltIn.{built_in, calibrations, controllers, families, family_of, flat, frame_on, frames, port_of, ports, waveforms};
ghost use Rattle.qs_machine.specs.Limits.{IsMachine};

use crate::machine::{CtlKind, Family, Machine, Port, Sample, Wave};
use qs_values::{FrameStart, List, Memory, Name};
use std::alloc::Global;

const FIVE_GHZ: u64 = 5_000_000_000;

/// The sample that fills each of the waveforms.
const LEVEL: Sample = Sample { i: 1000, q: 0 };

/// The calibrations of the gates and of the measurement.
const CALIBRATIONS: &str = "\
defcal x q { play(drive(q), w4); }
defcal sx q { play(drive(q), w4); }
defcal rz(angle[32] t) q { shift_phase(drive(q), t); }
defcal cx a, b { play(drive(a), w8); play(drive(b), w8); }
defcal measure q -> bit { return capture_v2(acquire(q), r20); }
";

fn controllers(alloc: Global) -> Result<List<CtlKind>, Memory>
    ensures { IfOk result (λ all. all ≡ controllers) }
{
    let all = vec![in alloc;
        CtlKind::Hub,
        CtlKind::Drive,
        CtlKind::Drive,
        CtlKind::Drive,
        CtlKind::Acquire,
    ]?;
    Ok(List::from_vec(all))
}

/// A port that reaches one qubit.
fn port_of(alloc: Global, name: &str, controller: u8, qubit: u8) -> Result<Port, Memory>
    ensures { IfOk result (λ port. port ≡ port_of name.now controller qubit) }
{
    Ok(Port {
        name: Name::copy_of(alloc, name)?,
        controller,
        qubits: List::from_vec(vec![in alloc; qubit]?),
    })
}

fn ports(alloc: Global) -> Result<List<Port>, Memory>
    ensures { IfOk result (λ all. all ≡ ports) }
{
    let all = vec![in alloc;
        port_of(alloc, "d0", 1, 0)?,
        port_of(alloc, "d1", 2, 1)?,
        port_of(alloc, "d2", 3, 2)?,
        port_of(alloc, "a0", 4, 0)?,
        port_of(alloc, "a1", 4, 1)?,
        port_of(alloc, "a2", 4, 2)?,
    ]?;
    Ok(List::from_vec(all))
}

/// A frame of 5 GHz and phase 0 on a port.
fn frame_on(alloc: Global, name: &str, port: u8) -> Result<FrameStart, Memory>
    ensures { IfOk result (λ frame. frame ≡ frame_on name.now port) }
{
    Ok(FrameStart {
        name: Name::copy_of(alloc, name)?,
        port,
        phase: 0,
        hz: FIVE_GHZ,
    })
}

fn frames(alloc: Global) -> Result<List<FrameStart>, Memory>
    ensures { IfOk result (λ all. all ≡ frames) }
{
    let all = vec![in alloc;
        frame_on(alloc, "d0f", 0)?,
        frame_on(alloc, "d1f", 1)?,
        frame_on(alloc, "d2f", 2)?,
        frame_on(alloc, "a0f", 3)?,
        frame_on(alloc, "a1f", 4)?,
        frame_on(alloc, "a2f", 5)?,
    ]?;
    Ok(List::from_vec(all))
}

/// A waveform of one level, for so many ticks.
fn flat(alloc: Global, name: &str, ticks: usize) -> Result<Wave, Memory>
    ensures { IfOk result (λ wave. wave ≡ flat name.now ticks) }
{
    Ok(Wave {
        name: Name::copy_of(alloc, name)?,
        samples: List::from_vec(vec![in alloc; LEVEL; ticks]?),
    })
}

fn waveforms(alloc: Global) -> Result<List<Wave>, Memory>
    ensures { IfOk result (λ all. all ≡ waveforms) }
{
    let all = vec![in alloc;
        flat(alloc, "w4", 4)?,
        flat(alloc, "w8", 8)?,
        flat(alloc, "r20", 20)?,
    ]?;
    Ok(List::from_vec(all))
}

/// A family by its name and its frames' numbers.
fn family_of(alloc: Global, name: &str, frames: &[u16]) -> Result<Family, Memory>
    ensures { IfOk result (λ family. family ≡ family_of name.now frames.now) }
{
    Ok(Family {
        name: Name::copy_of(alloc, name)?,
        frames: List::from_vec(Vec::from_slice(alloc, frames)?),
    })
}

fn families(alloc: Global) -> Result<List<Family>, Memory>
    ensures { IfOk result (λ all. all ≡ families) }
{
    let all = vec![in alloc;
        family_of(alloc, "acquire", &[3, 4, 5])?,
        family_of(alloc, "drive", &[0, 1, 2])?,
    ]?;
    Ok(List::from_vec(all))
}

#[tactic(auto, unfolding(crate::specs::BuiltIn::calibrations))]
fn calibrations(alloc: Global) -> Result<Name, Memory>
    ensures { IfOk result (λ text. text ≡ calibrations) }
{
    Ok(Name::copy_of(alloc, CALIBRATIONS)?)
}

impl Machine {
    /// The machine that is built in: three qubits, each with a drive port that has a controller of
    /// its own, and with an acquire port on one controller for all. A tick is 1 ns. `Memory` is out
    /// of memory.
    pub fn builtin(alloc: Global) -> Result<Machine, Memory>
        ensures value { IfOk result (λ machine. machine ≡ built_in) }
        ensures kept { IfOk result IsMachine }
    {
        Ok(Machine {
            version: 1,
            dt: 1000,
            qubits: 3,
            controllers: controllers(alloc)?,
            ports: ports(alloc)?,
            frames: frames(alloc)?,
            waveforms: waveforms(alloc)?,
            families: families(alloc)?,
            gap: 10,
            budget: 100,
            mail: 4,
            cal: calibrations(alloc)?,
        })
    }
}
