ghost use Rattle.std.specs.Prelude.{◌≡◌, ◌⊎◌, Err, IfOk, map};
ghost use Rattle.serde_json.specs.View.{view};
ghost use Rattle.qs_machine.specs.declared.refusal.MachineRefusal.TheVariants.{Memory as OutOfMemory};
ghost use Rattle.qs_machine.specs.Limits.{AreInByteOrder, IsMachine};
ghost use Rattle.qs_machine.specs.Steps.{IsUnlessMemory};
ghost use Rattle.qs_machine.specs.Table.{ReadsTable, cal_of, machine_of, parts_of};

use crate::controllers::controllers_of;
use crate::families::families_of;
use crate::forms::{needed_whole, wrong};
use crate::frames::frames_of;
use crate::machine::{CtlKind, Family, Machine, Port, Wave};
use crate::ports::ports_of;
use crate::refusal::{Field, MachineRefusal};
use crate::waveforms::waveforms_of;
use qs_values::{FrameStart, List, Name};
use serde_json::Value;
use std::alloc::Global;

/// How many bytes the text of calibrations has at most.
const LONGEST_CAL: usize = 1_048_576;

/// The text of calibrations: none where the field is missing.
fn cal_of(alloc: Global, table: &Value) -> Result<Name, MachineRefusal>
    ensures { IsUnlessMemory OutOfMemory (cal_of (view table.now)) result }
{
    let Some(value) = table.get(Field::Cal.key()) else {
        return Ok(Name::copy_of(alloc, "")?);
    };
    match value.as_str() {
        Some(text) if text.len() <= LONGEST_CAL => Ok(Name::copy_of(alloc, text)?),
        _ => Err(wrong(Field::Cal)),
    }
}

/// The parts of a machine: what its table has in lists.
#[derive(Drop)]
struct Parts {
    controllers: List<CtlKind>,
    ports: List<Port>,
    frames: List<FrameStart>,
    waveforms: List<Wave>,
    families: List<Family>,
}

/// The parts of a machine of so many qubits.
fn parts_of(alloc: Global, qubits: u8, table: &Value) -> Result<Parts, MachineRefusal>
    ensures value { IsUnlessMemory OutOfMemory (parts_of qubits (view table.now)) result }
    ensures order { IfOk result (λ parts. AreInByteOrder (map (λ f. f.name) parts.families)) }
{
    let controllers = controllers_of(alloc, table)?;
    let (ports, port_names) = ports_of(alloc, qubits, controllers.len(), table)?;
    let (frames, frame_names) = frames_of(alloc, &port_names, table)?;
    let waveforms = waveforms_of(alloc, table)?;
    let families = families_of(
        alloc,
        qubits,
        ports.as_slice(),
        frames.as_slice(),
        &frame_names,
        table,
    )?;
    Ok(Parts {
        controllers,
        ports,
        frames,
        waveforms,
        families,
    })
}

/// The machine of a table, by its value.
fn machine_of(alloc: Global, table: &Value) -> Result<Machine, MachineRefusal>
    ensures value { IsUnlessMemory OutOfMemory (machine_of (view table.now)) result }
    ensures kept { IfOk result IsMachine }
{
    let version = needed_whole(table, Field::Version, 1, 1)? as u8;
    let dt = needed_whole(table, Field::Dt, 1, 1_000_000)? as u32;
    let qubits = needed_whole(table, Field::Qubits, 1, 32)? as u8;
    let parts = parts_of(alloc, qubits, table)?;
    let gap = needed_whole(table, Field::Gap, 0, 1_048_576)? as u32;
    let budget = needed_whole(table, Field::Budget, 1, 100_000)? as u32;
    let mail = needed_whole(table, Field::Mail, 1, 64)? as u8;
    let cal = cal_of(alloc, table)?;
    Ok(Machine {
        version,
        dt,
        qubits,
        controllers: parts.controllers,
        ports: parts.ports,
        frames: parts.frames,
        waveforms: parts.waveforms,
        families: parts.families,
        gap,
        budget,
        mail,
        cal,
    })
}

impl Machine {
    /// The machine of a table that is written in JSON, or the table's first fault in the order of
    /// the fields. Fields that a table doesn't have are passed over; of a key that stands twice the
    /// last value counts. The machine keeps all forms and limits. Time is linear in the bytes.
    /// `Memory` is out of memory.
    pub fn from_json(alloc: Global, bytes: &[u8]) -> Result<Machine, MachineRefusal>
        ensures value { (result ≡ Err OutOfMemory) ⊎ ReadsTable bytes.now result }
        ensures kept { IfOk result IsMachine }
    {
        match Value::from_slice(alloc, bytes) {
            Ok(table) if table.is_object() => machine_of(alloc, &table),
            Ok(_) => Err(MachineRefusal::MachineNotJson),
            Err(error) if error.is_memory() => Err(MachineRefusal::Memory),
            Err(_) => Err(MachineRefusal::MachineNotJson),
        }
    }
}
