ghost use Rattle.std.specs.Prelude.{◌≡◌, ◌≤◌, ℕ, false, length, map, IfOk};
ghost use Rattle.serde_json.specs.View.{view};
ghost use Rattle.qs_machine.specs.declared.machine.Port.{Port as MachinePort};
ghost use Rattle.qs_machine.specs.declared.refusal.MachineRefusal.TheVariants.{Memory as OutOfMemory};
ghost use Rattle.qs_machine.specs.Steps.{IsUnlessMemory, result_map};
ghost use Rattle.qs_machine.specs.Table.{frame_of, frames_of, is_among};

use crate::forms::{at_key, name_in, needed_list, whole_in, wrong_at};
use crate::names::Names;
use crate::refusal::{Field, MachineRefusal};
use qs_values::{FrameStart, List, Name};
use serde_json::Value;
use std::alloc::Global;

/// How many frames a machine has at most.
const MOST_FRAMES: usize = 256;

/// The greatest frequency in Hz, one less than 2^40.
const GREATEST_HZ: u64 = 1_099_511_627_775;

/// The greatest phase in 2^32-ths of a full turn.
const GREATEST_PHASE: u64 = 4_294_967_295;

/// A frame, which comes after those before it, whose names are lent beside them.
fn frame_of(
    alloc: Global,
    ports: &Names,
    before: &[FrameStart],
    names: &Names,
    entry: &Value,
) -> Result<FrameStart, MachineRefusal>
    requires few { length ports.now ≤ 96 }
    requires named { names.now ≡ map (λ f. f.name) before.now }
    ensures value { IsUnlessMemory OutOfMemory
        (frame_of ports.now before.now (view entry.now)) result }
    ensures fresh { IfOk result (λ f. is_among f.name names.now ≡ false) }
{
    let number = before.len();
    let name = at_key(entry, Field::Frames, number, "name")?;
    let port = at_key(entry, Field::Frames, number, "port")?;
    let hz = at_key(entry, Field::Frames, number, "frequency")?;
    let phase = at_key(entry, Field::Frames, number, "phase")?;
    let Some(name) = name_in(name) else {
        return Err(wrong_at(Field::Frames, number));
    };
    let Some(port) = port.as_str() else {
        return Err(wrong_at(Field::Frames, number));
    };
    let Some(hz) = whole_in(hz, 0, GREATEST_HZ) else {
        return Err(wrong_at(Field::Frames, number));
    };
    let Some(phase) = whole_in(phase, 0, GREATEST_PHASE) else {
        return Err(wrong_at(Field::Frames, number));
    };
    if names.contains(name) {
        return Err(MachineRefusal::NameDoubled {
            field: Field::Frames,
            number,
        });
    }
    let Some(port) = ports.place_of(port) else {
        return Err(MachineRefusal::FrameWrong { number });
    };
    Ok(FrameStart {
        name: Name::copy_of(alloc, name)?,
        port: port as u8,
        phase: phase as u32,
        hz,
    })
}

/// The frames of a table on ports of these names, and the frames' names.
pub fn frames_of(
    alloc: Global,
    ports: &Names,
    table: &Value,
) -> Result<(List<FrameStart>, Names), MachineRefusal>
    requires few { length ports.now ≤ 96 }
    ensures value { IsUnlessMemory OutOfMemory (frames_of ports.now (view table.now))
        (result_map (λ p. p.0) result) }
    ensures named { IfOk result (λ p. p.1 ≡ map (λ f. f.name) p.0) }
    ensures counted { IfOk result (λ p. length p.0 ≤ 256) }
{
    let entries = needed_list(table, Field::Frames, 0, MOST_FRAMES)?;
    let mut frames = List::new(alloc);
    let mut names = Names::new(alloc);
    for entry in entries {
        let frame = frame_of(alloc, ports, frames.as_slice(), &names, entry)?;
        names.push(alloc, frame.name.as_str())?;
        frames.push(frame)?;
    }
    Ok((frames, names))
}
