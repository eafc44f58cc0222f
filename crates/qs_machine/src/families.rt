ghost use Rattle.std.specs.Prelude.{◌≡◌, ◌≤◌, ℕ, List as PureList, length, map, IfOk};
ghost use Rattle.serde_json.specs.View.{view};
ghost use Rattle.qs_machine.specs.declared.machine.Family.{Family as MachineFamily};
ghost use Rattle.qs_machine.specs.declared.refusal.MachineRefusal.TheVariants.{Memory as OutOfMemory};
ghost use Rattle.qs_machine.specs.Limits.{AreInByteOrder};
ghost use Rattle.qs_machine.specs.Values.{passing};
ghost use Rattle.qs_machine.specs.Steps.{IsUnlessMemory, result_map};
ghost use Rattle.qs_machine.specs.Table.{families_of, family_of, members_of, place_of, reaches_alone, texts_of};

use crate::forms::{array_in, is_short_name, wrong};
use crate::machine::{Family, Port};
use crate::names::Names;
use crate::refusal::{Field, MachineRefusal, Part};
use qs_values::{FrameStart, List, Memory, Name};
use serde_json::Value;
use std::alloc::Global;

/// What is told of a family that is wrong in its form.
fn wrong_family(alloc: Global, family: &str) -> Result<MachineRefusal, Memory>
    ensures { IfOk result
        (λ refusal. refusal ≡ MachineRefusal.FieldWrong Field.Families (Part.Family family.now)) }
{
    let name = Name::copy_of(alloc, family)?;
    Ok(MachineRefusal::FieldWrong {
        field: Field::Families,
        part: Part::Family(name),
    })
}

/// What is told of a family without one frame for each qubit.
fn unfit_family(alloc: Global, family: &str) -> Result<MachineRefusal, Memory>
    ensures { IfOk result (λ refusal. refusal ≡ MachineRefusal.FamilyWrong family.now) }
{
    let name = Name::copy_of(alloc, family)?;
    Ok(MachineRefusal::FamilyWrong { family: name })
}

/// The texts of the family with this name.
fn texts_of<'v>(
    alloc: Global,
    family: &str,
    value: &'v Value,
) -> Result<List<&'v str>, MachineRefusal>
    ensures { IsUnlessMemory OutOfMemory (texts_of family.now (view value.now))
        (result_map (map (λ s. s.now)) result) }
{
    let Some(entries) = array_in(value) else {
        return Err(wrong_family(alloc, family)?);
    };
    let mut texts = List::new(alloc);
    for entry in entries {
        let Some(text) = entry.as_str() else {
            return Err(wrong_family(alloc, family)?);
        };
        texts.push(text)?;
    }
    Ok(texts)
}

/// Whether the port of the frame with this number reaches this qubit and no other.
fn reaches_alone(ports: &[Port], frames: &[FrameStart], qubit: usize, frame: usize) -> bool
    ensures { result ≡ reaches_alone ports.now frames.now qubit frame }
{
    let Some(frame) = frames.get(frame) else {
        return false;
    };
    let Some(port) = ports.get(frame.port as usize) else {
        return false;
    };
    let reached = port.qubits.as_slice();
    reached.len() == 1 && reached[0] as usize == qubit
}

/// The number of the frame with this name, where it is one for this qubit.
fn member_of(
    ports: &[Port],
    frames: &[FrameStart],
    names: &Names,
    qubit: usize,
    text: &str,
) -> Option<u16>
    requires few { length frames.now ≤ 256 }
    requires named { names.now ≡ map (λ f. f.name) frames.now }
    ensures { result ≡ passing (reaches_alone ports.now frames.now qubit)
        (place_of text.now (map (λ f. f.name) frames.now)) }
{
    match names.place_of(text) {
        Some(frame) if reaches_alone(ports, frames, qubit, frame) => Some(frame as u16),
        _ => None,
    }
}

/// The frames of these names, for the qubits in order.
fn members_of(
    alloc: Global,
    ports: &[Port],
    frames: &[FrameStart],
    names: &Names,
    family: &str,
    texts: &[&str],
) -> Result<List<u16>, MachineRefusal>
    requires few { length frames.now ≤ 256 }
    requires named { names.now ≡ map (λ f. f.name) frames.now }
    ensures { IsUnlessMemory OutOfMemory
        (members_of ports.now frames.now family.now (map (λ s. s.now) texts.now)) result }
{
    let mut members = List::new(alloc);
    for text in texts {
        let Some(member) = member_of(ports, frames, names, members.len(), text) else {
            return Err(unfit_family(alloc, family)?);
        };
        members.push(member)?;
    }
    Ok(members)
}

/// A family by its key and value.
fn family_of(
    alloc: Global,
    qubits: u8,
    ports: &[Port],
    frames: &[FrameStart],
    names: &Names,
    family: &str,
    value: &Value,
) -> Result<Family, MachineRefusal>
    requires few { length frames.now ≤ 256 }
    requires named { names.now ≡ map (λ f. f.name) frames.now }
    ensures value { (before : PureList MachineFamily) → IsUnlessMemory OutOfMemory
        (family_of qubits ports.now frames.now before (family.now, view value.now)) result }
    ensures named { IfOk result (λ f. f.name ≡ family.now) }
{
    if !is_short_name(family) {
        return Err(wrong_family(alloc, family)?);
    }
    let texts = texts_of(alloc, family, value)?;
    if texts.len() != usize::from(qubits) {
        return Err(unfit_family(alloc, family)?);
    }
    let frames = members_of(alloc, ports, frames, names, family, texts.as_slice())?;
    Ok(Family {
        name: Name::copy_of(alloc, family)?,
        frames,
    })
}

/// The families of a table, on these ports and frames. They stand in the order of their names' bytes.
pub fn families_of(
    alloc: Global,
    qubits: u8,
    ports: &[Port],
    frames: &[FrameStart],
    names: &Names,
    table: &Value,
) -> Result<List<Family>, MachineRefusal>
    requires few { length frames.now ≤ 256 }
    requires named { names.now ≡ map (λ f. f.name) frames.now }
    ensures value { IsUnlessMemory OutOfMemory
        (families_of qubits ports.now frames.now (view table.now)) result }
    ensures order { IfOk result (λ families. AreInByteOrder (map (λ f. f.name) families)) }
{
    let mut families = List::new(alloc);
    let Some(value) = table.get(Field::Families.key()) else {
        return Ok(families);
    };
    let Some(entries) = value.as_object() else {
        return Err(wrong(Field::Families));
    };
    for (name, value) in entries {
        let family = family_of(alloc, qubits, ports, frames, names, name.as_str(), value)?;
        families.push(family)?;
    }
    Ok(families)
}
