ghost use Rattle.std.specs.Prelude.{◌≡◌, ◌≤◌, ℕ, false, length, map, IfOk};
ghost use Rattle.serde_json.specs.View.{view};
ghost use Rattle.qs_machine.specs.declared.refusal.MachineRefusal.TheVariants.{Memory as OutOfMemory};
ghost use Rattle.qs_machine.specs.Steps.{IsUnlessMemory, result_map};
ghost use Rattle.qs_machine.specs.Table.{is_among, known_qubits, port_of, ports_of, qubit_of, reached_of};

use crate::forms::{at_key, list_in, name_in, needed_list, whole_in, wrong_at};
use crate::machine::Port;
use crate::names::Names;
use crate::refusal::{Field, MachineRefusal};
use qs_values::{List, Name};
use serde_json::Value;
use std::alloc::Global;

/// How many ports a machine has at most.
const MOST_PORTS: usize = 96;

/// How many qubits a port reaches at most.
const MOST_REACHED: usize = 32;

/// The number of a qubit that the port with this number reaches, which isn't among those before it.
/// They are at most 32.
fn qubit_of(number: usize, before: &[u64], entry: &Value) -> Result<u64, MachineRefusal>
    ensures { result ≡ qubit_of number before.now (view entry.now) }
{
    match whole_in(entry, 0, u64::MAX) {
        Some(qubit) if !before.contains(&qubit) => Ok(qubit),
        _ => Err(wrong_at(Field::Ports, number)),
    }
}

/// The numbers of the qubits that the port with this number reaches.
fn reached_of(alloc: Global, number: usize, value: &Value) -> Result<List<u64>, MachineRefusal>
    ensures { IsUnlessMemory OutOfMemory (reached_of number (view value.now)) result }
{
    let Some(entries) = list_in(value, 1, MOST_REACHED) else {
        return Err(wrong_at(Field::Ports, number));
    };
    let mut reached = List::new(alloc);
    for entry in entries {
        let qubit = qubit_of(number, reached.as_slice(), entry)?;
        reached.push(qubit)?;
    }
    Ok(reached)
}

/// The numbers in eight bits, where the machine has all of these qubits.
fn known_qubits(
    alloc: Global,
    number: usize,
    qubits: u8,
    reached: &[u64],
) -> Result<List<u8>, MachineRefusal>
    ensures { IsUnlessMemory OutOfMemory (known_qubits number qubits reached.now) result }
{
    let mut known = List::new(alloc);
    for qubit in reached {
        if *qubit >= u64::from(qubits) {
            return Err(MachineRefusal::QubitUnknown { number });
        }
        known.push(*qubit as u8)?;
    }
    Ok(known)
}

/// A port, which comes after those before it, whose names are lent beside them.
fn port_of(
    alloc: Global,
    qubits: u8,
    controllers: usize,
    before: &[Port],
    names: &Names,
    entry: &Value,
) -> Result<Port, MachineRefusal>
    requires few { controllers ≤ 16 }
    requires named { names.now ≡ map (λ p. p.name) before.now }
    ensures value { IsUnlessMemory OutOfMemory
        (port_of qubits controllers before.now (view entry.now)) result }
    ensures fresh { IfOk result (λ p. is_among p.name names.now ≡ false) }
{
    let number = before.len();
    let name = at_key(entry, Field::Ports, number, "name")?;
    let controller = at_key(entry, Field::Ports, number, "controller")?;
    let reached = at_key(entry, Field::Ports, number, "qubits")?;
    let Some(name) = name_in(name) else {
        return Err(wrong_at(Field::Ports, number));
    };
    let Some(controller) = whole_in(controller, 1, u64::MAX) else {
        return Err(wrong_at(Field::Ports, number));
    };
    let reached = reached_of(alloc, number, reached)?;
    if names.contains(name) {
        return Err(MachineRefusal::NameDoubled {
            field: Field::Ports,
            number,
        });
    }
    if controller >= controllers as u64 {
        return Err(MachineRefusal::ControllerUnknown { number });
    }
    let qubits = known_qubits(alloc, number, qubits, reached.as_slice())?;
    Ok(Port {
        name: Name::copy_of(alloc, name)?,
        controller: controller as u8,
        qubits,
    })
}

/// The ports of a table for a machine of so many qubits and controllers.
pub fn ports_of(
    alloc: Global,
    qubits: u8,
    controllers: usize,
    table: &Value,
) -> Result<(List<Port>, Names), MachineRefusal>
    requires few { controllers ≤ 16 }
    ensures value { IsUnlessMemory OutOfMemory (ports_of qubits controllers (view table.now))
        (result_map (λ p. p.0) result) }
    ensures named { IfOk result (λ p. p.1 ≡ map (λ port. port.name) p.0) }
    ensures few { IfOk result (λ p. length p.1 ≤ 96) }
{
    let entries = needed_list(table, Field::Ports, 0, MOST_PORTS)?;
    let mut ports = List::new(alloc);
    let mut names = Names::new(alloc);
    for entry in entries {
        let port = port_of(alloc, qubits, controllers, ports.as_slice(), &names, entry)?;
        names.push(alloc, port.name.as_str())?;
        ports.push(port)?;
    }
    Ok((ports, names))
}
