ghost use Rattle.std.specs.Prelude.{◌≡◌, ◌≤◌, IfOk, length};
ghost use Rattle.serde_json.specs.View.{view};
ghost use Rattle.qs_machine.specs.declared.refusal.MachineRefusal.TheVariants.{Memory as OutOfMemory};
ghost use Rattle.qs_machine.specs.Steps.{IsUnlessMemory};
ghost use Rattle.qs_machine.specs.Table.{controller_of, controllers_of, kind_at};

use crate::forms::{needed_list, wrong_at};
use crate::machine::CtlKind;
use crate::refusal::{Field, MachineRefusal};
use qs_values::List;
use serde_json::Value;
use std::alloc::Global;

/// How many controllers a machine has at most.
const MOST_CONTROLLERS: usize = 16;

/// What the controller with this number may be, by its word.
fn kind_at(number: usize, word: &str) -> Option<CtlKind>
    ensures { result ≡ kind_at number word.now }
{
    if number == 0 {
        if word == "hub" {
            Some(CtlKind::Hub)
        } else {
            None
        }
    } else if word == "drive" {
        Some(CtlKind::Drive)
    } else if word == "acquire" {
        Some(CtlKind::Acquire)
    } else {
        None
    }
}

/// A controller, which comes after those before it.
fn controller_of(before: &[CtlKind], entry: &Value) -> Result<CtlKind, MachineRefusal>
    ensures { result ≡ controller_of before.now (view entry.now) }
{
    let number = before.len();
    match entry.as_str() {
        Some(word) => match kind_at(number, word) {
            Some(kind) => Ok(kind),
            None => Err(wrong_at(Field::Controllers, number)),
        },
        None => Err(wrong_at(Field::Controllers, number)),
    }
}

/// The controllers of a table.
pub fn controllers_of(alloc: Global, table: &Value) -> Result<List<CtlKind>, MachineRefusal>
    ensures value { IsUnlessMemory OutOfMemory (controllers_of (view table.now)) result }
    ensures few { IfOk result (λ kinds. length kinds ≤ 16) }
{
    let entries = needed_list(table, Field::Controllers, 1, MOST_CONTROLLERS)?;
    let mut controllers = List::new(alloc);
    for entry in entries {
        let controller = controller_of(controllers.as_slice(), entry)?;
        controllers.push(controller)?;
    }
    Ok(controllers)
}
