ghost use Rattle.std.specs.Prelude.{◌≡◌, ◌≤◌, IfOk, IsSome, length};
ghost use Rattle.plan_tree.specs.Sound.{IsSound};
ghost use Rattle.qs_machine.specs.BuiltIn.{built_in};
ghost use Rattle.timeline_board.specs.Conditions.{HasNames};
ghost use Rattle.qasm_main.specs.Texts.{longest_file_bytes};
ghost use Rattle.qasm_main.specs.front.Compile.{Compiles, IsBare, IsNamedHalt};

use plan_tree::Plan;
use qs_machine::Machine;
use qs_values::Halt;
use std::alloc::Global;

mod gates;
mod plans;
mod reader;
mod refusal;
mod statement;

use plans::plan_of;
use reader::read;

/// The plan of a source on a machine, which so far is the built-in one.
///
/// # Errors
///
/// `Halt::Refused` with the source's first refusal: from 101 to 106 of its lexemes; else from 111 to
/// 114 of its tokens; else 199 at the first statement that isn't built, or that is one too many; else
/// 203 at the first statement, where the block lasts longer than 2^40 ticks. `Halt::Memory` where out
/// of memory.
pub fn compile(alloc: Global, source: &[u8], machine: &Machine) -> Result<Plan, Halt>
    requires machine { machine.now ≡ built_in }
    requires short { length source.now ≤ longest_file_bytes }
    ensures compiles { Compiles source.now machine.now result }
    ensures sound { IfOk result IsSound }
    ensures bare { IfOk result IsBare }
    ensures names { IfOk result (HasNames machine.now) }
    ensures code { IsNamedHalt result }
{
    match read(alloc, source) {
        Ok(statements) => plan_of(alloc, statements.as_slice(), machine),
        Err(halt) => Err(halt),
    }
}
