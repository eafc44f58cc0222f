ghost use Rattle.std.specs.Prelude.{◌≡◌, ◌≢◌, ◌≤◌, IfErr, IfOk, length, map, string_bytes};
ghost use Rattle.plan_tree.specs.Sound.{IsSound};
ghost use Rattle.qs_machine.specs.BuiltIn.{built_in};
ghost use Rattle.timeline_board.specs.Conditions.{HasNames};
ghost use Rattle.qasm_main.specs.front.Compile.{IsBare};
ghost use Rattle.qasm_main.specs.Answer.{Answers, Finishes, Replies, StepsPlan, StepsSource};
ghost use Rattle.qasm_main.specs.Faults.{IsReadFault, IsWriteFault};
ghost use Rattle.qasm_main.specs.Texts.{longest_file_bytes, too_long};
ghost use Rattle.qasm_main.specs.Words.{Step, Usage, command_of, files_of, shown};
ghost use Rattle.qasm_main.specs.steps.Outcome.{IsTellable, core_of, reply_of};

use crate::front::compile;
use crate::run::run;
use crate::telling::{Outcome, put_text, status_of};
use crate::words::{Command, command_of};
use controller_core::Core;
use outside::{Shelf, Sink, TakeFault, Taken};
use plan_tree::Plan;
use qs_machine::Machine;
use qs_values::{Halt, List, Memory, Name, Refusal, Tape};
use std::alloc::Global;
use timeline_board::logs_have_names;

/// The most bytes of a file.
pub const LONGEST_FILE_BYTES: u32 = 1_048_576;

/// The code of a file that has more.
const FILE_TOO_LONG: u16 = 10;

/// The status where the sink had a fault.
const PUT_FAILED: u8 = 5;

/// The status where out of memory.
pub const OUT_OF_MEMORY: u8 = 7;

/// How a call of the program ended: its status, and the core that it ran, where it ran one.
#[derive(Drop)]
pub struct Plain {
    pub status: u8,
    pub core: Option<Core>,
}

/// Does what the words say, over files of a shelf, and writes the one text of the call into a sink.
///
/// The status is 0 where the report was written, 1 where the source is refused, 2 where the words
/// are no command, 3 where the file is too long, 4 where the file couldn't be read, 5 where the sink
/// had a fault, and 7 where out of memory.
pub fn plain_top<H: Shelf, K: Sink>(
    alloc: Global,
    words: &[String],
    shelf: &mut H,
    sink: &mut K,
) -> Plain
    ensures answers { Answers (map string_bytes words.now) (H.state shelf.old) (H.state shelf.new)
        (K.state sink.old) (K.state sink.new) result }
    ensures read_fault { IsReadFault (files_of (command_of (map string_bytes words.now)))
        (H.state shelf.old) (H.state shelf.new) result.status }
    ensures write_fault { IsWriteFault (K.state sink.old) (K.state sink.new) result.status }
{
    match outcome_of(alloc, command_of(words), shelf) {
        Ok(outcome) => tell(outcome, sink),
        Err(Memory) => Plain {
            status: OUT_OF_MEMORY,
            core: None,
        },
    }
}

/// Tells an outcome, and hands back its core.
fn tell<K: Sink>(outcome: Outcome, sink: &mut K) -> Plain
    requires { IsTellable outcome }
    ensures finishes { Finishes (K.state sink.old) (K.state sink.new) (reply_of outcome.entry)
        result.status }
    ensures core { result.core ≡ core_of outcome.entry }
{
    let status = match put_text(&outcome, sink) {
        Ok(()) => status_of(&outcome),
        Err(_) => PUT_FAILED,
    };
    Plain {
        status,
        core: core_of(outcome),
    }
}

/// The core that an outcome ran.
fn core_of(outcome: Outcome) -> Option<Core>
    ensures { result ≡ core_of outcome.entry }
{
    match outcome {
        Outcome::Report(ran, _) => Some(ran.core),
        _ => None,
    }
}

/// What a command comes to.
fn outcome_of<'a, H: Shelf>(
    alloc: Global,
    command: Command<'a>,
    shelf: &mut H,
) -> Result<Outcome<'a>, Memory>
    ensures replies { IfOk result (λ outcome.
        Replies (shown command.entry) (H.state shelf.old) (H.state shelf.new) (reply_of outcome)) }
    ensures tellable { IfOk result IsTellable }
    ensures asked { IfErr result (λ _. shown command.entry ≢ Usage) }
    ensures shelf { IfErr result (λ _. H.state shelf.new ≡ H.state shelf.old) }
{
    match command {
        Command::Step(name) => step(alloc, name, shelf),
        Command::Usage => Ok(Outcome::Usage),
    }
}

/// What `step` comes to, of the file of this name.
fn step<'a, H: Shelf>(alloc: Global, name: &'a str, shelf: &mut H) -> Result<Outcome<'a>, Memory>
    ensures replies { IfOk result (λ outcome.
        Replies (Step name.now) (H.state shelf.old) (H.state shelf.new) (reply_of outcome)) }
    ensures tellable { IfOk result IsTellable }
    ensures shelf { IfErr result (λ _. H.state shelf.new ≡ H.state shelf.old) }
{
    match shelf.take(alloc, name, LONGEST_FILE_BYTES) {
        Ok(Taken::Whole(source)) => step_source(alloc, source.as_slice()),
        Ok(Taken::Longer) => match too_long(alloc, name) {
            Ok(refusal) => Ok(Outcome::Refused(3, refusal)),
            Err(Memory) => Err(Memory),
        },
        Err(TakeFault::Failed) => Ok(Outcome::ReadFailed(name)),
        Err(TakeFault::Memory) => Err(Memory),
    }
}

/// The refusal of a file that is too long.
fn too_long(alloc: Global, name: &str) -> Result<Refusal, Memory>
    ensures { IfOk result (λ refusal. refusal ≡ too_long name.now) }
{
    let mut words = List::new(alloc);
    words.push(Name::copy_of(alloc, name)?)?;
    Ok(Refusal {
        code: FILE_TOO_LONG,
        span: None,
        words,
    })
}

/// What `step` comes to, of a source on the built-in machine.
fn step_source<'a>(alloc: Global, source: &[u8]) -> Result<Outcome<'a>, Memory>
    requires { length source.now ≤ longest_file_bytes }
    ensures steps { IfOk result (λ outcome. StepsSource built_in source.now (reply_of outcome)) }
    ensures tellable { IfOk result IsTellable }
{
    let machine = match Machine::builtin(alloc) {
        Ok(machine) => machine,
        Err(Memory) => return Err(Memory),
    };
    match compile(alloc, source, &machine) {
        Ok(plan) => step_plan(alloc, plan, machine),
        Err(Halt::Refused(refusal)) => Ok(Outcome::Refused(1, refusal)),
        Err(Halt::Memory) => Err(Memory),
    }
}

/// Runs a plan of the built-in machine by sweeps, on a tape that tells nothing.
fn step_plan<'a>(alloc: Global, plan: Plan, machine: Machine) -> Result<Outcome<'a>, Memory>
    requires machine { machine ≡ built_in }
    requires sound { IsSound plan }
    requires bare { IsBare plan }
    requires named { HasNames machine plan }
    ensures steps { IfOk result (λ outcome. StepsPlan machine plan (reply_of outcome)) }
    ensures tellable { IfOk result IsTellable }
{
    let tape = Tape {
        bits: List::new(alloc),
        inputs: List::new(alloc),
    };
    logs_have_names();
    match run(alloc, plan, &tape, machine.mail, &[]) {
        Ok(ran) => Ok(Outcome::Report(ran, machine)),
        Err(Memory) => Err(Memory),
    }
}
