ghost use Rattle.std.specs.Prelude.{◌≡◌, ◌≤◌, ◌^◌, ◌++◌, IfOk, OnOk, length};
ghost use Rattle.std.specs.List.Sorted.{IsPermutation, IsSortedByKey, IsStableByKey};
ghost use Rattle.box_schedule.specs.Placement.{length_of, starts_of};
ghost use Rattle.plan_tree.specs.Sound.{IsSound, start_cmp, start_key};
ghost use Rattle.qs_machine.specs.BuiltIn.{built_in};
ghost use Rattle.timeline_board.specs.Conditions.{HasNames};
ghost use Rattle.qasm_main.specs.front.Compile.{CompilesStatements, IsBare, IsNamedHalt};
ghost use Rattle.qasm_main.specs.front.Gates.{gates_of};
ghost use Rattle.qasm_main.specs.front.Planned.{IsBodyBy, is_left_out, op_by, op_of, ops_of, owners_of, pulse_at, pulses_by, pulses_from};
ghost use Rattle.qasm_main.specs.front.Source.{most_statements};
ghost use Rattle.qasm_main.specs.front.Statement.{AreWellFormed, IsWellFormed};

use crate::front::gates::{Gates, drive_of, gates_of};
use crate::front::refusal::halt_of;
use crate::front::statement::{LocatedStatement, Statement};
use box_schedule::{Placed, TBlock, TOp, schedule};
use plan_tree::{Block, Deed, Event, Plan, PlanStmt, plays_stay_apart};
use qs_machine::{Machine, Port};
use qs_values::{Affine, FrameStart, Halt, List, Memory, Name, Span};
use std::alloc::{AllocError, Global};
use std::mem::forget;

/// An operation of constant length outside boxes.
fn op_of(
    alloc: Global,
    span: Span,
    qubits: &[u8],
    ticks: u64,
    barrier: bool,
) -> Result<TOp, AllocError>
    requires { ticks ≤ 2 ^ 32 }
    ensures { IfOk result (λ op. op ≡ op_of span qubits.now ticks barrier) }
{
    Ok(TOp {
        span,
        qubits: List::from_vec(Vec::from_slice(alloc, qubits)?),
        length: Affine {
            ticks: ticks as i64,
            parts: List::new(alloc),
        },
        inner: None,
        fixed: None,
        barrier,
    })
}

/// The operation of a statement at its place.
fn op_by(alloc: Global, gates: &Gates, span: Span, statement: &Statement) -> Result<TOp, AllocError>
    requires formed { IsWellFormed statement.now }
    requires x { gates.now.x.ticks ≤ 2 ^ 32 }
    requires cx { gates.now.cx.ticks ≤ 2 ^ 32 }
    ensures { IfOk result (λ op. op ≡ op_by gates.now span statement.now) }
{
    match statement {
        Statement::X(qubit) => op_of(alloc, span, &[*qubit], gates.x.ticks, false),
        Statement::Cx(control, target) => {
            op_of(alloc, span, &[*control, *target], gates.cx.ticks, false)
        }
        Statement::Delay(ticks, qubit) => op_of(alloc, span, &[*qubit], *ticks, false),
        Statement::Barrier(qubits) => op_of(alloc, span, qubits.as_slice(), 0, true),
    }
}

/// The operations of statements.
fn ops_of(alloc: Global, gates: &Gates, statements: &[LocatedStatement]) -> Result<TBlock, Memory>
    requires formed { AreWellFormed statements.now }
    requires x { gates.now.x.ticks ≤ 2 ^ 32 }
    requires cx { gates.now.cx.ticks ≤ 2 ^ 32 }
    ensures { IfOk result (λ block. block.ops ≡ ops_of gates.now statements.now) }
{
    let mut ops = Vec::with_capacity(alloc, statements.len())?;
    for located in statements {
        ops.push(op_by(alloc, gates, located.span, &located.statement)?)?;
    }
    Ok(TBlock {
        ops: List::from_vec(ops),
    })
}

/// A pulse on a qubit: on the frame that drives it, and that frame's port.
fn pulse_at(gates: &Gates, start: u64, qubit: u8, wave: u16) -> Event
    ensures { result ≡ pulse_at gates.now start qubit wave }
{
    let drive = drive_of(gates, qubit);
    Event {
        offset: start,
        port: drive.port,
        act: Deed::Pulse {
            frame: drive.frame,
            wave,
        },
    }
}

/// Puts the pulses of a statement that begins at this tick after these events.
fn put_pulses(
    events: &mut Vec<Event>,
    gates: &Gates,
    start: u64,
    statement: &Statement,
) -> Result<(), Memory>
    ensures { OnOk result (events.new.items
        ≡ events.old.items ++ pulses_by gates.now start statement.now) }
{
    match statement {
        Statement::X(qubit) => events.push(pulse_at(gates, start, *qubit, gates.x.wave))?,
        Statement::Cx(control, target) => {
            events.push(pulse_at(gates, start, *control, gates.cx.wave))?;
            events.push(pulse_at(gates, start, *target, gates.cx.wave))?;
        }
        Statement::Delay(_, _) | Statement::Barrier(_) => {}
    }
    Ok(())
}

/// The pulses of statements that begin at these ticks, in the order of the source.
fn pulses_from(
    alloc: Global,
    gates: &Gates,
    statements: &[LocatedStatement],
    starts: &[u64],
) -> Result<Vec<Event>, Memory>
    ensures { IfOk result (λ events.
        events.items ≡ pulses_from gates.now statements.now starts.now) }
{
    let mut events = Vec::new(alloc);
    for (located, start) in statements.iter().zip(starts) {
        put_pulses(&mut events, gates, *start, &located.statement)?;
    }
    Ok(events)
}

/// A block of these events by offset, then by port, then in the order in which they are given.
fn block_of(mut events: Vec<Event>, length: u64) -> Result<Block, Memory>
    ensures events { IfOk result (λ block. IsPermutation events.items block.events) }
    ensures order { IfOk result (λ block. IsSortedByKey start_key start_cmp block.events) }
    ensures stable { IfOk result (λ block.
        IsStableByKey start_key start_cmp events.items block.events) }
    ensures ticks { IfOk result (λ block. block.length ≡ length) }
{
    events.sort_by_key(|event| (event.offset, event.port))?;
    Ok(Block {
        length,
        events: List::from_vec(events),
    })
}

/// The statements of the plan: a block, unless it has no event and takes no tick.
fn body_of(
    alloc: Global,
    gates: &Gates,
    statements: &[LocatedStatement],
    placed: &Placed,
) -> Result<List<PlanStmt>, Memory>
    requires starts { placed.now.starts ≡ starts_of (ops_of gates.now statements.now) }
    requires ticks { placed.now.length ≡ length_of (ops_of gates.now statements.now) }
    ensures { IfOk result (IsBodyBy gates.now
        (is_left_out gates.now statements.now) statements.now) }
{
    let events = pulses_from(alloc, gates, statements, placed.starts.as_slice())?;
    let mut body = List::new(alloc);
    if !events.is_empty() || placed.length > 0 {
        body.push(PlanStmt::Block(block_of(events, placed.length)?))?;
    }
    Ok(body)
}

/// The frames of a machine as a run begins.
fn frames_of(alloc: Global, frames: &[FrameStart]) -> Result<List<FrameStart>, Memory>
    ensures { IfOk result (λ all. all ≡ frames.now) }
{
    let mut all = Vec::with_capacity(alloc, frames.len())?;
    for frame in frames {
        all.push(FrameStart {
            name: Name::copy_of(alloc, frame.name.as_str())?,
            port: frame.port,
            phase: frame.phase,
            hz: frame.hz,
        })?;
    }
    Ok(List::from_vec(all))
}

/// The controllers of ports.
fn owners_of(alloc: Global, ports: &[Port]) -> Result<List<u8>, Memory>
    ensures { IfOk result (λ all. all ≡ owners_of ports.now) }
{
    let mut all = Vec::with_capacity(alloc, ports.len())?;
    for port in ports {
        all.push(port.controller)?;
    }
    Ok(List::from_vec(all))
}

/// The plan of statements on the built-in machine: one block of pulses at their earliest starts, or
/// none where nothing plays and no tick passes.
///
/// # Errors
///
/// `Halt::Refused` with 203 at the first statement, where the block lasts longer than 2^40 ticks.
/// `Halt::Memory` where out of memory.
pub fn plan_of(
    alloc: Global,
    statements: &[LocatedStatement],
    machine: &Machine,
) -> Result<Plan, Halt>
    requires machine { machine.now ≡ built_in }
    requires formed { AreWellFormed statements.now }
    requires few { length statements.now ≤ most_statements }
    ensures compiles { CompilesStatements machine.now statements.now result }
    ensures sound { IfOk result IsSound }
    ensures bare { IfOk result IsBare }
    ensures names { IfOk result (HasNames machine.now) }
    ensures code { IsNamedHalt result }
{
    plays_stay_apart();
    let gates = gates_of(alloc, machine)?;
    let block = ops_of(alloc, &gates, statements)?;
    let placed = match schedule(alloc, &block, &List::new(alloc)) {
        Ok(placed) => placed,
        Err(refusal) => return Err(halt_of(alloc, &refusal)),
    };
    let body = body_of(alloc, &gates, statements, &placed)?;
    forget(block);
    Ok(Plan {
        vars: List::new(alloc),
        inputs: List::new(alloc),
        outs: List::new(alloc),
        frames: frames_of(alloc, machine.frames.as_slice())?,
        owner: owners_of(alloc, machine.ports.as_slice())?,
        controllers: machine.controllers.len() as u8,
        gap: machine.gap,
        budget: machine.budget,
        body,
    })
}
