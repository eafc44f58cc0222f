ghost use Rattle.std.specs.Prelude.{◌≡◌, ℕ, ◌<◌, ◌≤◌, ◌^◌, All, length, max, MatchOption, slice_index, if◌then◌else◌, IfOk};
ghost use Rattle.box_schedule.specs.steps.Clocks.{greatest};
ghost use Rattle.box_schedule.specs.Placement.{IsEarliest, IsFirstNegative, IsPlain, NoneIsNegative, Places, is_among, length_of, starts_of};

use crate::block::{Placed, TBlock, TOp};
use crate::refusal::BoxRefusal;
use qs_values::{List, Span};
use std::alloc::{AllocError, Global};

/// How many qubits have a clock: as many as a `u8` tells apart.
const QUBITS: usize = 256;

/// How many ticks a block lasts at most.
const LONGEST: u64 = 1 << 40;

/// When the operations of a block begin, in ticks: each as soon as the earlier ones on its qubits have
/// ended. Every valid schedule starts each operation at this tick or later.
///
/// Lengths are constant so far, from -2^32 to 2^32 ticks. So `values`, the ticks of each stretch by its
/// number, isn't read yet. No operation ends before tick 0.
///
/// # Errors
/// `TickOut`, at the first operation, where the block lasts longer than 2^40 ticks; else `DelayNegative`
/// at the first operation that lasts less than 0 ticks. `Memory` is out of memory, and may come in place
/// of any answer.
pub fn schedule(alloc: Global, block: &TBlock, values: &List<u64>) -> Result<Placed, BoxRefusal>
    requires plain { All IsPlain block.now.ops }
    requires count { length block.now.ops ≤ 2 ^ 24 }
    ensures places { Places block.now.ops result }
    ensures earliest { IfOk result (λ placed. IsEarliest block.now.ops placed.starts) }
{
    let ops = block.ops.as_slice();
    let placed = place(alloc, ops)?;
    match ops.first() {
        Some(first) if placed.length > LONGEST => Err(BoxRefusal::TickOut { span: first.span }),
        _ => match first_negative(ops) {
            Some(span) => Err(BoxRefusal::DelayNegative { span }),
            None => Ok(placed),
        },
    }
}

/// Where the first operation stands that lasts less than 0 ticks.
fn first_negative(ops: &[TOp]) -> Option<Span>
    ensures { MatchOption result (NoneIsNegative ops.now) (IsFirstNegative ops.now) }
{
    for op in ops {
        if op.length.ticks < 0 {
            return Some(op.span);
        }
    }
    None
}

/// The starts of these operations and the greatest end, with one clock per qubit.
fn place(alloc: Global, ops: &[TOp]) -> Result<Placed, AllocError>
    requires plain { All IsPlain ops.now }
    requires count { length ops.now ≤ 2 ^ 24 }
    ensures { IfOk result (λ placed.
        (placed.starts ≡ starts_of ops.now) × (placed.length ≡ length_of ops.now)) }
{
    let mut clocks = [0; QUBITS];
    let mut starts = Vec::with_capacity(alloc, ops.len())?;
    let mut length = 0;
    for op in ops {
        let qubits = op.qubits.as_slice();
        let start = begin(&clocks, qubits);
        // ends stay below 2^57, so a sum is cut short at tick 0 alone
        let end = start.saturating_add_signed(op.length.ticks);
        move_clocks(&mut clocks, qubits, end);
        starts.push(start)?;
        length = end.max(length);
    }
    Ok(Placed {
        length,
        starts: List::from_vec(starts),
    })
}

/// The greatest clock of these qubits, 0 without a qubit. Each qubit has a clock.
fn begin(clocks: &[u64; QUBITS], qubits: &[u8]) -> u64
    ensures start { result ≡ greatest (slice_index clocks.now) qubits.now }
    ensures known { (i : ℕ) → i < length qubits.now → slice_index qubits.now i < QUBITS }
{
    let mut start = 0;
    for qubit in qubits {
        start = clocks[usize::from(*qubit)].max(start);
    }
    start
}

/// Moves the clocks of these qubits to the tick `end`, but none back.
fn move_clocks(clocks: &mut [u64; QUBITS], qubits: &[u8], end: u64)
    ensures { (q : ℕ) → q < QUBITS → slice_index clocks.new q
        ≡ (if is_among qubits.now q then max end (slice_index clocks.old q)
        else slice_index clocks.old q) }
{
    for qubit in qubits {
        let clock = &mut clocks[usize::from(*qubit)];
        *clock = end.max(*clock);
    }
}
