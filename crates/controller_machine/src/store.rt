ghost use Rattle.std.specs.Prelude.{◌≡◌, ◌+◌, ◌<◌, ◌≤◌, ◌^◌, All, IfOk, length, vec_len};
ghost use Rattle.plan_tree.specs.Run.{start_frames as start_frames_of};
ghost use Rattle.plan_tree.specs.Sound.{HasVars};
ghost use Rattle.plan_tree.specs.Store.{bits_of, cells_of, put_cells, size_of, start_store as start_store_of};

use plan_tree::FrameState;
use qs_values::{FrameStart, Input, Kind, Memory, Ty};
use std::alloc::Global;

/// The variables as a run begins: the inputs have their values, and every other variable is 0.
///
/// # Errors
///
/// `Memory` when out of memory.
pub fn start_store(
    alloc: Global,
    vars: &[Ty],
    inputs: &[Input],
    values: &[u64],
) -> Result<Vec<u64>, Memory>
    requires vars { All (λ i. HasVars vars.now i.first i.ty.kind i.ty.width) inputs.now }
    ensures { IfOk result (λ store. store.items ≡ start_store_of vars.now inputs.now values.now) }
{
    let mut store = vec![in alloc; 0; vars.len()]?;
    for (input, value) in inputs.iter().zip(values) {
        put_input(&mut store, input, *value);
    }
    Ok(store)
}

/// Puts an input's value into its variables, a register's bit by bit.
fn put_input(store: &mut Vec<u64>, input: &Input, value: u64)
    requires { input.now.first + size_of input.now.ty.kind input.now.ty.width
        ≤ length store.old.items }
    ensures { store.new.items ≡ put_cells store.old.items input.now.first
        (cells_of input.now.ty.kind input.now.ty.width value) }
{
    let first = input.first as usize;
    match input.ty.kind {
        Kind::Bits => put_bits(store, first, input.ty.width, value),
        Kind::Bit | Kind::Bool | Kind::Int | Kind::Uint | Kind::Angle => store[first] = value,
    }
}

/// Puts the lowest bits of a value into so many variables, the lowest first.
fn put_bits(store: &mut Vec<u64>, first: usize, width: u8, value: u64)
    requires { first + width ≤ length store.old.items }
    ensures { store.new.items ≡ put_cells store.old.items first (bits_of width value) }
{
    let mut rest = value;
    for i in 0..width {
        store[first + i as usize] = rest % 2;
        rest /= 2;
    }
}

/// The frames as a run begins.
///
/// # Errors
///
/// `Memory` when out of memory.
pub fn start_frames(alloc: Global, frames: &[FrameStart]) -> Result<Vec<FrameState>, Memory>
    ensures { IfOk result (λ v. v.items ≡ start_frames_of frames.now) }
{
    let frames = frames
        .iter()
        .map(|f| FrameState {
            phase: f.phase,
            hz: f.hz,
        })
        .collect(alloc)?;
    Ok(frames)
}
