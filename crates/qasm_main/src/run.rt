ghost use Rattle.std.specs.Prelude.{◌≡◌, ◌<◌, ◌≤◌, All, IfOk};
ghost use Rattle.plan_tree.specs.Sound.{Fits, IsSound};
ghost use Rattle.qasm_main.specs.Ran.{IsRunBy};

use controller_core::{Core, Counts};
use localise::localise;
use plan_tree::Plan;
use qs_values::{Memory, Tape};
use std::alloc::Global;
use timeline_board::report_is_run;

/// A run by picks that has ended: its core, the counts of its picks, and the plan that was run.
#[derive(Drop)]
pub struct Ran {
    pub core: Core,
    pub counts: Counts,
    pub plan: Plan,
}

/// Runs a plan: the picks of an order, and then sweeps until all controllers have ended, with
/// mailboxes for `mail` values each.
///
/// Whatever the order, the merged logs and the hub give the report of the undivided run.
///
/// # Errors
///
/// `Memory` where out of memory, before the first pick.
pub fn run(alloc: Global, plan: Plan, tape: &Tape, mail: u8, order: &[u8]) -> Result<Ran, Memory>
    requires sound { IsSound plan }
    requires fits { Fits plan tape.now }
    requires some_mail { 1 ≤ mail }
    requires few_mail { mail ≤ 64 }
    requires controllers { All (λ k. k < plan.controllers) order.now }
    ensures { IfOk result (IsRunBy plan tape.now mail order.now) }
{
    let split = localise(alloc, &plan)?;
    let mut core = Core::new(alloc, &split.parts, &plan, tape, mail)?;
    let counts = core.run_order(&split.parts, order);
    report_is_run();
    Ok(Ran { core, counts, plan })
}
