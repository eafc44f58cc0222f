ghost use Rattle.std.specs.Prelude.{◌≡◌, ◌<◌, ◌++◌, All, false, IfOk, OnOk, length, replicate};
ghost use Rattle.plan_tree.specs.Parts.{items_of, part_of, part_stmt, parts_of};
ghost use Rattle.plan_tree.specs.Run.{Place};
ghost use Rattle.plan_tree.specs.Sound.{IsSound, IsSoundStmt};

use plan_tree::{Event, Item, Part, PartStmt, Plan, PlanStmt, Split};
use qs_values::{List, Memory};
use std::alloc::Global;

/// The controller that reads every variable.
const HUB: u8 = 0;

/// Splits a plan: one part for each controller, in order of number.
///
/// A controller keeps the events of its ports. A block in which it keeps none is a wait of the
/// block's length, so that the clocks of all controllers agree after each statement.
///
/// # Errors
///
/// `Memory` where out of memory.
pub fn localise(alloc: Global, plan: &Plan) -> Result<Split, Memory>
    requires sound { IsSound plan.now }
    ensures parts { IfOk result (λ split. split.parts ≡ parts_of plan.now) }
{
    let mut parts = List::new(alloc);
    for controller in 0..plan.controllers {
        parts.push(part_of(alloc, plan, controller)?)?;
    }
    Ok(Split { parts })
}

/// The part of a controller.
fn part_of(alloc: Global, plan: &Plan, controller: u8) -> Result<Part, Memory>
    requires { All (IsSoundStmt plan.now false) plan.now.body }
    ensures { IfOk result (λ part. part ≡ part_of plan.now controller) }
{
    let mut body = List::new(alloc);
    for stmt in plan.body.as_slice() {
        put_stmt(&mut body, alloc, plan, controller, stmt)?;
    }
    Ok(Part {
        controller,
        reads: reads_of(alloc, plan.vars.len(), controller == HUB)?,
        body,
    })
}

/// Puts what a controller has of a statement after what it has of those before.
fn put_stmt(
    body: &mut List<PartStmt>,
    alloc: Global,
    plan: &Plan,
    controller: u8,
    stmt: &PlanStmt,
) -> Result<(), Memory>
    requires { IsSoundStmt plan.now false stmt.now }
    ensures { OnOk result
        ((here : Place) → body.new ≡ body.old ++ part_stmt plan.now controller stmt.now here) }
{
    let PlanStmt::Block(block) = stmt;
    let items = items_of(alloc, plan, controller, block.events.as_slice())?;
    if items.is_empty() {
        body.push(PartStmt::Wait(block.length))?;
    } else {
        body.push(PartStmt::Block(block.length, items))?;
    }
    Ok(())
}

/// The events of a controller's own ports, in their order.
fn items_of(
    alloc: Global,
    plan: &Plan,
    controller: u8,
    events: &[Event],
) -> Result<List<Item>, Memory>
    requires { All (λ e. e.port < length plan.now.owner) events.now }
    ensures { IfOk result (λ items. items ≡ items_of plan.now controller events.now) }
{
    let owner = plan.owner.as_slice();
    let mut items = List::new(alloc);
    for event in events {
        if owner[event.port as usize] == controller {
            items.push(Item::Own(*event))?;
        }
    }
    Ok(items)
}

/// For each of so many variables, whether a controller reads it: all of them, or none.
fn reads_of(alloc: Global, variables: usize, all: bool) -> Result<List<bool>, Memory>
    ensures { IfOk result (λ reads. reads ≡ replicate variables all) }
{
    let reads = vec![in alloc; all; variables]?;
    Ok(List::from_vec(reads))
}
