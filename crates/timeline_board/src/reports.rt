ghost use Rattle.std.specs.Prelude.{◌≡◌, List, All, Some, slice_get};
ghost use Rattle.std.specs.List.{flat_map};
ghost use Rattle.outside.specs.Text.{GoesOn};
ghost use Rattle.plan_tree.specs.Sound.{HasVars};
ghost use Rattle.controller_machine.specs.declared.ctl.Played.{Played as Entry};
ghost use Rattle.timeline_board.specs.Conditions.{AreNamed, HubHolds, PutsReport};
ghost use Rattle.timeline_board.specs.Order.{IsMerge, logs_of};
ghost use Rattle.timeline_board.specs.Report.{entry_line};

use crate::lines::{put_end, put_entry, put_outs};
use crate::timeline::merge;
use controller_machine::{Ctl, Ctls};
use outside::{PutFailed, Sink, TextBuffer};
use plan_tree::Plan;
use qs_machine::Machine;

/// Writes the report of a run: a line for each entry of the controllers' logs, by tick and then by
/// port where each log has this order; a line for each output, from the store of the hub, which is
/// controller 0; and a line with the hub's tick and ending. `PutFailed` comes where the sink counted
/// a fault, and then a front of the report was put.
pub fn report<L: Ctls, K: Sink>(
    plan: &Plan,
    machine: &Machine,
    ctls: &L,
    sink: &mut K,
) -> Result<(), PutFailed>
    requires names { AreNamed machine.now (logs_of (L.states ctls.now)) }
    requires store { HubHolds plan.now.vars (L.states ctls.now) }
    requires outs { All (λ o. HasVars plan.now.vars o.first o.ty.kind o.ty.width) plan.now.outs }
    ensures { PutsReport plan.now machine.now (L.states ctls.now)
        (K.state sink.old) (K.state sink.new) result }
{
    let mut page = TextBuffer::new();
    put_timeline(&mut page, sink, machine, ctls);
    let hub = hub_of(ctls);
    put_outs(&mut page, sink, hub.store(), plan.outs.as_slice());
    put_end(&mut page, sink, hub.tick(), hub.ending());
    page.finish(sink)
}

/// The lines of all entries.
fn put_timeline<L: Ctls, K: Sink>(page: &mut TextBuffer, sink: &mut K, machine: &Machine, ctls: &L)
    requires { AreNamed machine.now (logs_of (L.states ctls.now)) }
    ensures { (entries : List Entry) × IsMerge entries (logs_of (L.states ctls.now))
        × GoesOn (K.state sink.old) page.old (K.state sink.new) page.new
        (flat_map (entry_line machine.now) entries) }
{
    let mut entries = merge(ctls);
    while let Some(played) = entries.next() {
        put_entry(page, sink, machine, &played);
    }
}

/// The hub: there is a first controller.
fn hub_of<L: Ctls>(ctls: &L) -> &Ctl
    ensures { slice_get (L.states ctls.now) 0 ≡ Some result.now }
{
    let _count = ctls.count();
    ctls.ctl(0)
}
