ghost use Rattle.controller_core.specs.Laws.{EveryOrderIsTheRun, RunsOnce};

use controller_machine::{controllers_follow, controllers_walk};

/// Whatever the order of picks, a run from the start plays the planned timelines of all controllers
/// and leaves the hub in the last state of the undivided run, in as many steps as there are planned
/// acts.
pub fn every_order_is_the_run()
    ensures { EveryOrderIsTheRun }
{
    controllers_follow();
    controllers_walk();
}

/// An order has one run: one last state, and one pair of counts.
pub fn runs_once()
    ensures { RunsOnce }
{}
