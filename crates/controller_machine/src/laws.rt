ghost use Rattle.controller_machine.specs.Laws.{ActsAreFew, ControllersFollow, ControllersWalk, LogsAreTheTimeline, LogsStandInOrder, PlaysAreEvents};

use plan_tree::starts_are_ordered;

/// A controller alone makes exactly its planned acts, its last log is its planned timeline, and the
/// hub's last state is the run's.
pub fn controllers_walk()
    ensures { ControllersWalk }
{}

/// A controller that started in its part shows, after each of its acts, what it shows alone.
pub fn controllers_follow()
    ensures { ControllersFollow }
{}

/// The acts of a controller are at most as many as its plan weighs.
pub fn acts_are_few()
    ensures { ActsAreFew }
{}

/// The logs of a sound plan, on any tape, stand by tick and at one tick by port.
pub fn logs_stand_in_order()
    ensures { LogsStandInOrder }
{
    starts_are_ordered();
}

/// The planned timelines of all controllers of a sound plan are the timeline of the undivided run,
/// in another order.
pub fn logs_are_the_timeline()
    ensures { LogsAreTheTimeline }
{}

/// What controllers play has ports and waveforms of events of the plan.
pub fn plays_are_events()
    ensures { PlaysAreEvents }
{}
