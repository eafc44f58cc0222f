ghost use Rattle.timeline_board.specs.Conditions.{LogsHaveNames};
ghost use Rattle.timeline_board.specs.Order.{MergeOrders, TimeOrderOrders};
ghost use Rattle.timeline_board.specs.Report.{MergeIsTimeline, ReportIsRun};

use controller_machine::{logs_stand_in_order, plays_are_events};

/// Entries that are put in order are all of them, in order.
pub fn time_order_orders()
    ensures { TimeOrderOrders }
{}

/// Logs that stand in order are merged to all of their entries in order.
pub fn merge_orders()
    ensures { MergeOrders }
{}

/// The merged logs of all planned acts of a sound plan are the timeline of the undivided run, in
/// order.
pub fn merge_is_timeline()
    ensures { MergeIsTimeline }
{
    logs_stand_in_order();
}

/// The merged logs of all planned acts of a sound plan, reported with the hub's last state, are the
/// report of the undivided run.
pub fn report_is_run()
    ensures { ReportIsRun }
{
    merge_is_timeline();
}

/// A machine that has the ports and waveforms of a plan has those of all that its run plays.
pub fn logs_have_names()
    ensures { LogsHaveNames }
{
    plays_are_events();
}
