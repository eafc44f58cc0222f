ghost use Rattle.qasm_main.specs.Once.{AnsweredOnce, EveryOrderReports, NoRefusalBesidePlan, PlanOnce, RefusedOnce};

use controller_core::{every_order_is_the_run, runs_once};
use plan_tree::starts_are_ordered;
use qs_lexer::lexed_once;
use qs_parser::parsed_once;
use timeline_board::report_is_run;

/// A source has one plan on a machine, or one refusal.
pub fn compiled_once()
    ensures plan { PlanOnce }
    ensures apart { NoRefusalBesidePlan }
    ensures refusal { RefusedOnce }
{
    lexed_once();
    parsed_once();
    starts_are_ordered();
}

/// A source has one answer on a machine: one report with one pair of counts, or one refusal.
pub fn answered_once()
    ensures { AnsweredOnce }
{
    lexed_once();
    parsed_once();
    starts_are_ordered();
    runs_once();
}

/// Whatever the order of picks, the merged logs with the hub give the report of the undivided run.
pub fn every_order_reports()
    ensures { EveryOrderReports }
{
    every_order_is_the_run();
    report_is_run();
}
