//! What is written of a run and of a refusal: the timeline of all logs, the report, and the line of
//! a refusal.
#![tactic(auto)]

mod head;
mod laws;
mod lines;
mod merging;
mod names;
mod refusals;
mod reports;
mod timeline;

pub use laws::{
    logs_have_names, merge_is_timeline, merge_orders, report_is_run, time_order_orders,
};
pub use lines::{put_end, put_entry, put_outs};
pub use merging::Merge;
pub use names::name_of_code;
pub use refusals::refused;
pub use reports::report;
pub use timeline::merge;
