//! All controllers of a plan, which run by picks.
#![tactic(auto)]

mod laws;
mod picks;

pub use laws::{every_order_is_the_run, runs_once};
pub use picks::{Core, Counts, Stepped};
