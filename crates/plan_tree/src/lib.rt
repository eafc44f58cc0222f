//! The scheduled program: the plan's tree, its parts for the controllers, the undivided run and
//! what each controller does in it.
#![tactic(auto)]

mod frame;
mod laws;
mod part;
mod plan;
mod weighing;

pub use frame::FrameState;
pub use laws::{example_is_sound, plays_stay_apart, starts_are_ordered};
pub use part::{Item, Part, PartStmt, Split};
pub use plan::{Block, Deed, Event, Plan, PlanStmt};
pub use weighing::weight;
