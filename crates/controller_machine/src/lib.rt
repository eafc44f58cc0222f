//! One controller in its part: where it stands, its variables, its frames and its log, one act at a
//! time.
#![tactic(auto)]

mod ctl;
mod ctls;
mod laws;
mod stand;
mod store;

pub use ctl::{Ctl, Played, Want};
pub use ctls::Ctls;
pub use laws::{
    acts_are_few, controllers_follow, controllers_walk, logs_are_the_timeline, logs_stand_in_order,
    plays_are_events,
};
pub use stand::Ending;
