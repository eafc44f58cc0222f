//! The split: what each controller has of a scheduled program.
#![tactic(auto)]

mod split;

pub use split::localise;
