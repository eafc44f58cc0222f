//! The lengths of stretches: the only fractions that satisfy each equation of a group.
#![tactic(auto)]

mod laws;
mod minors;
mod refusal;
mod solution;
mod solving;
#[cfg(test)]
mod tests;

pub use laws::solved_once;
pub use refusal::StretchRefusal;
pub use solution::Solution;
pub use solving::solve;
