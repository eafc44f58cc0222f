//! The values of constant expressions (OpenQASM 3.0, constant expressions, in this project's exact
//! profile), and what is known of expressions without one.
#![tactic(auto)]

mod alike;
mod cause;
mod folding;
mod judgement;
mod judging;
mod laws;
mod meaning;
mod names;
mod operands;
mod pairs;
mod parts;
mod powers;
mod quotients;
mod refusal;
mod shifts;
mod sums;
mod unary;
mod whole;
mod without_value;

pub use cause::{Cause, Fault};
pub use folding::fold;
pub use judgement::{Absent, Judgement, Kinds};
pub use judging::judged;
pub use laws::comes_to_one;
pub use meaning::{Meaning, Names};
pub use refusal::ConstRefusal;
