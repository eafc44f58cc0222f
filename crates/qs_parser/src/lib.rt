//! Which tokens are a source of OpenQASM 3.0 in this project's profile: the reader of sources, the
//! grammar, why other tokens are refused, and laws of how a source is read.
#![tactic(auto)]

mod assignments;
mod below;
mod calibrations;
mod calls;
mod expressions;
mod gates;
mod globals;
mod inputs;
mod items;
mod knot;
mod laws;
mod levels;
mod lists;
mod operators;
mod parsing;
mod parts;
mod ranges;
mod refusal;
mod simple;
mod sources;
mod statements;
mod stop;
mod tokens;

pub use laws::{parsed_once, read_is_spelled};
pub use parsing::parse;
pub use refusal::ParseRefusal;
