//! When the operations of a block begin: each as soon as the earlier ones on its qubits have ended.
#![tactic(auto)]

mod block;
mod placing;
mod refusal;

pub use block::{Placed, TBlock, TOp};
pub use placing::schedule;
pub use refusal::BoxRefusal;
