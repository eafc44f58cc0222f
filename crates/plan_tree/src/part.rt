use crate::plan::Event;
use qs_values::List;

/// What a controller does in a block.
#[derive(Clone, Copy, Debug, PartialEq, Eq)]
pub enum Item {
    /// An event of its own.
    Own(Event),
}

/// A statement of a controller's part.
#[derive(Debug, Drop)]
pub enum PartStmt {
    /// A block: its length in ticks, and what the controller does in it, in the order of the block.
    Block(u64, List<Item>),
    /// So many ticks in which the controller does nothing.
    Wait(u64),
}

/// What one controller has of a plan.
#[derive(Debug, Drop)]
pub struct Part {
    /// The controller's number. The hub is 0.
    pub controller: u8,
    /// For each variable of the plan, by its number, whether the controller reads it.
    pub reads: List<bool>,
    /// What it has of each statement of the plan, in the plan's order.
    pub body: List<PartStmt>,
}

/// A plan, controller by controller.
#[derive(Debug, Drop)]
pub struct Split {
    /// The part of each controller, by the controller's number.
    pub parts: List<Part>,
}
