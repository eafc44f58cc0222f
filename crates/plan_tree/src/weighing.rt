ghost use Rattle.std.specs.Prelude.{◌≡◌, ℕ, min};
ghost use Rattle.plan_tree.specs.Sound.{greatest_weight, weight_in, weight_of};

use crate::plan::{Plan, PlanStmt};

/// How much a plan weighs: 1 for each block, and 1 for each event. A weight past
/// 18446744073709551615 is told as that number.
pub fn weight(plan: &Plan) -> u64
    ensures { result ≡ min (weight_of plan.now) greatest_weight }
{
    let mut sum = 0u64;
    for stmt in plan.body.as_slice() {
        sum = sum.saturating_add(weight_in(stmt));
    }
    sum
}

/// How much a statement weighs.
fn weight_in(stmt: &PlanStmt) -> u64
    ensures { (budget : ℕ) → result ≡ min (weight_in budget stmt.now) greatest_weight }
{
    let PlanStmt::Block(block) = stmt;
    (block.events.len() as u64).saturating_add(1)
}
