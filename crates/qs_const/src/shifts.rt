ghost use Rattle.qs_const.specs.Operations.{ShiftGives, ShiftsDown, ShiftsUp};

use crate::cause::Cause;
use crate::whole::{count, no_count, whole_operand, whole_result};
use qs_tree::ConstVal;

/// A whole number shifted to the left. A whole count outside of 0 to 63 is `TooWide`, whatever is
/// shifted, and so is a result that reaches 10^18 in size; other constants have no rule.
pub fn shift_left(left: &ConstVal, right: &ConstVal) -> Result<ConstVal, Cause>
    ensures { ShiftGives ShiftsUp left.now right.now result }
{
    let ConstVal::Number(y) = right else {
        return Err(Cause::NoRule);
    };
    match (count(y), whole_operand(left)) {
        (Some(places), Some(j)) => whole_result((j as i128) * (1_i128 << places)),
        (Some(_), None) => Err(Cause::NoRule),
        (None, _) => no_count(y),
    }
}

/// A whole number shifted to the right, rounded down. A whole count outside of 0 to 63 is
/// `TooWide`, whatever is shifted; other constants have no rule.
pub fn shift_right(left: &ConstVal, right: &ConstVal) -> Result<ConstVal, Cause>
    ensures { ShiftGives ShiftsDown left.now right.now result }
{
    let ConstVal::Number(y) = right else {
        return Err(Cause::NoRule);
    };
    match (count(y), whole_operand(left)) {
        (Some(places), Some(j)) => whole_result((j >> places) as i128),
        (Some(_), None) => Err(Cause::NoRule),
        (None, _) => no_count(y),
    }
}
