ghost use Rattle.qs_values.specs.Number.{DifferenceIs, ProductIs, SumIs};
ghost use Rattle.qs_const.specs.Operations.{ByResult, OfNumbers};

use crate::cause::Cause;
use crate::whole::number_result;
use qs_tree::ConstVal;

/// The sum of two numbers; other constants have no rule.
pub fn sum(left: &ConstVal, right: &ConstVal) -> Result<ConstVal, Cause>
    ensures { OfNumbers (ByResult SumIs) left.now right.now result }
{
    match (left, right) {
        (ConstVal::Number(x), ConstVal::Number(y)) => number_result(x.add(y)),
        _ => Err(Cause::NoRule),
    }
}

/// The difference of two numbers; other constants have no rule.
pub fn difference(left: &ConstVal, right: &ConstVal) -> Result<ConstVal, Cause>
    ensures { OfNumbers (ByResult DifferenceIs) left.now right.now result }
{
    match (left, right) {
        (ConstVal::Number(x), ConstVal::Number(y)) => number_result(x.sub(y)),
        _ => Err(Cause::NoRule),
    }
}

/// The product of two numbers; other constants have no rule.
pub fn product(left: &ConstVal, right: &ConstVal) -> Result<ConstVal, Cause>
    ensures { OfNumbers (ByResult ProductIs) left.now right.now result }
{
    match (left, right) {
        (ConstVal::Number(x), ConstVal::Number(y)) => number_result(x.mul(y)),
        _ => Err(Cause::NoRule),
    }
}
