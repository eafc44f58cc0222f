ghost use Rattle.std.specs.Prelude.{◌≢◌, pos};
ghost use Rattle.qs_tree.specs.declared.constant.ConstVal.TheVariants.{Number};
ghost use Rattle.qs_const.specs.Operations.{DividesOther, OfWholes, QuotientGives, RemainderGives, Remains};

use crate::cause::Cause;
use crate::whole::{number_result, whole, whole_operand, whole_result};
use qs_tree::ConstVal;
use qs_values::{Num, NumRefusal};

/// The quotient of two numbers. Whatever the dividend is, a divisor 0 is `ByZero`; one with pi is
/// `ByPi` where the dividend is no number or one of the two has a plain part; other constants have
/// no rule.
pub fn quotient(left: &ConstVal, right: &ConstVal) -> Result<ConstVal, Cause>
    ensures { QuotientGives left.now right.now result }
{
    match (left, right) {
        (ConstVal::Number(x), ConstVal::Number(y)) => number_result(x.div(y)),
        (_, ConstVal::Number(y)) => other_by(y),
        _ => Err(Cause::NoRule),
    }
}

/// What a divisor gives for a dividend that is no number.
fn other_by(y: &Num) -> Result<ConstVal, Cause>
    ensures { DividesOther y.now result }
{
    if y.pi.num() != 0 {
        Err(Cause::Number(NumRefusal::ByPi))
    } else if y.plain.num() == 0 {
        Err(Cause::Number(NumRefusal::ByZero))
    } else {
        Err(Cause::NoRule)
    }
}

/// The remainder of two whole numbers, with the dividend's sign. Whatever the dividend is, a
/// divisor 0 is `ByZero`, and one with pi is `ByPi`; other constants have no rule.
pub fn remainder(left: &ConstVal, right: &ConstVal) -> Result<ConstVal, Cause>
    ensures { RemainderGives left.now right.now result }
{
    let ConstVal::Number(y) = right else {
        return Err(Cause::NoRule);
    };
    if y.pi.num() != 0 {
        Err(Cause::Number(NumRefusal::ByPi))
    } else if y.plain.num() == 0 {
        Err(Cause::Number(NumRefusal::ByZero))
    } else {
        remainder_by(left, y)
    }
}

/// What a divisor that isn't 0 gives for a dividend, both whole.
fn remainder_by(left: &ConstVal, y: &Num) -> Result<ConstVal, Cause>
    requires { y.now.plain.num ≢ pos 0 }
    ensures { OfWholes Remains left.now (Number y.now) result }
{
    let Some(k) = whole(y) else {
        return Err(Cause::NoRule);
    };
    match whole_operand(left) {
        Some(j) => whole_result((j % k) as i128),
        None => Err(Cause::NoRule),
    }
}
