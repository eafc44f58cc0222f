ghost use Rattle.std.specs.Prelude.{pos, ◌-ℤ◌};
ghost use Rattle.qs_tree.specs.declared.constant.ConstVal.TheVariants.{Number};
ghost use Rattle.qs_tree.specs.declared.operator.UnOp.TheVariants.{Invert};
ghost use Rattle.qs_const.specs.Operations.{GivesNumber, UnaryGives};

use crate::cause::Cause;
use crate::whole::{number_result, whole, whole_result};
use qs_tree::{ConstVal, UnOp};
use qs_values::{Frac, Num};

/// What `-` gives for a number.
fn negative(x: &Num) -> Result<ConstVal, Cause>
    ensures { GivesNumber (pos 0 -ℤ x.now.plain.num) x.now.plain.den
        (pos 0 -ℤ x.now.pi.num) x.now.pi.den result }
{
    let zero = Num {
        plain: Frac::whole(0),
        pi: Frac::whole(0),
    };
    number_result(zero.sub(x))
}

/// What `~` gives for a number: one that isn't whole has no rule.
fn inverse(x: &Num) -> Result<ConstVal, Cause>
    ensures { UnaryGives Invert (Number x.now) result }
{
    match whole(x) {
        Some(k) => whole_result(0 - k as i128 - 1),
        None => Err(Cause::NoRule),
    }
}

/// What an operator before a constant gives.
pub fn unary(op: UnOp, operand: &ConstVal) -> Result<ConstVal, Cause>
    ensures { UnaryGives op operand.now result }
{
    match (op, operand) {
        (UnOp::Neg, ConstVal::Number(x)) => negative(x),
        (UnOp::Invert, ConstVal::Number(x)) => inverse(x),
        (UnOp::Not, ConstVal::Truth(b)) => Ok(ConstVal::Truth(!*b)),
        _ => Err(Cause::NoRule),
    }
}
