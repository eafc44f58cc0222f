ghost use Rattle.std.specs.Prelude.{◌≡◌};
ghost use Rattle.qs_const.specs.Operations.{AlikeGive, WholesGive, truths_give};

use crate::cause::Cause;
use crate::whole::{whole_operand, whole_result};
use qs_tree::{BinOp, ConstVal};

/// What a comparison, or an operator on bits or on truth values, gives for two whole numbers or for
/// two truth values; other constants have no rule.
pub fn alike(op: BinOp, left: &ConstVal, right: &ConstVal) -> Result<ConstVal, Cause>
    ensures { AlikeGive op left.now right.now result }
{
    match (left, right) {
        (ConstVal::Truth(a), ConstVal::Truth(b)) => truths_give(op, *a, *b),
        _ => match (whole_operand(left), whole_operand(right)) {
            (Some(j), Some(k)) => wholes_give(op, j, k),
            _ => Err(Cause::NoRule),
        },
    }
}

/// What an operator gives for two whole numbers. Bits are those of signed 64-bit numbers, and a
/// result that reaches 10^18 in size is `TooWide`.
fn wholes_give(op: BinOp, j: i64, k: i64) -> Result<ConstVal, Cause>
    ensures { WholesGive op j k result }
{
    match op {
        BinOp::Less => Ok(ConstVal::Truth(j < k)),
        BinOp::LessEqual => Ok(ConstVal::Truth(j <= k)),
        BinOp::Greater => Ok(ConstVal::Truth(j > k)),
        BinOp::GreaterEqual => Ok(ConstVal::Truth(j >= k)),
        BinOp::Equal => Ok(ConstVal::Truth(j == k)),
        BinOp::NotEqual => Ok(ConstVal::Truth(j != k)),
        BinOp::BitAnd => whole_result((j & k) as i128),
        BinOp::BitXor => whole_result((j ^ k) as i128),
        BinOp::BitOr => whole_result((j | k) as i128),
        _ => Err(Cause::NoRule),
    }
}

/// What an operator gives for two truth values.
fn truths_give(op: BinOp, a: bool, b: bool) -> Result<ConstVal, Cause>
    ensures { result ≡ truths_give op a b }
{
    match op {
        BinOp::Equal => Ok(ConstVal::Truth(a == b)),
        BinOp::NotEqual => Ok(ConstVal::Truth(a != b)),
        BinOp::And => Ok(ConstVal::Truth(a && b)),
        BinOp::Or => Ok(ConstVal::Truth(a || b)),
        _ => Err(Cause::NoRule),
    }
}
