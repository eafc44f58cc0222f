ghost use Rattle.qs_const.specs.Judging.{PairComesTo, UnaryComesTo};
ghost use Rattle.qs_const.specs.Operations.{PairGives};

use crate::alike::alike;
use crate::cause::Cause;
use crate::judgement::{Judgement, Kinds};
use crate::parts::{first_fault, of_cause, of_result};
use crate::powers::power;
use crate::quotients::{quotient, remainder};
use crate::shifts::{shift_left, shift_right};
use crate::sums::{difference, product, sum};
use crate::unary::unary;
use crate::without_value::{pair_cause, pair_kinds, unary_cause, unary_kinds};
use qs_tree::{BinOp, ConstVal, UnOp};
use qs_values::Span;

/// What an operator between two constants gives.
fn pair(op: BinOp, left: &ConstVal, right: &ConstVal) -> Result<ConstVal, Cause>
    ensures { PairGives op left.now right.now result }
{
    match op {
        BinOp::Power => power(left, right),
        BinOp::Mul => product(left, right),
        BinOp::Div => quotient(left, right),
        BinOp::Rem => remainder(left, right),
        BinOp::Add => sum(left, right),
        BinOp::Sub => difference(left, right),
        BinOp::ShiftLeft => shift_left(left, right),
        BinOp::ShiftRight => shift_right(left, right),
        _ => alike(op, left, right),
    }
}

/// What an operator before an operand comes to, with the kinds of what is refused.
pub fn unary_at(any: Kinds, span: Span, op: UnOp, operand: &Judgement) -> Judgement
    ensures { UnaryComesTo any span op operand.now result }
{
    match operand {
        Judgement::Value(value) => of_result(any, span, unary(op, value)),
        Judgement::Absent(absent) => {
            let cause = unary_cause(op, absent.kinds);
            of_cause(
                any,
                span,
                cause,
                absent.fault,
                unary_kinds(op, absent.kinds),
            )
        }
    }
}

/// What an operator between two operands comes to, with the kinds of what is refused.
pub fn pair_at(any: Kinds, span: Span, op: BinOp, x: &Judgement, y: &Judgement) -> Judgement
    ensures { PairComesTo any span op x.now y.now result }
{
    match (x, y) {
        (Judgement::Value(left), Judgement::Value(right)) => {
            of_result(any, span, pair(op, left, right))
        }
        _ => {
            let inner = first_fault(x.fault(), y.fault());
            of_cause(any, span, pair_cause(op, x, y), inner, pair_kinds(op, x, y))
        }
    }
}
