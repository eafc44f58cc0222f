ghost use Rattle.std.specs.Prelude.{◌≡◌, IfOk};
ghost use Rattle.qs_values.specs.Number.{IsZero};
ghost use Rattle.qs_values.specs.declared.number.Num.{Num};
ghost use Rattle.qs_tree.specs.declared.constant.ConstVal.TheVariants.{Number};
ghost use Rattle.qs_const.specs.declared.judgement.Judgement.TheVariants.{Value};
ghost use Rattle.qs_const.specs.Judging.{ComesTo};
ghost use Rattle.qs_const.specs.Trees.{tree_of};

use crate::cause::Cause;
use crate::judgement::{Judgement, Kinds};
use crate::meaning::Names;
use crate::names::{any_kind, call_at, index_at, name_at, text_at};
use crate::pairs::{pair_at, unary_at};
use crate::parts::{of_result, refused, without_value};
use crate::whole::whole_result;
use qs_tree::{ConstVal, Expr, ExprKind};
use qs_values::{Frac, Num};
use std::alloc::{AllocError, Global};

/// What a number without pi comes to.
fn plain_number(plain: Frac) -> Judgement
    ensures { (x : Num) × (x.plain ≡ plain) × IsZero x.pi × (result ≡ Value (Number x)) }
{
    Judgement::Value(ConstVal::Number(Num {
        plain,
        pi: Frac::whole(0),
    }))
}

/// What an expression comes to, whatever it is: its value, or what is known of it without one.
///
/// An operation with an operand that has no value is refused only where it is whatever that operand
/// is. Of all faults in an expression the first in the order of the text counts, and of two at one
/// place that with the lower number; an operation stands at its first token. What stands in a call
/// or a cast isn't judged, and neither are the statements of a `durationof`, which is a duration.
pub fn judged<N: Names>(alloc: Global, e: &Expr, names: &N) -> Result<Judgement, AllocError>
    ensures { IfOk result (λ j. ComesTo (N.scope names.now) (tree_of e.now) j) }
{
    let any = any_kind(names);
    match &e.kind {
        ExprKind::Whole(value) => Ok(of_result(any, e.span, whole_result(*value as i128))),
        ExprKind::Decimal(value) => Ok(plain_number(*value)),
        ExprKind::Time(..) | ExprKind::DurationOf(_) => Ok(without_value(None, Kinds::Duration)),
        ExprKind::Text(text) => text_at(alloc, any, e.span, text.as_str()),
        ExprKind::Truth(value) => Ok(Judgement::Value(ConstVal::Truth(*value))),
        ExprKind::Name(name) => name_at(alloc, names, e.span, name.as_str()),
        ExprKind::Index(name, index) => {
            let index = judged(alloc, index.get(), names)?;
            index_at(alloc, names, e.span, name.as_str(), &index)
        }
        ExprKind::Physical(_) => Ok(refused(any, e.span, Cause::NoRule, None)),
        ExprKind::Call(name, _) => call_at(alloc, names, e.span, name.as_str()),
        ExprKind::Cast(..) => Ok(refused(any, e.span, Cause::NoRule, None)),
        ExprKind::Group(inner) => judged(alloc, inner.get(), names),
        ExprKind::Unary(op, operand) => {
            let operand = judged(alloc, operand.get(), names)?;
            Ok(unary_at(any, e.span, *op, &operand))
        }
        ExprKind::Binary(left, op, right) => {
            let left = judged(alloc, left.get(), names)?;
            let right = judged(alloc, right.get(), names)?;
            Ok(pair_at(any, e.span, *op, &left, &right))
        }
        ExprKind::Number(value) => Ok(Judgement::Value(ConstVal::Number(*value))),
    }
}
