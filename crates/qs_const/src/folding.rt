ghost use Rattle.std.specs.Prelude.{◌≡◌};
ghost use Rattle.qs_const.specs.Folding.{FoldIs, IsFoldable};

use crate::judgement::Judgement;
use crate::judging::judged;
use crate::meaning::{Meaning, Names};
use crate::refusal::{ConstRefusal, refusal_of};
use qs_tree::{ConstTable, ConstVal, Consts, Expr};
use std::alloc::{AllocError, Global};

impl Names for ConstTable<'_> {
    ghost use Rattle.std.specs.Prelude.{false};
    ghost use Rattle.qs_tree.specs.Constants.{constant_at};
    ghost use Rattle.qs_const.specs.declared.meaning.Meaning.TheVariants.{Variable};
    ghost use Rattle.qs_const.specs.Folding.{constant_or};

    ghost scope = { λ table. record {
      means = λ name. constant_or Variable (constant_at table name);
      in_duration = false;
    } };

    fn meaning(&self, alloc: Global, name: &str) -> Result<Meaning, AllocError> {
        match self.get(name) {
            Some(value) => Ok(Meaning::Constant(value.copied(alloc)?)),
            None => Ok(Meaning::Variable),
        }
    }

    fn is_in_duration(&self) -> bool {
        false
    }
}

/// The value of a constant expression, whose names have these constants; a name without one counts
/// as a variable.
///
/// The expression has to come to a value or to a refusal: one whose first fault is that a part has
/// no rule, as `1 && 1`, and a duration aren't for this function. `judged` answers for these too.
///
/// # Errors
/// The first refusal in the order of the text, at the first token of the part that is refused: of
/// two at one place that with the lower code. `NotConst` stands at a name without a constant, and
/// `BadPower` at a power of one. `Memory` where memory runs out.
pub fn fold(alloc: Global, e: &Expr, consts: &Consts) -> Result<ConstVal, ConstRefusal>
    requires { IsFoldable e.now consts.now }
    ensures { FoldIs e.now consts.now result }
{
    let table = consts.table(alloc)?;
    match judged(alloc, e, &table)? {
        Judgement::Value(value) => Ok(value),
        Judgement::Absent(absent) => match absent.fault {
            Some(fault) => Err(refusal_of(fault)),
            None => unreachable!(),
        },
    }
}
