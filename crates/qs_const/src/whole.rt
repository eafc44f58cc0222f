ghost use Rattle.std.specs.Prelude.{◌≡◌, ◌⊎◌, ◌<◌, ◌^◌, Err, unsigned_abs};
ghost use Rattle.qs_values.specs.declared.refusal.NumRefusal.TheVariants.{TooWide};
ghost use Rattle.qs_const.specs.declared.cause.Cause.TheVariants.{NoRule, Number as OfNumber};
ghost use Rattle.qs_const.specs.Operations.{GivesWhole, IsNoCount, IsNotWhole, number_result};
ghost use Rattle.qs_const.specs.steps.Wholes.{CountIs, OperandIs, WholeIs};

use crate::cause::Cause;
use qs_tree::ConstVal;
use qs_values::{Frac, Num, NumRefusal};

/// The whole number that a number is, or `None` where it has pi or a denominator.
pub fn whole(x: &Num) -> Option<i64>
    ensures { WholeIs x.now result }
{
    if x.pi.num() == 0 && x.plain.den() == 1 {
        Some(x.plain.num() as i64)
    } else {
        None
    }
}

/// The whole number that a constant is, or `None` where it is no whole number.
pub fn whole_operand(operand: &ConstVal) -> Option<i64>
    ensures { OperandIs operand.now result }
{
    match operand {
        ConstVal::Number(x) => whole(x),
        _ => None,
    }
}

/// The count from 0 to 63 that a number is, or `None` where it is none.
pub fn count(y: &Num) -> Option<u32>
    ensures { CountIs y.now result }
{
    match whole(y) {
        Some(k) if 0 <= k && k <= 63 => Some(k as u32),
        _ => None,
    }
}

/// What a number that is no count gives as one: `TooWide` where it is whole, and else no rule.
pub fn no_count(y: &Num) -> Result<ConstVal, Cause>
    requires { IsNotWhole y.now ⊎ IsNoCount y.now }
    ensures { (IsNoCount y.now × (result ≡ Err (OfNumber TooWide)))
        ⊎ (IsNotWhole y.now × (result ≡ Err NoRule)) }
{
    match whole(y) {
        Some(_) => Err(Cause::Number(NumRefusal::TooWide)),
        None => Err(Cause::NoRule),
    }
}

/// What a whole number gives: the number, or `TooWide` where it reaches 10^18 in size.
pub fn whole_result(k: i128) -> Result<ConstVal, Cause>
    requires { unsigned_abs k < 10 ^ 37 }
    ensures { GivesWhole k result }
{
    match Frac::of(k, 1) {
        Ok(plain) => Ok(ConstVal::Number(Num {
            plain,
            pi: Frac::whole(0),
        })),
        Err(_) => Err(Cause::Number(NumRefusal::TooWide)),
    }
}

/// What a result among numbers gives: the number, or its refusal.
pub fn number_result(number: Result<Num, NumRefusal>) -> Result<ConstVal, Cause>
    ensures { result ≡ number_result number }
{
    match number {
        Ok(x) => Ok(ConstVal::Number(x)),
        Err(refusal) => Err(Cause::Number(refusal)),
    }
}
