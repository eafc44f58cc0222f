ghost use Rattle.qs_const.specs.Operations.{IsPower, PowerGives, RaisedGives};

use crate::cause::Cause;
use crate::whole::{count, number_result};
use qs_tree::ConstVal;
use qs_values::{Frac, Num, NumRefusal};

/// A constant to a power. Whatever it is, an exponent that isn't a whole number from 0 to 63 is
/// `BadPower`; a base that is no number has no rule.
pub fn power(base: &ConstVal, exponent: &ConstVal) -> Result<ConstVal, Cause>
    ensures { PowerGives base.now exponent.now result }
{
    let ConstVal::Number(y) = exponent else {
        return Err(Cause::BadPower);
    };
    match count(y) {
        Some(n) => raised(base, n),
        None => Err(Cause::BadPower),
    }
}

/// What a constant gives to the n-th power.
fn raised(base: &ConstVal, n: u32) -> Result<ConstVal, Cause>
    ensures { RaisedGives base.now n result }
{
    match base {
        ConstVal::Number(x) => number_result(nth_power(x, n)),
        _ => Err(Cause::NoRule),
    }
}

/// The n-th power of a number, as a product of n factors.
///
/// # Errors
/// The refusal of the first product that is refused.
fn nth_power(x: &Num, n: u32) -> Result<Num, NumRefusal>
    ensures { IsPower x.now n result }
{
    let mut product = Num {
        plain: Frac::whole(1),
        pi: Frac::whole(0),
    };
    for i in 0..n {
        product = product.mul(x)?;
    }
    Ok(product)
}
