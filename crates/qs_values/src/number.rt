ghost use Rattle.std.specs.Prelude.{◌<◌, ◌≡◌, ◌≢◌, ◌^◌, pos, ◌<ℤ◌, ◌+ℤ◌, ◌-ℤ◌, ◌*ℤ◌, unsigned_abs};
ghost use Rattle.std.specs.Int.{IsGcd};
ghost use Rattle.std.proofs.Props.{props};
ghost use Rattle.qs_values.specs.AngleVal.{IsAngleVal};
ghost use Rattle.qs_values.specs.Lowest.{IsNarrow};

use crate::lowest::lowest;
use crate::refusal::NumRefusal;

/// 10^18, which both parts of a fraction are below in size.
const PART_BOUND: u128 = 1_000_000_000_000_000_000;

/// A fraction in lowest terms, with a denominator above 0 and both parts below 10^18 in size.
#[derive(Clone, Copy, Debug, PartialEq, Eq)]
pub struct Frac {
    num: i128,
    den: i128,
    pub ghost above: { pos 0 <ℤ den },
    pub ghost narrow: { IsNarrow num den } by { Prim.hlevel props },
    pub ghost coprime: { IsGcd (unsigned_abs num) (unsigned_abs den) 1 } by { Prim.hlevel props },
}

/// The constant `plain + pi * π`.
#[derive(Clone, Copy, Debug, PartialEq, Eq)]
pub struct Num {
    pub plain: Frac,
    pub pi: Frac,
}

/// The angle `k / 2^width` of a full turn, of a width from 1 to 32 bits and with `k` below 2^width.
#[derive(Clone, Copy, Debug, PartialEq, Eq)]
pub struct AngleVal {
    pub width: u8,
    pub k: u64,
    pub ghost form: { IsAngleVal width k } by { Prim.hlevel props },
}

impl Frac {
    ghost use Rattle.qs_values.specs.Number.{QuotientIs};
    ghost use Rattle.qs_values.specs.steps.Parts.{FracSumIs, FracDifferenceIs};

    /// A whole number as a fraction.
    pub fn whole(value: i32) -> Frac
        ensures num { result.num ≡ value }
        ensures den { result.den ≡ pos 1 }
    {
        Frac {
            num: value as i128,
            den: 1,
        }
    }

    /// The quotient of two whole numbers.
    ///
    /// # Errors
    /// `ByZero` where `den` is 0, and `TooWide` where a part in lowest terms reaches 10^18.
    pub fn of(num: i128, den: i128) -> Result<Frac, NumRefusal>
        requires num { unsigned_abs num < 10 ^ 37 }
        requires den { unsigned_abs den < 10 ^ 37 }
        ensures { QuotientIs num den result }
    {
        if den == 0 {
            return Err(NumRefusal::ByZero);
        }
        let (num, den) = lowest(num, den);
        if num.unsigned_abs() >= PART_BOUND || den.unsigned_abs() >= PART_BOUND {
            return Err(NumRefusal::TooWide);
        }
        Ok(Frac { num, den })
    }

    /// The numerator.
    pub fn num(&self) -> i128
        ensures { result ≡ self.now.num }
    {
        self.num
    }

    /// The denominator, which is above 0.
    pub fn den(&self) -> i128
        ensures { result ≡ self.now.den }
    {
        self.den
    }

    /// Both numerators over one denominator, the product of both denominators, which comes last.
    fn over_one_denominator(self, other: Frac) -> (i128, i128, i128)
        ensures first { result.0 ≡ self.num *ℤ other.den }
        ensures second { result.1 ≡ other.num *ℤ self.den }
        ensures denominator { result.2 ≡ self.den *ℤ other.den }
        ensures first_below { unsigned_abs result.0 < 10 ^ 36 }
        ensures second_below { unsigned_abs result.1 < 10 ^ 36 }
        ensures denominator_below { unsigned_abs result.2 < 10 ^ 36 }
    {
        (
            self.num * other.den,
            other.num * self.den,
            self.den * other.den,
        )
    }

    /// The sum.
    fn plus(self, other: Frac) -> Result<Frac, NumRefusal>
        ensures { FracSumIs self other result }
    {
        let (first, second, denominator) = self.over_one_denominator(other);
        Frac::of(first + second, denominator)
    }

    /// The difference.
    fn minus(self, other: Frac) -> Result<Frac, NumRefusal>
        ensures { FracDifferenceIs self other result }
    {
        let (first, second, denominator) = self.over_one_denominator(other);
        Frac::of(first - second, denominator)
    }

    /// The product.
    fn times(self, other: Frac) -> Result<Frac, NumRefusal>
        ensures { QuotientIs (self.num *ℤ other.num) (self.den *ℤ other.den) result }
    {
        Frac::of(self.num * other.num, self.den * other.den)
    }

    /// The quotient.
    fn over(self, other: Frac) -> Result<Frac, NumRefusal>
        ensures { QuotientIs (self.num *ℤ other.den) (self.den *ℤ other.num) result }
    {
        Frac::of(self.num * other.den, self.den * other.num)
    }
}

impl Num {
    ghost use Rattle.qs_values.specs.Number.{SumIs, DifferenceIs, ScaledIs, ProductIs, RatioIs};
    ghost use Rattle.qs_values.specs.steps.Parts.{DividedIs};

    /// The sum.
    ///
    /// # Errors
    /// `TooWide` where a part of it reaches 10^18 in lowest terms.
    pub fn add(&self, other: &Num) -> Result<Num, NumRefusal>
        ensures { SumIs self.now other.now result }
    {
        Ok(Num {
            plain: self.plain.plus(other.plain)?,
            pi: self.pi.plus(other.pi)?,
        })
    }

    /// The difference.
    ///
    /// # Errors
    /// `TooWide` where a part of it reaches 10^18 in lowest terms.
    pub fn sub(&self, other: &Num) -> Result<Num, NumRefusal>
        ensures { DifferenceIs self.now other.now result }
    {
        Ok(Num {
            plain: self.plain.minus(other.plain)?,
            pi: self.pi.minus(other.pi)?,
        })
    }

    /// The number times a fraction.
    fn scaled(&self, factor: Frac) -> Result<Num, NumRefusal>
        ensures { ScaledIs self.now factor result }
    {
        Ok(Num {
            plain: self.plain.times(factor)?,
            pi: self.pi.times(factor)?,
        })
    }

    /// The product.
    ///
    /// # Errors
    /// `PiTimesPi` where both numbers have pi, and `TooWide` where a part of the product reaches
    /// 10^18 in lowest terms.
    pub fn mul(&self, other: &Num) -> Result<Num, NumRefusal>
        ensures { ProductIs self.now other.now result }
    {
        if other.pi.num == 0 {
            self.scaled(other.plain)
        } else if self.pi.num == 0 {
            other.scaled(self.plain)
        } else {
            Err(NumRefusal::PiTimesPi)
        }
    }

    /// The number over a fraction that isn't 0.
    fn divided(&self, divisor: Frac) -> Result<Num, NumRefusal>
        requires { divisor.num ≢ pos 0 }
        ensures { DividedIs self.now divisor result }
    {
        Ok(Num {
            plain: self.plain.over(divisor)?,
            pi: self.pi.over(divisor)?,
        })
    }

    /// The quotient. A multiple of pi over another one is the quotient of their factors.
    ///
    /// # Errors
    /// `ByZero` where `other` is 0, `ByPi` where it has pi and the two aren't multiples of pi, and
    /// `TooWide` where a part of the quotient reaches 10^18 in lowest terms.
    pub fn div(&self, other: &Num) -> Result<Num, NumRefusal>
        ensures { RatioIs self.now other.now result }
    {
        if other.pi.num == 0 {
            if other.plain.num == 0 {
                return Err(NumRefusal::ByZero);
            }
            return self.divided(other.plain);
        }
        if other.plain.num != 0 || self.plain.num != 0 {
            return Err(NumRefusal::ByPi);
        }
        Ok(Num {
            plain: self.pi.over(other.pi)?,
            pi: Frac::whole(0),
        })
    }
}
