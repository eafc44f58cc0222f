ghost use Rattle.std.specs.Prelude.{◌≡◌, ◌≤◌, ◌<◌, ◌^◌, pos, unsigned_abs};
ghost use Rattle.qs_values.specs.Angle.{pi_part, units, plain_part, angle_of};

use crate::number::{Frac, Num};

/// This project's full turn, in units of 10^-17 of a radian.
const TURN: i128 = 628_318_530_717_958_648;

/// One radian in units of 10^-17 of it.
const RADIAN: i128 = 100_000_000_000_000_000;

/// How many steps of an angle of `width` bits a full turn has.
fn steps(width: u8) -> i128
    requires { width ≤ 32 }
    ensures { result ≡ pos (2 ^ width) }
{
    1 << width
}

/// The angle `factor * π` in steps, rounded to the nearest one.
fn pi_part(factor: Frac, width: u8) -> i128
    requires { width ≤ 32 }
    ensures value { result ≡ pi_part factor width }
    ensures bound { unsigned_abs result < 10 ^ 28 }
{
    (factor.num() * steps(width) + factor.den()).div_euclid(2 * factor.den())
}

/// The angle of so many radians, cut down to units of 10^-17 of a radian, modulo this project's full
/// turn.
fn units(radians: Frac) -> i128
    ensures value { result ≡ units radians }
    ensures bound { unsigned_abs result < 10 ^ 18 }
{
    (radians.num() * RADIAN)
        .div_euclid(radians.den())
        .rem_euclid(TURN)
}

/// The angle of so many radians in steps, of its units rounded to the nearest one.
fn plain_part(radians: Frac, width: u8) -> i128
    requires { width ≤ 32 }
    ensures value { result ≡ plain_part radians width }
    ensures bound { unsigned_abs result < 10 ^ 29 }
{
    (2 * (units(radians) * steps(width)) + TURN).div_euclid(2 * TURN)
}

/// The constant as `angle[width]`: its number of 2^width-ths of a full turn, modulo a full turn.
///
/// Each of its two parts is rounded to the nearest step by itself. The part without pi, in radians,
/// is first cut down to units of 10^-17 of a radian, and then taken modulo this project's full turn
/// of 6.28318530717958648 radians, which is a little more than two pi: the angle of a large number
/// is off by that for each turn that goes away (this project's own).
pub fn to_angle(value: &Num, width: u8) -> u64
    requires low { 1 ≤ width }
    requires high { width ≤ 32 }
    ensures value { pos result ≡ angle_of value.now width }
    ensures bound { result < 2 ^ width }
{
    let sum = pi_part(value.pi, width) + plain_part(value.plain, width);
    sum.rem_euclid(steps(width)) as u64
}
