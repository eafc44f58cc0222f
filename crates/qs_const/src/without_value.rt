ghost use Rattle.std.specs.Prelude.{◌≡◌};
ghost use Rattle.qs_const.specs.WithoutValue.{bits_kinds, divisor_cause, modulus_cause, number_or_duration, pair_cause, pair_kinds, power_cause, quotient_cause, remainder_cause, shift_cause, typed_cause, typed_kinds, unary_cause, unary_kinds, unless_typed};

use crate::cause::Cause;
use crate::judgement::{Judgement, Kinds};
use crate::operands::{has_pi, has_plain, is_whole};
use qs_tree::{BinOp, ConstVal, UnOp};
use qs_values::{Num, NumRefusal};

/// Nothing, where some types of the operands have a rule, and else that none does.
fn unless_typed(typed: bool) -> Option<Cause>
    ensures { result ≡ unless_typed typed }
{
    if typed { None } else { Some(Cause::NoRule) }
}

/// What refuses an operator before an operand of these kinds.
pub fn unary_cause(op: UnOp, kinds: Kinds) -> Option<Cause>
    ensures { result ≡ unary_cause op kinds }
{
    match op {
        UnOp::Not => unless_typed(kinds.has_truth()),
        UnOp::Neg => unless_typed(kinds.has_number() || kinds.has_duration_alone()),
        UnOp::Invert => unless_typed(kinds.has_number() || kinds.has_truth()),
    }
}

/// The kinds of an operator before an operand of these kinds.
pub fn unary_kinds(op: UnOp, kinds: Kinds) -> Kinds
    ensures { result ≡ unary_kinds op kinds }
{
    match (op, kinds) {
        (_, Kinds::Anything) => Kinds::Anything,
        (UnOp::Not, _) => Kinds::Truth,
        (UnOp::Neg, Kinds::Duration) => Kinds::Duration,
        (UnOp::Neg, _) => Kinds::Number,
        (UnOp::Invert, _) => kinds,
    }
}

/// What refuses a power.
fn power_cause(base: &Judgement, exponent: &Judgement) -> Option<Cause>
    ensures { result ≡ power_cause base.now exponent.now }
{
    if base.is_variable()
        || exponent.is_variable()
        || !exponent.may_be_count()
        || base.is_made_truth()
    {
        Some(Cause::BadPower)
    } else {
        unless_typed(base.may_be_base())
    }
}

/// What refuses a quotient by a number.
fn divisor_cause(dividend: &Judgement, y: &Num) -> Option<Cause>
    ensures { result ≡ divisor_cause dividend.now y.now }
{
    if dividend.is_duration() {
        unless_typed(!has_pi(y) && has_plain(y))
    } else if has_pi(y) {
        if has_plain(y) || !dividend.may_be_number() {
            Some(Cause::Number(NumRefusal::ByPi))
        } else {
            None
        }
    } else if has_plain(y) {
        unless_typed(dividend.may_be_number())
    } else {
        Some(Cause::Number(NumRefusal::ByZero))
    }
}

/// What refuses a quotient.
fn quotient_cause(dividend: &Judgement, divisor: &Judgement) -> Option<Cause>
    ensures { result ≡ quotient_cause dividend.now divisor.now }
{
    match divisor {
        Judgement::Value(ConstVal::Number(y)) => divisor_cause(dividend, y),
        _ => unless_typed(
            divisor.may_be_number()
                && (dividend.may_be_number()
                    || (dividend.is_duration() && divisor.may_be_factor())),
        ),
    }
}

/// What refuses a remainder by a number.
fn modulus_cause(dividend: &Judgement, y: &Num) -> Option<Cause>
    ensures { result ≡ modulus_cause dividend.now y.now }
{
    if dividend.is_duration() {
        Some(Cause::NoRule)
    } else if has_pi(y) {
        Some(Cause::Number(NumRefusal::ByPi))
    } else if has_plain(y) {
        unless_typed(is_whole(y) && dividend.may_be_whole())
    } else {
        Some(Cause::Number(NumRefusal::ByZero))
    }
}

/// What refuses a remainder.
fn remainder_cause(dividend: &Judgement, divisor: &Judgement) -> Option<Cause>
    ensures { result ≡ remainder_cause dividend.now divisor.now }
{
    match divisor {
        Judgement::Value(ConstVal::Number(y)) => modulus_cause(dividend, y),
        _ => unless_typed(divisor.may_be_whole() && dividend.may_be_whole()),
    }
}

/// What refuses a shift.
fn shift_cause(shifted: &Judgement, count: &Judgement) -> Option<Cause>
    ensures { result ≡ shift_cause shifted.now count.now }
{
    if count.is_wide_count() {
        return Some(Cause::Number(NumRefusal::TooWide));
    }
    unless_typed(shifted.may_be_shifted() && (count.may_be_count() || shifted.is_variable()))
}

/// What refuses an operation of which an operand has no value, where none may be anything.
fn typed_cause(op: BinOp, x: &Judgement, y: &Judgement) -> Option<Cause>
    ensures { result ≡ typed_cause op x.now y.now }
{
    let numbers = x.may_be_number() && y.may_be_number();
    let truths = x.may_be_truths(y);
    match op {
        BinOp::Power => power_cause(x, y),
        BinOp::Mul => unless_typed(
            numbers
                || (x.is_duration() && y.may_be_factor())
                || (x.may_be_factor() && y.is_duration()),
        ),
        BinOp::Div => quotient_cause(x, y),
        BinOp::Rem => remainder_cause(x, y),
        BinOp::Add | BinOp::Sub => unless_typed(numbers || (x.is_duration() && y.is_duration())),
        BinOp::ShiftLeft | BinOp::ShiftRight => shift_cause(x, y),
        BinOp::Less | BinOp::LessEqual | BinOp::Greater | BinOp::GreaterEqual => {
            unless_typed(numbers)
        }
        BinOp::Equal | BinOp::NotEqual => unless_typed(truths || numbers),
        BinOp::BitAnd | BinOp::BitXor | BinOp::BitOr => {
            unless_typed(truths || (x.may_be_whole() && y.may_be_whole()))
        }
        BinOp::And | BinOp::Or => unless_typed(truths),
    }
}

/// What refuses an operation of which an operand has no value.
pub fn pair_cause(op: BinOp, x: &Judgement, y: &Judgement) -> Option<Cause>
    ensures { result ≡ pair_cause op x.now y.now }
{
    if x.is_anything() || y.is_anything() {
        None
    } else {
        typed_cause(op, x, y)
    }
}

/// A number, or the duration that a duration makes.
fn number_or_duration(duration: bool) -> Kinds
    ensures { result ≡ number_or_duration duration }
{
    if duration {
        Kinds::Duration
    } else {
        Kinds::Number
    }
}

/// The kinds of an operator on bits.
fn bits_kinds(x: &Judgement, y: &Judgement) -> Kinds
    ensures { result ≡ bits_kinds x.now y.now }
{
    if !x.may_be_truths(y) {
        Kinds::Number
    } else if x.may_be_whole() && y.may_be_whole() {
        Kinds::NoDuration
    } else {
        Kinds::Truth
    }
}

/// The kinds of an operation of which an operand has no value, where none may be anything.
fn typed_kinds(op: BinOp, x: &Judgement, y: &Judgement) -> Kinds
    ensures { result ≡ typed_kinds op x.now y.now }
{
    match op {
        BinOp::Mul => number_or_duration(x.is_duration() || y.is_duration()),
        BinOp::Div | BinOp::Add | BinOp::Sub => number_or_duration(x.is_duration()),
        BinOp::Power | BinOp::Rem | BinOp::ShiftLeft | BinOp::ShiftRight => Kinds::Number,
        BinOp::BitAnd | BinOp::BitXor | BinOp::BitOr => bits_kinds(x, y),
        _ => Kinds::Truth,
    }
}

/// The kinds of an operation of which an operand has no value, where it isn't refused.
pub fn pair_kinds(op: BinOp, x: &Judgement, y: &Judgement) -> Kinds
    ensures { result ≡ pair_kinds op x.now y.now }
{
    if x.is_anything() || y.is_anything() {
        Kinds::Anything
    } else {
        typed_kinds(op, x, y)
    }
}
