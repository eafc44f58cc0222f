ghost use Rattle.std.specs.Prelude.{◌≡◌, pos};
ghost use Rattle.qs_const.specs.Operands.{has_pi, has_plain, is_anything, is_duration, is_made_truth, is_up_to, is_variable, is_whole, is_wide_count, may_be_base, may_be_count, may_be_factor, may_be_number, may_be_shifted, may_be_truth, may_be_truths, may_be_whole, may_become_truth, takes_truth};

use crate::judgement::Judgement;
use qs_tree::ConstVal;
use qs_values::Num;

/// Whether a number has a part with pi.
pub fn has_pi(x: &Num) -> bool
    ensures { result ≡ has_pi x.now }
{
    x.pi.num() != 0
}

/// Whether a number has a part without pi.
pub fn has_plain(x: &Num) -> bool
    ensures { result ≡ has_plain x.now }
{
    x.plain.num() != 0
}

/// Whether a number is whole.
pub fn is_whole(x: &Num) -> bool
    ensures { result ≡ is_whole x.now }
{
    !has_pi(x) && x.plain.den() == 1
}

/// Whether a number is a whole one from 0 to 1.
fn is_up_to_1(x: &Num) -> bool
    ensures { result ≡ is_up_to x.now (pos 1) }
{
    is_whole(x) && 0 <= x.plain.num() && x.plain.num() <= 1
}

/// Whether a number is a whole one from 0 to 63.
fn is_up_to_63(x: &Num) -> bool
    ensures { result ≡ is_up_to x.now (pos 63) }
{
    is_whole(x) && 0 <= x.plain.num() && x.plain.num() <= 63
}

impl Judgement {
    /// Whether it may be a number, or is a text, which becomes one beside a number.
    pub fn may_be_number(&self) -> bool
        ensures { result ≡ may_be_number self.now }
    {
        match self {
            Judgement::Value(ConstVal::Truth(_)) => false,
            Judgement::Value(_) => true,
            Judgement::Absent(absent) => absent.kinds.has_number(),
        }
    }

    /// Whether it has no value and may be a truth value.
    fn may_be_truth(&self) -> bool
        ensures { result ≡ may_be_truth self.now }
    {
        match self {
            Judgement::Value(_) => false,
            Judgement::Absent(absent) => absent.kinds.has_truth(),
        }
    }

    /// Whether it may stand beside a truth value: it may be one, or a number that may be 0 or 1.
    fn may_become_truth(&self) -> bool
        ensures { result ≡ may_become_truth self.now }
    {
        match self {
            Judgement::Value(ConstVal::Number(x)) => is_up_to_1(x),
            Judgement::Value(ConstVal::Truth(_)) => true,
            Judgement::Value(ConstVal::Bits(_)) => false,
            Judgement::Absent(absent) => !absent.kinds.has_duration_alone(),
        }
    }

    /// Whether it has no value and may be a truth value, and another operand may stand beside one.
    fn takes_truth(&self, other: &Judgement) -> bool
        ensures { result ≡ takes_truth self.now other.now }
    {
        self.may_be_truth() && other.may_become_truth()
    }

    /// Whether it and another operand may be truth values together.
    pub fn may_be_truths(&self, other: &Judgement) -> bool
        ensures { result ≡ may_be_truths self.now other.now }
    {
        self.takes_truth(other) || other.takes_truth(self)
    }

    /// Whether it may be a whole number, or is a text, which becomes one beside a number.
    pub fn may_be_whole(&self) -> bool
        ensures { result ≡ may_be_whole self.now }
    {
        match self {
            Judgement::Value(ConstVal::Number(x)) => is_whole(x),
            Judgement::Value(ConstVal::Truth(_)) => false,
            Judgement::Value(ConstVal::Bits(_)) => true,
            Judgement::Absent(absent) => absent.kinds.has_number(),
        }
    }

    /// Whether it may be a whole number itself.
    pub fn may_be_shifted(&self) -> bool
        ensures { result ≡ may_be_shifted self.now }
    {
        match self {
            Judgement::Value(ConstVal::Number(x)) => is_whole(x),
            Judgement::Value(_) => false,
            Judgement::Absent(absent) => absent.kinds.has_number(),
        }
    }

    /// Whether it may be a number itself.
    pub fn may_be_base(&self) -> bool
        ensures { result ≡ may_be_base self.now }
    {
        match self {
            Judgement::Value(ConstVal::Number(_)) => true,
            Judgement::Value(_) => false,
            Judgement::Absent(absent) => absent.kinds.has_number(),
        }
    }

    /// Whether it may be a number without pi.
    pub fn may_be_factor(&self) -> bool
        ensures { result ≡ may_be_factor self.now }
    {
        match self {
            Judgement::Value(ConstVal::Number(x)) => !has_pi(x),
            Judgement::Value(_) => false,
            Judgement::Absent(absent) => absent.kinds.has_number(),
        }
    }

    /// Whether it may be a whole number from 0 to 63.
    pub fn may_be_count(&self) -> bool
        ensures { result ≡ may_be_count self.now }
    {
        match self {
            Judgement::Value(ConstVal::Number(x)) => is_up_to_63(x),
            Judgement::Value(_) => false,
            Judgement::Absent(absent) => absent.kinds.has_number(),
        }
    }

    /// Whether it is a whole number outside of 0 to 63.
    pub fn is_wide_count(&self) -> bool
        ensures { result ≡ is_wide_count self.now }
    {
        match self {
            Judgement::Value(ConstVal::Number(x)) => is_whole(x) && !is_up_to_63(x),
            _ => false,
        }
    }

    /// Whether it is a truth value without a value.
    pub fn is_made_truth(&self) -> bool
        ensures { result ≡ is_made_truth self.now }
    {
        match self {
            Judgement::Value(_) => false,
            Judgement::Absent(absent) => absent.kinds.has_truth() && !absent.kinds.has_number(),
        }
    }

    /// Whether it is a duration.
    pub fn is_duration(&self) -> bool
        ensures { result ≡ is_duration self.now }
    {
        match self {
            Judgement::Value(_) => false,
            Judgement::Absent(absent) => absent.kinds.has_duration_alone(),
        }
    }

    /// Whether it may be anything, a duration too.
    pub fn is_anything(&self) -> bool
        ensures { result ≡ is_anything self.now }
    {
        match self {
            Judgement::Value(_) => false,
            Judgement::Absent(absent) => absent.kinds.has_anything(),
        }
    }

    /// Whether it is a variable, one with an index, or one of these in brackets.
    pub fn is_variable(&self) -> bool
        ensures { result ≡ is_variable self.now }
    {
        match self {
            Judgement::Value(_) => false,
            Judgement::Absent(absent) => absent.variable,
        }
    }
}
