ghost use Rattle.std.specs.Prelude.{◌≡◌};
ghost use Rattle.qs_const.specs.Causes.{first_fault};
ghost use Rattle.qs_const.specs.Judging.{at, fault_of, of_cause, of_result, refused, without_value};

use crate::cause::{Cause, Fault};
use crate::judgement::{Absent, Judgement, Kinds};
use qs_tree::ConstVal;
use qs_values::Span;

/// The first of two faults.
pub fn first_fault(one: Option<Fault>, other: Option<Fault>) -> Option<Fault>
    ensures { result ≡ first_fault one other }
{
    match (one, other) {
        (Some(f), Some(g)) => Some(if g.is_before(&f) { g } else { f }),
        (Some(f), None) => Some(f),
        (None, other) => other,
    }
}

impl Judgement {
    /// The first fault in it, where there is one.
    pub fn fault(&self) -> Option<Fault>
        ensures { result ≡ fault_of self.now }
    {
        match self {
            Judgement::Value(_) => None,
            Judgement::Absent(absent) => absent.fault,
        }
    }
}

/// A part without a value.
pub fn without_value(fault: Option<Fault>, kinds: Kinds) -> Judgement
    ensures { result ≡ without_value fault kinds }
{
    Judgement::Absent(Absent {
        fault,
        kinds,
        variable: false,
    })
}

/// A part that is itself refused, with the first fault in its own parts, and the kinds that it may
/// have.
pub fn refused(any: Kinds, span: Span, cause: Cause, inner: Option<Fault>) -> Judgement
    ensures { result ≡ refused any span cause inner }
{
    without_value(first_fault(Some(Fault { span, cause }), inner), any)
}

/// What a number, a text or an operation on constants comes to, with the kinds of what is refused.
pub fn of_result(any: Kinds, span: Span, outcome: Result<ConstVal, Cause>) -> Judgement
    ensures { result ≡ of_result any span outcome }
{
    match outcome {
        Ok(value) => Judgement::Value(value),
        Err(cause) => refused(any, span, cause, None),
    }
}

/// What an operation comes to of which an operand has no value: with its own cause, where there is
/// one, the first fault in its operands, the kinds of what is refused, and those of what isn't.
pub fn of_cause(
    any: Kinds,
    span: Span,
    cause: Option<Cause>,
    inner: Option<Fault>,
    kinds: Kinds,
) -> Judgement
    ensures { result ≡ of_cause any span cause inner kinds }
{
    match cause {
        Some(cause) => refused(any, span, cause, inner),
        None => without_value(inner, kinds),
    }
}
