ghost use Rattle.std.specs.Prelude.{◌≡◌, IfOk};
ghost use Rattle.qs_const.specs.Judging.{NameComesTo, TextComesTo, any_kind, call_cause, called, index_judged, indexed, name_judged, times_pi, variable_at};

use crate::cause::{Cause, Fault};
use crate::judgement::{Absent, Judgement, Kinds};
use crate::meaning::{Meaning, Names};
use crate::parts::{first_fault, refused, without_value};
use qs_tree::{ConstVal, bits_of};
use qs_values::{Frac, Num, Span};
use std::alloc::{AllocError, Global};

/// How many pi a name is, where it is one of their names.
fn times_pi(name: &str) -> Option<u8>
    ensures { result ≡ times_pi name.now }
{
    if name == "pi" || name == "π" {
        Some(1)
    } else if name == "tau" || name == "τ" {
        Some(2)
    } else {
        None
    }
}

/// The kinds that a refused part may have, and an unknown name.
pub fn any_kind<N: Names>(names: &N) -> Kinds
    ensures { result ≡ any_kind (N.scope names.now) }
{
    if names.is_in_duration() {
        Kinds::Anything
    } else {
        Kinds::NoDuration
    }
}

/// What a variable comes to, with the first fault in its index.
fn variable_at(span: Span, inner: Option<Fault>) -> Judgement
    ensures { result ≡ variable_at span inner }
{
    let cause = Cause::Variable;
    Judgement::Absent(Absent {
        fault: first_fault(Some(Fault { span, cause }), inner),
        kinds: Kinds::NoDuration,
        variable: true,
    })
}

/// What a name comes to by its meaning.
fn name_judged(any: Kinds, span: Span, meaning: Meaning) -> Judgement
    ensures { result ≡ name_judged any span meaning }
{
    match meaning {
        Meaning::Constant(value) => Judgement::Value(value),
        Meaning::Variable => variable_at(span, None),
        Meaning::Unknown => refused(any, span, Cause::Unknown, None),
        Meaning::Parameter => without_value(None, Kinds::NoDuration),
        Meaning::Duration => without_value(None, Kinds::Duration),
        Meaning::Gate | Meaning::NoValue => refused(any, span, Cause::NoRule, None),
    }
}

/// What a name with an index comes to by the name's meaning, with the first fault in its index.
fn index_judged(any: Kinds, span: Span, meaning: &Meaning, inner: Option<Fault>) -> Judgement
    ensures { result ≡ index_judged any span meaning.now inner }
{
    match meaning {
        Meaning::Variable => variable_at(span, inner),
        Meaning::Unknown => refused(any, span, Cause::Unknown, inner),
        Meaning::Constant(_)
        | Meaning::Parameter
        | Meaning::Duration
        | Meaning::Gate
        | Meaning::NoValue => refused(any, span, Cause::NoRule, inner),
    }
}

/// Why a name of this meaning can't be called.
fn call_cause(meaning: &Meaning) -> Cause
    ensures { result ≡ call_cause meaning.now }
{
    match meaning {
        Meaning::Gate => Cause::NoRule,
        _ => Cause::Unknown,
    }
}

/// What a name comes to: a multiple of pi, or what the names say.
pub fn name_at<N: Names>(
    alloc: Global,
    names: &N,
    span: Span,
    name: &str,
) -> Result<Judgement, AllocError>
    ensures { IfOk result (λ j. NameComesTo (N.scope names.now) span name.now j) }
{
    if let Some(n) = times_pi(name) {
        return Ok(Judgement::Value(ConstVal::Number(Num {
            plain: Frac::whole(0),
            pi: Frac::whole(n as i32),
        })));
    }
    let meaning = names.meaning(alloc, name)?;
    Ok(name_judged(any_kind(names), span, meaning))
}

/// What a name with an index comes to.
pub fn index_at<N: Names>(
    alloc: Global,
    names: &N,
    span: Span,
    name: &str,
    index: &Judgement,
) -> Result<Judgement, AllocError>
    ensures { IfOk result (λ j. j ≡ indexed (N.scope names.now) span name.now index.now) }
{
    let any = any_kind(names);
    if times_pi(name).is_some() {
        return Ok(refused(any, span, Cause::NoRule, index.fault()));
    }
    let meaning = names.meaning(alloc, name)?;
    Ok(index_judged(any, span, &meaning, index.fault()))
}

/// What a call comes to.
pub fn call_at<N: Names>(
    alloc: Global,
    names: &N,
    span: Span,
    name: &str,
) -> Result<Judgement, AllocError>
    ensures { IfOk result (λ j. j ≡ called (N.scope names.now) span name.now) }
{
    let any = any_kind(names);
    if times_pi(name).is_some() {
        return Ok(refused(any, span, Cause::Unknown, None));
    }
    let meaning = names.meaning(alloc, name)?;
    Ok(refused(any, span, call_cause(&meaning), None))
}

/// What a text in quotes comes to: its digits.
pub fn text_at(alloc: Global, any: Kinds, span: Span, text: &str) -> Result<Judgement, AllocError>
    ensures { IfOk result (λ j. TextComesTo any span text.now j) }
{
    match bits_of(alloc, text)? {
        Some(digits) => Ok(Judgement::Value(ConstVal::Bits(digits))),
        None => Ok(refused(any, span, Cause::NoRule, None)),
    }
}
