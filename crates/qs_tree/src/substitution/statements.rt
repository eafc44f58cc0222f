ghost use Rattle.std.specs.Prelude.{◌≡◌, IfOk, map};
ghost use Rattle.std.specs.Option.{option_map};
ghost use Rattle.qs_tree.specs.Substitution.{body_substituted, range_substituted, stmt_kind_substituted, stmt_substituted};

use super::calibrations::{items_substituted, params_substituted};
use super::gates::call_substituted;
use super::operands::{
    operand_substituted, operands_substituted, place_in_substituted, place_substituted,
    value_substituted,
};
use super::{
    boxed_in_substituted, boxed_substituted, expr_in_substituted, exprs_substituted, substituted,
    type_substituted,
};
use crate::copies::{
    both, cal_name_copied, ident_copied, idents_copied, idents_in_copied, text_copied,
};
use crate::replacement::Replacing;
use crate::statement::{Body, Range, Stmt, StmtKind};
use qs_values::{Boxed, List};
use std::alloc::{AllocError, Global};

#[cycle(substitution)]
pub(super) fn stmt_substituted<R: Replacing>(
    alloc: Global,
    part: &Stmt,
    names: &R,
) -> Result<Stmt, AllocError>
    ensures { IfOk result (λ new. new ≡ stmt_substituted (R.put_in names.now) part.now) }
{
    Ok(Stmt {
        span: part.span,
        kind: stmt_kind_substituted(alloc, &part.kind, names)?,
    })
}

#[cycle(substitution)]
pub(super) fn stmts_substituted<R: Replacing>(
    alloc: Global,
    parts: &[Stmt],
    names: &R,
) -> Result<List<Stmt>, AllocError>
    ensures { IfOk result (λ new. new ≡ map (stmt_substituted (R.put_in names.now)) parts.now) }
{
    let mut made = Vec::with_capacity(alloc, parts.len())?;
    for part in parts {
        made.push(stmt_substituted(alloc, part, names)?)?;
    }
    Ok(List::from_vec(made))
}

#[cycle(substitution)]
pub(super) fn stmt_kind_substituted<R: Replacing>(
    alloc: Global,
    part: &StmtKind,
    names: &R,
) -> Result<StmtKind, AllocError>
    ensures { IfOk result (λ new. new ≡ stmt_kind_substituted (R.put_in names.now) part.now) }
{
    match part {
        StmtKind::Include(text) => Ok(StmtKind::Include(text_copied(alloc, text)?)),
        StmtKind::DefcalGrammar(text) => Ok(StmtKind::DefcalGrammar(text_copied(alloc, text)?)),
        StmtKind::Qubit(size, name) => {
            let (size, name) = both(
                expr_in_substituted(alloc, size, names),
                ident_copied(alloc, name),
            )?;
            Ok(StmtKind::Qubit(size, name))
        }
        StmtKind::Input(of, name) => {
            let (of, name) = both(
                type_substituted(alloc, of, names),
                ident_copied(alloc, name),
            )?;
            Ok(StmtKind::Input(of, name))
        }
        StmtKind::Output(of, name) => {
            let (of, name) = both(
                type_substituted(alloc, of, names),
                ident_copied(alloc, name),
            )?;
            Ok(StmtKind::Output(of, name))
        }
        StmtKind::Gate(name, params, qubits, calls) => {
            let ((name, params), (qubits, calls)) = both(
                both(ident_copied(alloc, name), idents_in_copied(alloc, params)),
                both(
                    idents_copied(alloc, qubits.as_slice()),
                    stmts_substituted(alloc, calls.as_slice(), names),
                ),
            )?;
            Ok(StmtKind::Gate(name, params, qubits, calls))
        }
        StmtKind::Cal(items) => Ok(StmtKind::Cal(items_substituted(
            alloc,
            items.as_slice(),
            names,
        )?)),
        StmtKind::Defcal(name, params, operands, gives_bit, items) => {
            let (operands, items) = both(
                operands_substituted(alloc, operands.as_slice(), names),
                items_substituted(alloc, items.as_slice(), names),
            )?;
            let name = cal_name_copied(alloc, name)?;
            match params {
                Some(params) => {
                    let params = Some(params_substituted(alloc, params.as_slice(), names)?);
                    Ok(StmtKind::Defcal(name, params, operands, *gives_bit, items))
                }
                None => Ok(StmtKind::Defcal(name, None, operands, *gives_bit, items)),
            }
        }
        StmtKind::Init(is_const, of, name, value) => {
            let (of, (name, value)) = both(
                type_substituted(alloc, of, names),
                both(
                    ident_copied(alloc, name),
                    value_substituted(alloc, value, names),
                ),
            )?;
            Ok(StmtKind::Init(*is_const, of, name, value))
        }
        StmtKind::Declare(of, name) => {
            let (of, name) = both(
                type_substituted(alloc, of, names),
                ident_copied(alloc, name),
            )?;
            Ok(StmtKind::Declare(of, name))
        }
        StmtKind::Stretch(name) => Ok(StmtKind::Stretch(ident_copied(alloc, name)?)),
        StmtKind::GateCall(call) => Ok(StmtKind::GateCall(call_substituted(alloc, call, names)?)),
        StmtKind::Assign(place, value) => {
            let (place, value) = both(
                place_substituted(alloc, place, names),
                value_substituted(alloc, value, names),
            )?;
            Ok(StmtKind::Assign(place, value))
        }
        StmtKind::Update(place, op, value) => {
            let (place, value) = both(
                place_substituted(alloc, place, names),
                substituted(alloc, value, names),
            )?;
            Ok(StmtKind::Update(place, *op, value))
        }
        StmtKind::Measure(operand, place) => {
            let (operand, place) = both(
                operand_substituted(alloc, operand, names),
                place_in_substituted(alloc, place, names),
            )?;
            Ok(StmtKind::Measure(operand, place))
        }
        StmtKind::Reset(operand) => Ok(StmtKind::Reset(operand_substituted(
            alloc, operand, names,
        )?)),
        StmtKind::Barrier(operands) => Ok(StmtKind::Barrier(operands_substituted(
            alloc,
            operands.as_slice(),
            names,
        )?)),
        StmtKind::Delay(time, operands) => {
            let (time, operands) = both(
                substituted(alloc, time, names),
                operands_substituted(alloc, operands.as_slice(), names),
            )?;
            Ok(StmtKind::Delay(time, operands))
        }
        StmtKind::Box(time, statements) => {
            let (time, statements) = both(
                expr_in_substituted(alloc, time, names),
                stmts_substituted(alloc, statements.as_slice(), names),
            )?;
            Ok(StmtKind::Box(time, statements))
        }
        StmtKind::If(test, body, other) => {
            let (test, (body, other)) = both(
                substituted(alloc, test, names),
                both(
                    body_substituted(alloc, body, names),
                    body_in_substituted(alloc, other, names),
                ),
            )?;
            Ok(StmtKind::If(test, body, other))
        }
        StmtKind::While(test, body) => {
            let (test, body) = both(
                substituted(alloc, test, names),
                body_substituted(alloc, body, names),
            )?;
            Ok(StmtKind::While(test, body))
        }
        StmtKind::For(of, name, range, body) => {
            let ((of, name), (range, body)) = both(
                both(
                    type_substituted(alloc, of, names),
                    ident_copied(alloc, name),
                ),
                both(
                    range_substituted(alloc, range, names),
                    body_substituted(alloc, body, names),
                ),
            )?;
            Ok(StmtKind::For(of, name, range, body))
        }
        StmtKind::Break => Ok(StmtKind::Break),
        StmtKind::Continue => Ok(StmtKind::Continue),
        StmtKind::End => Ok(StmtKind::End),
    }
}

#[cycle(substitution)]
pub(super) fn body_substituted<R: Replacing>(
    alloc: Global,
    part: &Body,
    names: &R,
) -> Result<Body, AllocError>
    ensures { IfOk result (λ new. new ≡ body_substituted (R.put_in names.now) part.now) }
{
    Ok(match part {
        Body::One(statement) => Body::One(Boxed::new(
            alloc,
            stmt_substituted(alloc, statement.get(), names)?,
        )?),
        Body::Braces(statements) => Body::Braces(stmts_substituted(
            alloc,
            statements.as_slice(),
            names,
        )?),
    })
}

#[cycle(substitution)]
pub(super) fn body_in_substituted<R: Replacing>(
    alloc: Global,
    part: &Option<Body>,
    names: &R,
) -> Result<Option<Body>, AllocError>
    ensures { IfOk result
        (λ new. new ≡ option_map (body_substituted (R.put_in names.now)) part.now) }
{
    match part {
        Some(part) => Ok(Some(body_substituted(alloc, part, names)?)),
        None => Ok(None),
    }
}

#[cycle(substitution)]
pub(super) fn range_substituted<R: Replacing>(
    alloc: Global,
    part: &Range,
    names: &R,
) -> Result<Range, AllocError>
    ensures { IfOk result (λ new. new ≡ range_substituted (R.put_in names.now) part.now) }
{
    Ok(match part {
        Range::Interval(span, first, step, last) => {
            let (first, (step, last)) = both(
                boxed_substituted(alloc, first, names),
                both(
                    boxed_in_substituted(alloc, step, names),
                    boxed_substituted(alloc, last, names),
                ),
            )?;
            Range::Interval(*span, first, step, last)
        }
        Range::Set(span, members) => Range::Set(
            *span,
            exprs_substituted(alloc, members.as_slice(), names)?,
        ),
    })
}
