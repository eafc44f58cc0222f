//! Expressions put in for names.
ghost use Rattle.std.specs.Prelude.{◌≡◌, IfOk, map};
ghost use Rattle.std.specs.Option.{option_map};
ghost use Rattle.qs_tree.specs.Substitution.{kind_substituted, substituted, type_substituted};

mod calibrations;
mod gates;
mod operands;
mod statements;

use crate::copies::{both, text_copied};
use crate::expr::{Expr, ExprKind, TypeExpr};
use crate::replacement::Replacing;
use qs_values::{Boxed, List};
use statements::stmts_substituted;
use std::alloc::{AllocError, Global};

/// An expression with others put in for names: each name that stands as an expression, in an index,
/// an argument or a statement of a `durationof` too, becomes what is put in for it, at the name's
/// own place in the source. Before an index and at a place of a statement it becomes another name,
/// where one is put in. Names that are declared or called stay, and so does everything else. An
/// error where memory runs out.
#[cycle(substitution)]
pub fn substituted<R: Replacing>(alloc: Global, part: &Expr, names: &R) -> Result<Expr, AllocError>
    ensures { IfOk result (λ new. new ≡ substituted (R.put_in names.now) part.now) }
{
    let span = part.span;
    let kind = kind_substituted(alloc, &part.kind, names)?;
    Ok(Expr { span, kind })
}

/// What an expression is, with others put in for names.
#[cycle(substitution)]
pub(crate) fn kind_substituted<R: Replacing>(
    alloc: Global,
    part: &ExprKind,
    names: &R,
) -> Result<ExprKind, AllocError>
    ensures { IfOk result (λ new. new ≡ kind_substituted (R.put_in names.now) part.now) }
{
    Ok(match part {
        ExprKind::Whole(value) => ExprKind::Whole(*value),
        ExprKind::Decimal(value) => ExprKind::Decimal(*value),
        ExprKind::Time(value, unit) => ExprKind::Time(*value, *unit),
        ExprKind::Text(text) => ExprKind::Text(text_copied(alloc, text)?),
        ExprKind::Truth(value) => ExprKind::Truth(*value),
        ExprKind::Name(name) => names.at_name(alloc, name.as_str())?,
        ExprKind::Index(name, index) => {
            let (name, index) = both(
                names.renamed(alloc, name.as_str()),
                boxed_substituted(alloc, index, names),
            )?;
            ExprKind::Index(name, index)
        }
        ExprKind::Physical(number) => ExprKind::Physical(*number),
        ExprKind::Call(name, args) => {
            let (name, args) = both(
                text_copied(alloc, name),
                exprs_substituted(alloc, args.as_slice(), names),
            )?;
            ExprKind::Call(name, args)
        }
        ExprKind::Cast(to, operand) => {
            let (to, operand) = both(
                type_substituted(alloc, to, names),
                boxed_substituted(alloc, operand, names),
            )?;
            ExprKind::Cast(to, operand)
        }
        ExprKind::DurationOf(body) => ExprKind::DurationOf(stmts_substituted(
            alloc,
            body.as_slice(),
            names,
        )?),
        ExprKind::Group(inner) => ExprKind::Group(boxed_substituted(alloc, inner, names)?),
        ExprKind::Unary(op, operand) => ExprKind::Unary(
            *op,
            boxed_substituted(alloc, operand, names)?,
        ),
        ExprKind::Binary(left, op, right) => {
            let (left, right) = both(
                boxed_substituted(alloc, left, names),
                boxed_substituted(alloc, right, names),
            )?;
            ExprKind::Binary(left, *op, right)
        }
        ExprKind::Number(value) => ExprKind::Number(*value),
    })
}

#[cycle(substitution)]
fn type_substituted<R: Replacing>(
    alloc: Global,
    part: &TypeExpr,
    names: &R,
) -> Result<TypeExpr, AllocError>
    ensures { IfOk result (λ new. new ≡ type_substituted (R.put_in names.now) part.now) }
{
    Ok(TypeExpr {
        span: part.span,
        word: part.word,
        width: boxed_in_substituted(alloc, &part.width, names)?,
    })
}

#[cycle(substitution)]
fn exprs_substituted<R: Replacing>(
    alloc: Global,
    parts: &[Expr],
    names: &R,
) -> Result<List<Expr>, AllocError>
    ensures { IfOk result (λ new. new ≡ map (substituted (R.put_in names.now)) parts.now) }
{
    let mut made = Vec::with_capacity(alloc, parts.len())?;
    for part in parts {
        made.push(substituted(alloc, part, names)?)?;
    }
    Ok(List::from_vec(made))
}

#[cycle(substitution)]
fn expr_in_substituted<R: Replacing>(
    alloc: Global,
    part: &Option<Expr>,
    names: &R,
) -> Result<Option<Expr>, AllocError>
    ensures { IfOk result (λ new. new ≡ option_map (substituted (R.put_in names.now)) part.now) }
{
    match part {
        Some(part) => Ok(Some(substituted(alloc, part, names)?)),
        None => Ok(None),
    }
}

#[cycle(substitution)]
fn boxed_substituted<R: Replacing>(
    alloc: Global,
    part: &Boxed<Expr>,
    names: &R,
) -> Result<Boxed<Expr>, AllocError>
    ensures { IfOk result (λ new. new ≡ substituted (R.put_in names.now) part.now) }
{
    Boxed::new(alloc, substituted(alloc, part.get(), names)?)
}

#[cycle(substitution)]
fn boxed_in_substituted<R: Replacing>(
    alloc: Global,
    part: &Option<Boxed<Expr>>,
    names: &R,
) -> Result<Option<Boxed<Expr>>, AllocError>
    ensures { IfOk result (λ new. new ≡ option_map (substituted (R.put_in names.now)) part.now) }
{
    match part {
        Some(part) => Ok(Some(Boxed::new(alloc, substituted(alloc, part.get(), names)?)?)),
        None => Ok(None),
    }
}
