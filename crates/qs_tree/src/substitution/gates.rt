ghost use Rattle.std.specs.Prelude.{◌≡◌, IfOk, map};
ghost use Rattle.qs_tree.specs.Substitution.{call_substituted, modifier_substituted};

use super::operands::operands_substituted;
use super::{expr_in_substituted, exprs_substituted, substituted};
use crate::copies::{both, ident_copied};
use crate::gate::{Call, Modifier};
use crate::replacement::Replacing;
use qs_values::List;
use std::alloc::{AllocError, Global};

#[cycle(substitution)]
pub(super) fn call_substituted<R: Replacing>(
    alloc: Global,
    part: &Call,
    names: &R,
) -> Result<Call, AllocError>
    ensures { IfOk result (λ new. new ≡ call_substituted (R.put_in names.now) part.now) }
{
    let (modifiers, operands) = both(
        modifiers_substituted(alloc, part.modifiers.as_slice(), names),
        operands_substituted(alloc, part.operands.as_slice(), names),
    )?;
    let name = ident_copied(alloc, &part.name)?;
    match &part.args {
        Some(args) => {
            let args = Some(exprs_substituted(alloc, args.as_slice(), names)?);
            Ok(Call {
                modifiers,
                name,
                args,
                operands,
            })
        }
        None => Ok(Call {
            modifiers,
            name,
            args: None,
            operands,
        }),
    }
}

#[cycle(substitution)]
pub(super) fn modifier_substituted<R: Replacing>(
    alloc: Global,
    part: &Modifier,
    names: &R,
) -> Result<Modifier, AllocError>
    ensures { IfOk result (λ new. new ≡ modifier_substituted (R.put_in names.now) part.now) }
{
    Ok(match part {
        Modifier::Inv => Modifier::Inv,
        Modifier::Pow(exponent) => Modifier::Pow(substituted(alloc, exponent, names)?),
        Modifier::Ctrl(count) => Modifier::Ctrl(expr_in_substituted(alloc, count, names)?),
        Modifier::NegCtrl(count) => Modifier::NegCtrl(expr_in_substituted(alloc, count, names)?),
    })
}

#[cycle(substitution)]
pub(super) fn modifiers_substituted<R: Replacing>(
    alloc: Global,
    parts: &[Modifier],
    names: &R,
) -> Result<List<Modifier>, AllocError>
    ensures { IfOk result
        (λ new. new ≡ map (modifier_substituted (R.put_in names.now)) parts.now) }
{
    let mut made = Vec::with_capacity(alloc, parts.len())?;
    for part in parts {
        made.push(modifier_substituted(alloc, part, names)?)?;
    }
    Ok(List::from_vec(made))
}
