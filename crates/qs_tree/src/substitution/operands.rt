ghost use Rattle.std.specs.Prelude.{◌≡◌, IfOk, map};
ghost use Rattle.std.specs.Option.{option_map};
ghost use Rattle.qs_tree.specs.Substitution.{operand_substituted, place_substituted, value_substituted};

use super::{boxed_in_substituted, substituted};
use crate::name::Ident;
use crate::operand::{Operand, Place, Value};
use crate::replacement::Replacing;
use qs_values::List;
use std::alloc::{AllocError, Global};

#[cycle(substitution)]
pub(super) fn place_substituted<R: Replacing>(
    alloc: Global,
    part: &Place,
    names: &R,
) -> Result<Place, AllocError>
    ensures { IfOk result (λ new. new ≡ place_substituted (R.put_in names.now) part.now) }
{
    Ok(Place {
        name: Ident {
            span: part.name.span,
            name: names.renamed(alloc, part.name.name.as_str())?,
        },
        index: boxed_in_substituted(alloc, &part.index, names)?,
    })
}

#[cycle(substitution)]
pub(super) fn place_in_substituted<R: Replacing>(
    alloc: Global,
    part: &Option<Place>,
    names: &R,
) -> Result<Option<Place>, AllocError>
    ensures { IfOk result
        (λ new. new ≡ option_map (place_substituted (R.put_in names.now)) part.now) }
{
    match part {
        Some(part) => Ok(Some(place_substituted(alloc, part, names)?)),
        None => Ok(None),
    }
}

#[cycle(substitution)]
pub(super) fn operand_substituted<R: Replacing>(
    alloc: Global,
    part: &Operand,
    names: &R,
) -> Result<Operand, AllocError>
    ensures { IfOk result (λ new. new ≡ operand_substituted (R.put_in names.now) part.now) }
{
    Ok(match part {
        Operand::Named(place) => Operand::Named(place_substituted(alloc, place, names)?),
        Operand::PhysicalQubit(span, number) => Operand::PhysicalQubit(*span, *number),
    })
}

#[cycle(substitution)]
pub(super) fn operands_substituted<R: Replacing>(
    alloc: Global,
    parts: &[Operand],
    names: &R,
) -> Result<List<Operand>, AllocError>
    ensures { IfOk result
        (λ new. new ≡ map (operand_substituted (R.put_in names.now)) parts.now) }
{
    let mut made = Vec::with_capacity(alloc, parts.len())?;
    for part in parts {
        made.push(operand_substituted(alloc, part, names)?)?;
    }
    Ok(List::from_vec(made))
}

#[cycle(substitution)]
pub(super) fn value_substituted<R: Replacing>(
    alloc: Global,
    part: &Value,
    names: &R,
) -> Result<Value, AllocError>
    ensures { IfOk result (λ new. new ≡ value_substituted (R.put_in names.now) part.now) }
{
    Ok(match part {
        Value::Expression(value) => Value::Expression(substituted(alloc, value, names)?),
        Value::Measurement(operand) => Value::Measurement(operand_substituted(
            alloc, operand, names,
        )?),
    })
}
