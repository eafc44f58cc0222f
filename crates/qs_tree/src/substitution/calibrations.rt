ghost use Rattle.std.specs.Prelude.{◌≡◌, IfOk, map};
ghost use Rattle.qs_tree.specs.Substitution.{item_substituted, param_substituted};

use super::statements::stmt_substituted;
use super::{substituted, type_substituted};
use crate::copies::{both, ident_copied};
use crate::pulse::{Item, Param};
use crate::replacement::Replacing;
use qs_values::List;
use std::alloc::{AllocError, Global};

#[cycle(substitution)]
pub(super) fn item_substituted<R: Replacing>(
    alloc: Global,
    part: &Item,
    names: &R,
) -> Result<Item, AllocError>
    ensures { IfOk result (λ new. new ≡ item_substituted (R.put_in names.now) part.now) }
{
    Ok(match part {
        Item::Port(span, is_extern, name) => Item::Port(
            *span,
            *is_extern,
            ident_copied(alloc, name)?,
        ),
        Item::ExternFrame(span, name) => Item::ExternFrame(*span, ident_copied(alloc, name)?),
        Item::ExternWaveform(span, name) => Item::ExternWaveform(*span, ident_copied(alloc, name)?),
        Item::Frame(span, name, value) => {
            let (name, value) = both(ident_copied(alloc, name), substituted(alloc, value, names))?;
            Item::Frame(*span, name, value)
        }
        Item::Return(span, value) => Item::Return(*span, substituted(alloc, value, names)?),
        Item::Statement(statement) => Item::Statement(stmt_substituted(alloc, statement, names)?),
    })
}

#[cycle(substitution)]
pub(super) fn items_substituted<R: Replacing>(
    alloc: Global,
    parts: &[Item],
    names: &R,
) -> Result<List<Item>, AllocError>
    ensures { IfOk result (λ new. new ≡ map (item_substituted (R.put_in names.now)) parts.now) }
{
    let mut made = Vec::with_capacity(alloc, parts.len())?;
    for part in parts {
        made.push(item_substituted(alloc, part, names)?)?;
    }
    Ok(List::from_vec(made))
}

#[cycle(substitution)]
pub(super) fn param_substituted<R: Replacing>(
    alloc: Global,
    part: &Param,
    names: &R,
) -> Result<Param, AllocError>
    ensures { IfOk result (λ new. new ≡ param_substituted (R.put_in names.now) part.now) }
{
    Ok(match part {
        Param::Free(of, name) => {
            let (of, name) = both(
                type_substituted(alloc, of, names),
                ident_copied(alloc, name),
            )?;
            Param::Free(of, name)
        }
        Param::Fixed(value) => Param::Fixed(substituted(alloc, value, names)?),
    })
}

#[cycle(substitution)]
pub(super) fn params_substituted<R: Replacing>(
    alloc: Global,
    parts: &[Param],
    names: &R,
) -> Result<List<Param>, AllocError>
    ensures { IfOk result (λ new. new ≡ map (param_substituted (R.put_in names.now)) parts.now) }
{
    let mut made = Vec::with_capacity(alloc, parts.len())?;
    for part in parts {
        made.push(param_substituted(alloc, part, names)?)?;
    }
    Ok(List::from_vec(made))
}
