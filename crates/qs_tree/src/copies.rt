ghost use Rattle.std.specs.Prelude.{◌≡◌, IfOk};

use crate::name::Ident;
use crate::pulse::CalName;
use qs_values::{List, Name};
use std::alloc::{AllocError, Global};

/// Two parts together, or the error of the first that has one.
pub(crate) fn both<A: Drop, B: Drop>(
    one: Result<A, AllocError>,
    other: Result<B, AllocError>,
) -> Result<(A, B), AllocError>
    ensures { IfOk result (λ parts. (one ≡ Ok parts.0) × (other ≡ Ok parts.1)) }
{
    Ok((one?, other?))
}

/// A copy of a text.
pub(crate) fn text_copied(alloc: Global, text: &Name) -> Result<Name, AllocError>
    ensures { IfOk result (λ copy. copy ≡ text.now) }
{
    Name::copy_of(alloc, text.as_str())
}

/// A copy of a name at its place.
pub(crate) fn ident_copied(alloc: Global, part: &Ident) -> Result<Ident, AllocError>
    ensures { IfOk result (λ copy. copy ≡ part.now) }
{
    Ok(Ident {
        span: part.span,
        name: text_copied(alloc, &part.name)?,
    })
}

/// A copy of names at their places.
pub(crate) fn idents_copied(alloc: Global, parts: &[Ident]) -> Result<List<Ident>, AllocError>
    ensures { IfOk result (λ copy. copy ≡ parts.now) }
{
    let mut made = Vec::with_capacity(alloc, parts.len())?;
    for part in parts {
        made.push(ident_copied(alloc, part)?)?;
    }
    Ok(List::from_vec(made))
}

/// A copy of names that may be left out.
pub(crate) fn idents_in_copied(
    alloc: Global,
    part: &Option<List<Ident>>,
) -> Result<Option<List<Ident>>, AllocError>
    ensures { IfOk result (λ copy. copy ≡ part.now) }
{
    match part {
        Some(parts) => Ok(Some(idents_copied(alloc, parts.as_slice())?)),
        None => Ok(None),
    }
}

/// A copy of what a calibration is given for.
pub(crate) fn cal_name_copied(alloc: Global, part: &CalName) -> Result<CalName, AllocError>
    ensures { IfOk result (λ copy. copy ≡ part.now) }
{
    match part {
        CalName::Gate(name) => Ok(CalName::Gate(ident_copied(alloc, name)?)),
        CalName::Measure => Ok(CalName::Measure),
        CalName::Reset => Ok(CalName::Reset),
    }
}
