ghost use Rattle.std.specs.Prelude.{◌≡◌, ◌++◌, OnOk, decimal};
ghost use Rattle.std.specs.Fmt.{signed_decimal};
ghost use Rattle.qasm_dump.specs.Trees.{calibrated, chars, chars_if, frac, ident, idents, idents_if, place};

use itoa::Buffer;
use qs_tree::{CalName, Ident};
use qs_values::{Frac, List, Name, Span};
use std::alloc::AllocError;

/// These characters.
pub fn put(out: &mut Vec<u8>, text: &[u8]) -> Result<(), AllocError>
    ensures { OnOk result (out.new.items ≡ out.old.items ++ text.now) }
{
    out.extend_from_slice(text)?;
    Ok(())
}

/// A whole number in decimal digits.
pub fn put_number(out: &mut Vec<u8>, number: u64) -> Result<(), AllocError>
    ensures { OnOk result (out.new.items ≡ out.old.items ++ decimal number) }
{
    let mut digits = Buffer::new();
    put(out, digits.format(number).as_bytes())
}

/// A whole number in decimal digits, with a minus where it is below 0.
pub fn put_int(out: &mut Vec<u8>, number: i128) -> Result<(), AllocError>
    ensures { OnOk result (out.new.items ≡ out.old.items ++ signed_decimal number) }
{
    let mut digits = Buffer::new();
    put(out, digits.format(number).as_bytes())
}

/// A fraction by its two parts.
pub fn put_frac(out: &mut Vec<u8>, value: Frac) -> Result<(), AllocError>
    ensures { OnOk result (out.new.items ≡ frac value out.old.items) }
{
    put_int(out, value.num())?;
    put(out, b"/")?;
    put_int(out, value.den())
}

/// A line and a column, and a blank.
pub fn put_place(out: &mut Vec<u8>, span: Span) -> Result<(), AllocError>
    ensures { OnOk result (out.new.items ≡ place span out.old.items) }
{
    put_number(out, span.line as u64)?;
    put(out, b":")?;
    put_number(out, span.col as u64)?;
    put(out, b" ")
}

/// A name.
pub fn put_ident(out: &mut Vec<u8>, name: &Ident) -> Result<(), AllocError>
    ensures { OnOk result (out.new.items ≡ ident name.now out.old.items) }
{
    put(out, name.name.as_str().as_bytes())
}

/// A text as it stands in the source.
pub fn put_name(out: &mut Vec<u8>, name: &Name) -> Result<(), AllocError>
    ensures { OnOk result (out.new.items ≡ chars name.now out.old.items) }
{
    put(out, name.as_str().as_bytes())
}

/// Characters where they stand there.
pub fn put_if(out: &mut Vec<u8>, there: bool, text: &[u8]) -> Result<(), AllocError>
    ensures { OnOk result (out.new.items ≡ chars_if there text.now out.old.items) }
{
    if there { put(out, text) } else { Ok(()) }
}

/// What a calibration is given for.
pub fn put_calibrated(out: &mut Vec<u8>, name: &CalName) -> Result<(), AllocError>
    ensures { OnOk result (out.new.items ≡ calibrated name.now out.old.items) }
{
    match name {
        CalName::Gate(name) => put_ident(out, name),
        CalName::Measure => put(out, b"measure"),
        CalName::Reset => put(out, b"reset"),
    }
}

/// Names with commas between.
pub fn put_idents(out: &mut Vec<u8>, each: &[Ident]) -> Result<(), AllocError>
    ensures { OnOk result (out.new.items ≡ idents each.now out.old.items) }
{
    let Some((first, others)) = each.split_first() else {
        return Ok(());
    };
    put_ident(out, first)?;
    for part in others {
        put(out, b", ")?;
        put_ident(out, part)?;
    }
    Ok(())
}

/// Names in brackets, where these are there.
pub fn put_idents_if(out: &mut Vec<u8>, each: &Option<List<Ident>>) -> Result<(), AllocError>
    ensures { OnOk result (out.new.items ≡ idents_if each.now out.old.items) }
{
    match each {
        Some(each) => {
            put(out, b"(")?;
            put_idents(out, each.as_slice())?;
            put(out, b")")
        }
        None => Ok(()),
    }
}
