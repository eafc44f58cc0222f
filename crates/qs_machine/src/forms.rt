ghost use Rattle.std.specs.Prelude.{◌≡◌, ◌≤◌, ◌≤ℤ◌, IfOk, IfSome, length, map, option_map};
ghost use Rattle.serde_json.specs.View.{view};
ghost use Rattle.qs_machine.specs.Steps.{result_map};
ghost use Rattle.qs_machine.specs.Table.{at_key, needed, there};
ghost use Rattle.qs_machine.specs.Values.{array_in, is_short_name, list_in, name_in, signed_in, whole_in};

use crate::refusal::{Field, MachineRefusal, Part};
use qs_values::is_name;
use serde_json::Value;

/// How many bytes a name has at most.
const LONGEST_NAME: usize = 64;

/// A whole number from `least` to `most`, written in digits alone.
pub fn whole_in(value: &Value, least: u64, most: u64) -> Option<u64>
    ensures { result ≡ whole_in least most (view value.now) }
{
    match value.as_u64() {
        Some(n) if least <= n && n <= most => Some(n),
        _ => None,
    }
}

/// A whole number from `least` to `most`, which may have a sign.
pub fn signed_in(value: &Value, least: i64, most: i64) -> Option<i64>
    ensures value { result ≡ signed_in least most (view value.now) }
    ensures within { IfSome result (λ n. (least ≤ℤ n) × (n ≤ℤ most)) }
{
    match value.as_i64() {
        Some(n) if least <= n && n <= most => Some(n),
        _ => None,
    }
}

/// Whether a text is a name of at most 64 bytes.
pub fn is_short_name(text: &str) -> bool
    ensures { result ≡ is_short_name text.now }
{
    text.len() <= LONGEST_NAME && is_name(text)
}

/// A name of at most 64 bytes.
pub fn name_in(value: &Value) -> Option<&str>
    ensures { option_map (λ s. s.now) result ≡ name_in (view value.now) }
{
    match value.as_str() {
        Some(text) if is_short_name(text) => Some(text),
        _ => None,
    }
}

/// The values of an array.
pub fn array_in(value: &Value) -> Option<&[Value]>
    ensures { option_map (λ s. map view s.now) result ≡ array_in (view value.now) }
{
    match value.as_array() {
        Some(values) => Some(values.as_slice()),
        None => None,
    }
}

/// The values of an array that has from `least` to `most` of them.
pub fn list_in(value: &Value, least: usize, most: usize) -> Option<&[Value]>
    ensures value { option_map (λ s. map view s.now) result ≡ list_in least most (view value.now) }
    ensures few { IfSome result (λ s. length s.now ≤ most) }
{
    match array_in(value) {
        Some(values) if least <= values.len() && values.len() <= most => Some(values),
        _ => None,
    }
}

/// What is told where a field as a whole is wrong.
pub fn wrong(field: Field) -> MachineRefusal
    ensures { result ≡ MachineRefusal.FieldWrong field Part.Whole }
{
    MachineRefusal::FieldWrong {
        field,
        part: Part::Whole,
    }
}

/// What is told where an entry of a field is wrong.
pub fn wrong_at(field: Field, number: usize) -> MachineRefusal
    ensures { result ≡ MachineRefusal.FieldWrong field (Part.Entry number) }
{
    MachineRefusal::FieldWrong {
        field,
        part: Part::Entry(number),
    }
}

/// The value of a field that has to be there.
pub fn there(table: &Value, field: Field) -> Result<&Value, MachineRefusal>
    ensures { result_map (λ v. view v.now) result ≡ there field (view table.now) }
{
    match table.get(field.key()) {
        Some(value) => Ok(value),
        None => Err(MachineRefusal::FieldMissing {
            field,
            part: Part::Whole,
        }),
    }
}

/// A whole number from `least` to `most` in a field that has to be there.
pub fn needed_whole(
    table: &Value,
    field: Field,
    least: u64,
    most: u64,
) -> Result<u64, MachineRefusal>
    ensures { result ≡ needed field (whole_in least most) (view table.now) }
{
    let value = there(table, field)?;
    match whole_in(value, least, most) {
        Some(n) => Ok(n),
        None => Err(wrong(field)),
    }
}

/// A list of `least` to `most` entries in a field that has to be there.
pub fn needed_list(
    table: &Value,
    field: Field,
    least: usize,
    most: usize,
) -> Result<&[Value], MachineRefusal>
    ensures value { result_map (λ s. map view s.now) result
        ≡ needed field (list_in least most) (view table.now) }
    ensures few { IfOk result (λ s. length s.now ≤ most) }
{
    let value = there(table, field)?;
    match list_in(value, least, most) {
        Some(entries) => Ok(entries),
        None => Err(wrong(field)),
    }
}

/// The value at a key that the entry with this number has to have.
pub fn at_key<'v>(
    entry: &'v Value,
    field: Field,
    number: usize,
    key: &str,
) -> Result<&'v Value, MachineRefusal>
    ensures { result_map (λ v. view v.now) result ≡ at_key field number key.now (view entry.now) }
{
    if !entry.is_object() {
        return Err(wrong_at(field, number));
    }
    match entry.get(key) {
        Some(value) => Ok(value),
        None => Err(MachineRefusal::FieldMissing {
            field,
            part: Part::Entry(number),
        }),
    }
}
