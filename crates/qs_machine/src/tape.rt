ghost use Rattle.std.specs.Prelude.{◌≡◌, ◌⊎◌, ◌<◌, ◌≤◌, ◌^◌, ◌-◌, ℕ, pos, negsuc, List as PureList, Err, IfOk, IfSome, [], map, option_map, unsigned_abs};
ghost use Rattle.std.specs.List.{list_all};
ghost use Rattle.std.specs.Option.{option_map_or};
ghost use Rattle.serde_json.specs.View.{members_view, view};
ghost use Rattle.qs_machine.specs.declared.refusal.TapeRefusal.TheVariants.{Memory as OutOfMemory};
ghost use Rattle.qs_machine.specs.Limits.{AreValues, IsTape};
ghost use Rattle.qs_machine.specs.Steps.{IsUnlessMemory, judged, result_map};
ghost use Rattle.qs_machine.specs.Tapes.{ReadsTape, found, input_of, inputs_of, judge, list_of, lists_of, number_in, object_at, qubit_keys, tape_of, value_in};
ghost use Rattle.qs_machine.specs.Values.{bit_of, bits_in, entries_of, is_bit, signed_in};

use crate::forms::{signed_in, whole_in};
use crate::names::Names;
use crate::refusal::{TapeField, TapeRefusal};
use itoa::Buffer;
use qs_values::{Input, Kind, List, Memory, Name, Tape, Ty};
use serde_json::{Map, Value};
use std::alloc::Global;

/// The keys of the qubits, which are their numbers from 0.
fn qubit_keys(alloc: Global, qubits: u8) -> Result<Names, Memory>
    ensures { IfOk result (λ keys. keys ≡ qubit_keys qubits) }
{
    let mut keys = Names::new(alloc);
    for qubit in 0..qubits {
        let mut buffer = Buffer::new();
        keys.push(alloc, buffer.format(qubit))?;
    }
    Ok(keys)
}

/// The value of a field, which may be missing and else is an object.
fn object_at(tape: &Value, field: TapeField) -> Result<Option<&Map<String, Value>>, TapeRefusal>
    ensures { result_map
        (λ found. option_map_or (λ m. entries_of (members_view m.now.entries)) found []) result
        ≡ object_at field (view tape.now) }
{
    let Some(value) = tape.get(field.key()) else {
        return Ok(None);
    };
    match value.as_object() {
        Some(entries) => Ok(Some(entries)),
        None => Err(TapeRefusal::TapeFieldWrong { field, key: None }),
    }
}

/// Whether a text is one of `0` and `1`.
fn is_bits(text: &[u8]) -> bool
    ensures { result ≡ list_all is_bit text.now }
{
    text.iter().all(|c| *c == b'0' || *c == b'1')
}

/// The text of a value, where it is one of `0` and `1`.
fn bits_in(value: &Value) -> Option<&[u8]>
    ensures { option_map (λ s. map bit_of s.now) result ≡ bits_in (view value.now) }
{
    match value.as_str() {
        Some(text) if is_bits(text.as_bytes()) => Some(text.as_bytes()),
        _ => None,
    }
}

/// Judges an entry of `bits`: its value is a text of `0` and `1`, and its key one of these.
fn judge(alloc: Global, keys: &Names, key: &str, value: &Value) -> Result<(), TapeRefusal>
    ensures { IsUnlessMemory OutOfMemory (judge keys.now (key.now, view value.now)) result }
{
    if bits_in(value).is_none() {
        return Err(TapeRefusal::TapeFieldWrong {
            field: TapeField::Bits,
            key: Some(Name::copy_of(alloc, key)?),
        });
    }
    if !keys.contains(key) {
        return Err(TapeRefusal::TapeQubit {
            key: Name::copy_of(alloc, key)?,
        });
    }
    Ok(())
}

/// Judges the entries of `bits`, in the order of their keys' bytes.
fn judge_all(alloc: Global, keys: &Names, entries: &Map<String, Value>) -> Result<(), TapeRefusal>
    ensures { IsUnlessMemory OutOfMemory
        (judged (judge keys.now) (entries_of (members_view entries.now.entries))) result }
{
    for (key, value) in entries {
        judge(alloc, keys, key.as_str(), value)?;
    }
    Ok(())
}

/// The value at a key of a field, if both are there.
fn found<'v>(tape: &'v Value, field: TapeField, key: &str) -> Option<&'v Value>
    ensures { option_map (λ v. view v.now) result ≡ found field key.now (view tape.now) }
{
    match tape.get(field.key()) {
        Some(entries) => entries.get(key),
        None => None,
    }
}

/// The bits of the qubit with this key: none where the tape has no list for it.
fn list_of(alloc: Global, tape: &Value, key: &str) -> Result<List<u8>, Memory>
    ensures { IfOk result (λ bits. bits ≡ list_of (view tape.now) key.now) }
{
    let mut bits = List::new(alloc);
    let Some(value) = found(tape, TapeField::Bits, key) else {
        return Ok(bits);
    };
    let Some(text) = bits_in(value) else {
        return Ok(bits);
    };
    for c in text {
        bits.push(u8::from(*c == b'1'))?;
    }
    Ok(bits)
}

/// The lists of bits of so many qubits, in order.
fn lists_of(alloc: Global, tape: &Value, qubits: u8) -> Result<List<List<u8>>, Memory>
    ensures { IfOk result (λ lists. lists ≡ lists_of (view tape.now) qubits) }
{
    let mut lists = List::new(alloc);
    for qubit in 0..qubits {
        let mut buffer = Buffer::new();
        let list = list_of(alloc, tape, buffer.format(qubit))?;
        lists.push(list)?;
    }
    Ok(lists)
}

/// The greatest number of so many bits, from 1 to 64.
fn greatest_of(width: u8) -> u64
    requires { width ≤ 64 }
    ensures { result ≡ 2 ^ width - 1 }
{
    ((1u128 << width) - 1) as u64
}

/// The least number of `int[width]`.
fn least_of(width: u8) -> i64
    requires { (1 ≤ width) × (width ≤ 64) }
    ensures { result ≡ negsuc (2 ^ (width - 1) - 1) }
{
    let steps: i128 = 1 << (width - 1);
    (-steps) as i64
}

/// The greatest number of `int[width]`.
fn most_of(width: u8) -> i64
    requires { (1 ≤ width) × (width ≤ 64) }
    ensures { result ≡ pos (2 ^ (width - 1) - 1) }
{
    let steps: i128 = 1 << (width - 1);
    (steps - 1) as i64
}

/// A whole number as it stands in so many bits.
fn number_in(width: u8, number: i64) -> u64
    requires wide { width ≤ 64 }
    requires small { unsigned_abs number ≤ 2 ^ width }
    ensures { result ≡ number_in width number }
{
    if number >= 0 {
        number as u64
    } else {
        ((1u128 << width) - u128::from(number.unsigned_abs())) as u64
    }
}

/// A number of `int[width]` as it stands in its bits.
fn int_in(value: &Value, width: u8) -> Option<u64>
    requires { (1 ≤ width) × (width ≤ 64) }
    ensures { result ≡ option_map (number_in width)
        (signed_in (negsuc (2 ^ (width - 1) - 1)) (pos (2 ^ (width - 1) - 1)) (view value.now)) }
{
    match signed_in(value, least_of(width), most_of(width)) {
        Some(number) => Some(number_in(width, number)),
        None => None,
    }
}

/// The number of a value of this type: a whole number in the type's range.
fn value_in(value: &Value, ty: Ty) -> Option<u64>
    ensures value { result ≡ value_in ty.kind ty.width (view value.now) }
    ensures fits { IfSome result (λ n. n < 2 ^ ty.width) }
{
    match ty.kind {
        Kind::Bit | Kind::Bool => whole_in(value, 0, 1),
        Kind::Bits | Kind::Uint | Kind::Angle => whole_in(value, 0, greatest_of(ty.width)),
        Kind::Int => int_in(value, ty.width),
    }
}

/// The value of an input.
fn input_of(alloc: Global, tape: &Value, input: &Input) -> Result<u64, TapeRefusal>
    ensures value { (before : PureList ℕ)
        → IsUnlessMemory OutOfMemory (input_of (view tape.now) before input.now) result }
    ensures fits { IfOk result (λ n. n < 2 ^ input.now.ty.width) }
{
    let name = input.name.as_str();
    if let Some(value) = found(tape, TapeField::Inputs, name) {
        if let Some(number) = value_in(value, input.ty) {
            return Ok(number);
        }
    }
    Err(TapeRefusal::InputWrong {
        input: Name::copy_of(alloc, name)?,
    })
}

/// The values of the inputs, in order of declaration.
fn inputs_of(alloc: Global, tape: &Value, inputs: &[Input]) -> Result<List<u64>, TapeRefusal>
    ensures value { IsUnlessMemory OutOfMemory (inputs_of (view tape.now) inputs.now) result }
    ensures fit { IfOk result (AreValues inputs.now) }
{
    let mut values = List::new(alloc);
    for input in inputs {
        let value = input_of(alloc, tape, input)?;
        values.push(value)?;
    }
    Ok(values)
}

/// The tape of a value.
fn tape_of(alloc: Global, tape: &Value, inputs: &[Input], qubits: u8) -> Result<Tape, TapeRefusal>
    ensures value { IsUnlessMemory OutOfMemory (tape_of inputs.now qubits (view tape.now)) result }
    ensures kept { IfOk result (IsTape inputs.now qubits) }
{
    let keys = qubit_keys(alloc, qubits)?;
    if let Some(entries) = object_at(tape, TapeField::Bits)? {
        judge_all(alloc, &keys, entries)?;
    }
    object_at(tape, TapeField::Inputs)?;
    let values = inputs_of(alloc, tape, inputs)?;
    Ok(Tape {
        bits: lists_of(alloc, tape, qubits)?,
        inputs: values,
    })
}

/// The tape that is written in JSON for these inputs and so many qubits, or its first fault: the
/// bits come first, in the order of their keys' bytes, then the inputs in order of declaration. The
/// tape has a list of bits for each qubit, which is empty where none is written, and a value for
/// each input, in its type. Fields and names that are none of these are passed over; of a key that
/// stands twice the last value counts. `Memory` is out of memory.
pub fn tape_from_json(
    alloc: Global,
    bytes: &[u8],
    inputs: &List<Input>,
    qubits: u8,
) -> Result<Tape, TapeRefusal>
    ensures value { (result ≡ Err OutOfMemory) ⊎ ReadsTape inputs.now qubits bytes.now result }
    ensures kept { IfOk result (IsTape inputs.now qubits) }
{
    match Value::from_slice(alloc, bytes) {
        Ok(tape) if tape.is_object() => tape_of(alloc, &tape, inputs.as_slice(), qubits),
        Ok(_) => Err(TapeRefusal::TapeNotJson),
        Err(error) if error.is_memory() => Err(TapeRefusal::Memory),
        Err(_) => Err(TapeRefusal::TapeNotJson),
    }
}
