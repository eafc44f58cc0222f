ghost use Rattle.std.specs.Prelude.{◌≡◌, ◌≤◌, ℕ, false, length, map, IfOk};
ghost use Rattle.serde_json.specs.View.{view};
ghost use Rattle.qs_machine.specs.declared.machine.Wave.{Wave as MachineWave};
ghost use Rattle.qs_machine.specs.declared.refusal.MachineRefusal.TheVariants.{Memory as OutOfMemory};
ghost use Rattle.qs_machine.specs.Steps.{IsUnlessMemory};
ghost use Rattle.qs_machine.specs.Table.{is_among, samples_of, wave_of, waveforms_of};
ghost use Rattle.qs_machine.specs.Values.{amplitude_at, sample_in};

use crate::forms::{at_key, list_in, name_in, needed_list, signed_in, wrong_at};
use crate::machine::{Sample, Wave};
use crate::names::Names;
use crate::refusal::{Field, MachineRefusal};
use qs_values::{List, Name};
use serde_json::Value;
use std::alloc::Global;

/// How many waveforms a machine has at most.
const MOST_WAVEFORMS: usize = 256;

/// How many samples a waveform has at most.
const MOST_SAMPLES: usize = 4096;

/// The part of a sample at this place.
fn amplitude_at(place: usize, parts: &[Value]) -> Option<i16>
    ensures { result ≡ amplitude_at place (map view parts.now) }
{
    match parts.get(place) {
        Some(part) => match signed_in(part, -32_768, 32_767) {
            Some(amplitude) => Some(amplitude as i16),
            None => None,
        },
        None => None,
    }
}

/// A sample: a pair of whole numbers of 16 bits, with signs.
fn sample_in(value: &Value) -> Option<Sample>
    ensures { result ≡ sample_in (view value.now) }
{
    let parts = list_in(value, 2, 2)?;
    let i = amplitude_at(0, parts)?;
    let q = amplitude_at(1, parts)?;
    Some(Sample { i, q })
}

/// The samples of the waveform with this number.
fn samples_of(alloc: Global, number: usize, value: &Value) -> Result<List<Sample>, MachineRefusal>
    ensures { IsUnlessMemory OutOfMemory (samples_of number (view value.now)) result }
{
    let Some(entries) = list_in(value, 1, MOST_SAMPLES) else {
        return Err(wrong_at(Field::Waveforms, number));
    };
    let mut samples = List::new(alloc);
    for entry in entries {
        let Some(sample) = sample_in(entry) else {
            return Err(wrong_at(Field::Waveforms, number));
        };
        samples.push(sample)?;
    }
    Ok(samples)
}

/// A waveform, which comes after those before it, whose names are lent beside them.
fn wave_of(
    alloc: Global,
    before: &[Wave],
    names: &Names,
    entry: &Value,
) -> Result<Wave, MachineRefusal>
    requires { names.now ≡ map (λ w. w.name) before.now }
    ensures value { IsUnlessMemory OutOfMemory (wave_of before.now (view entry.now)) result }
    ensures fresh { IfOk result (λ w. is_among w.name names.now ≡ false) }
{
    let number = before.len();
    let name = at_key(entry, Field::Waveforms, number, "name")?;
    let samples = at_key(entry, Field::Waveforms, number, "samples")?;
    let Some(name) = name_in(name) else {
        return Err(wrong_at(Field::Waveforms, number));
    };
    let samples = samples_of(alloc, number, samples)?;
    if names.contains(name) {
        return Err(MachineRefusal::NameDoubled {
            field: Field::Waveforms,
            number,
        });
    }
    Ok(Wave {
        name: Name::copy_of(alloc, name)?,
        samples,
    })
}

/// The waveforms of a table.
pub fn waveforms_of(alloc: Global, table: &Value) -> Result<List<Wave>, MachineRefusal>
    ensures { IsUnlessMemory OutOfMemory (waveforms_of (view table.now)) result }
{
    let entries = needed_list(table, Field::Waveforms, 0, MOST_WAVEFORMS)?;
    let mut waveforms = List::new(alloc);
    let mut names = Names::new(alloc);
    for entry in entries {
        let wave = wave_of(alloc, waveforms.as_slice(), &names, entry)?;
        names.push(alloc, wave.name.as_str())?;
        waveforms.push(wave)?;
    }
    Ok(waveforms)
}
