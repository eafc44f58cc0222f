ghost use Rattle.std.specs.Prelude.{◌≡◌, ◌∷◌, [], IfOk, decimal};
ghost use Rattle.qs_machine.specs.Refused.{code_of, key_of, part_words, tape_code_of, tape_key_of, tape_words_of, words_of};

use itoa::Buffer;
use qs_values::{List, Memory, Name};
use std::alloc::{AllocError, Global};

/// A field of a machine table.
#[derive(Clone, Copy, Debug, PartialEq, Eq)]
pub enum Field {
    Version,
    Dt,
    Qubits,
    Controllers,
    Ports,
    Frames,
    Waveforms,
    Families,
    Gap,
    Budget,
    Mail,
    Cal,
}

impl Field {
    /// The field's key in a table.
    pub fn key(self) -> &'static str
        ensures { result.now ≡ key_of self }
    {
        match self {
            Field::Version => "version",
            Field::Dt => "dt",
            Field::Qubits => "qubits",
            Field::Controllers => "controllers",
            Field::Ports => "ports",
            Field::Frames => "frames",
            Field::Waveforms => "waveforms",
            Field::Families => "families",
            Field::Gap => "gap",
            Field::Budget => "budget",
            Field::Mail => "mail",
            Field::Cal => "cal",
        }
    }
}

/// What of a field is at fault.
#[derive(Debug, Drop)]
pub enum Part {
    /// The field as a whole.
    Whole,
    /// The entry with this number in the field's list, from 0.
    Entry(usize),
    /// The entry with this name among the families.
    Family(Name),
}

/// Why bytes are no machine table: its first fault in the order of the fields. A variant has what
/// is told of it. `Memory` is out of memory.
#[derive(Debug, Drop)]
pub enum MachineRefusal {
    /// The bytes are no JSON text, or not that of an object.
    MachineNotJson,
    /// A field isn't there, or one that an entry has to have.
    FieldMissing { field: Field, part: Part },
    /// A value of another form, or out of its range.
    FieldWrong { field: Field, part: Part },
    /// An entry of a list has the name of one before it.
    NameDoubled { field: Field, number: usize },
    /// A port belongs to a controller that isn't there.
    ControllerUnknown { number: usize },
    /// A port reaches a qubit that the machine hasn't.
    QubitUnknown { number: usize },
    /// A frame stands on a port that isn't there.
    FrameWrong { number: usize },
    /// A family hasn't one frame for each qubit, on a port that reaches that qubit alone.
    FamilyWrong { family: Name },
    /// Out of memory.
    Memory,
}

impl MachineRefusal {
    /// The refusal's number, from 11 to 18, and 0 for out of memory.
    pub fn code(&self) -> u16
        ensures { result ≡ code_of self.now }
    {
        match self {
            MachineRefusal::MachineNotJson => 11,
            MachineRefusal::FieldMissing { .. } => 12,
            MachineRefusal::FieldWrong { .. } => 13,
            MachineRefusal::NameDoubled { .. } => 14,
            MachineRefusal::ControllerUnknown { .. } => 15,
            MachineRefusal::QubitUnknown { .. } => 16,
            MachineRefusal::FrameWrong { .. } => 17,
            MachineRefusal::FamilyWrong { .. } => 18,
            MachineRefusal::Memory => 0,
        }
    }
}

impl From<AllocError> for MachineRefusal {
    ghost use Rattle.qs_machine.specs.declared.refusal.MachineRefusal.TheVariants.{Memory as OutOfMemory};

    ghost from_gives = { λ _ refusal. refusal ≡ OutOfMemory };

    fn from(_: AllocError) -> MachineRefusal {
        MachineRefusal::Memory
    }
}

impl From<Memory> for MachineRefusal {
    ghost use Rattle.qs_machine.specs.declared.refusal.MachineRefusal.TheVariants.{Memory as OutOfMemory};

    ghost from_gives = { λ _ refusal. refusal ≡ OutOfMemory };

    fn from(_: Memory) -> MachineRefusal {
        MachineRefusal::Memory
    }
}

/// A field of a tape.
#[derive(Clone, Copy, Debug, PartialEq, Eq)]
pub enum TapeField {
    Bits,
    Inputs,
}

impl TapeField {
    /// The field's key in a tape.
    pub fn key(self) -> &'static str
        ensures { result.now ≡ tape_key_of self }
    {
        match self {
            TapeField::Bits => "bits",
            TapeField::Inputs => "inputs",
        }
    }
}

/// Why bytes are no tape for these inputs and qubits: its first fault. `Memory` is out of memory.
#[derive(Debug, Drop)]
pub enum TapeRefusal {
    /// The bytes are no JSON text, or not that of an object.
    TapeNotJson,
    /// A field is no object, or the bits at this key are no text of `0` and `1`.
    TapeFieldWrong { field: TapeField, key: Option<Name> },
    /// A key among the bits is no qubit's number.
    TapeQubit { key: Name },
    /// An input has no value, or one outside its type.
    InputWrong { input: Name },
    /// Out of memory.
    Memory,
}

impl TapeRefusal {
    /// The refusal's number, from 21 to 24, and 0 for out of memory.
    pub fn code(&self) -> u16
        ensures { result ≡ tape_code_of self.now }
    {
        match self {
            TapeRefusal::TapeNotJson => 21,
            TapeRefusal::TapeFieldWrong { .. } => 22,
            TapeRefusal::TapeQubit { .. } => 23,
            TapeRefusal::InputWrong { .. } => 24,
            TapeRefusal::Memory => 0,
        }
    }
}

impl From<AllocError> for TapeRefusal {
    ghost use Rattle.qs_machine.specs.declared.refusal.TapeRefusal.TheVariants.{Memory as OutOfMemory};

    ghost from_gives = { λ _ refusal. refusal ≡ OutOfMemory };

    fn from(_: AllocError) -> TapeRefusal {
        TapeRefusal::Memory
    }
}

impl From<Memory> for TapeRefusal {
    ghost use Rattle.qs_machine.specs.declared.refusal.TapeRefusal.TheVariants.{Memory as OutOfMemory};

    ghost from_gives = { λ _ refusal. refusal ≡ OutOfMemory };

    fn from(_: Memory) -> TapeRefusal {
        TapeRefusal::Memory
    }
}

/// A number as a word.
fn number_word(alloc: Global, number: usize) -> Result<Name, Memory>
    ensures { IfOk result (λ word. word ≡ decimal number) }
{
    let mut buffer = Buffer::new();
    Ok(Name::copy_of(alloc, buffer.format(number))?)
}

/// A list of two words.
fn pair(alloc: Global, first: &str, second: Name) -> Result<List<Name>, Memory>
    ensures { IfOk result (λ words. words ≡ first.now ∷ second ∷ []) }
{
    let mut words = List::new(alloc);
    words.push(Name::copy_of(alloc, first)?)?;
    words.push(second)?;
    Ok(words)
}

/// A list of one word.
fn single(alloc: Global, word: &str) -> Result<List<Name>, Memory>
    ensures { IfOk result (λ words. words ≡ word.now ∷ []) }
{
    let mut words = List::new(alloc);
    words.push(Name::copy_of(alloc, word)?)?;
    Ok(words)
}

/// The words that are told of a part of a field.
fn field_words(alloc: Global, field: Field, part: &Part) -> Result<List<Name>, Memory>
    ensures { IfOk result (λ words. words ≡ key_of field ∷ part_words part.now) }
{
    match part {
        Part::Whole => single(alloc, field.key()),
        Part::Entry(number) => pair(alloc, field.key(), number_word(alloc, *number)?),
        Part::Family(name) => pair(alloc, field.key(), Name::copy_of(alloc, name.as_str())?),
    }
}

impl MachineRefusal {
    /// The words that are told after the refusal's name: the field, and the number or the name of
    /// the entry at fault, where there is one.
    pub fn words(&self, alloc: Global) -> Result<List<Name>, Memory>
        ensures { IfOk result (λ words. words ≡ words_of self.now) }
    {
        match self {
            MachineRefusal::MachineNotJson | MachineRefusal::Memory => Ok(List::new(alloc)),
            MachineRefusal::FieldMissing { field, part }
            | MachineRefusal::FieldWrong { field, part } => field_words(alloc, *field, part),
            MachineRefusal::NameDoubled { field, number } => {
                pair(alloc, field.key(), number_word(alloc, *number)?)
            }
            MachineRefusal::ControllerUnknown { number }
            | MachineRefusal::QubitUnknown { number } => {
                pair(alloc, Field::Ports.key(), number_word(alloc, *number)?)
            }
            MachineRefusal::FrameWrong { number } => {
                pair(alloc, Field::Frames.key(), number_word(alloc, *number)?)
            }
            MachineRefusal::FamilyWrong { family } => pair(
                alloc,
                Field::Families.key(),
                Name::copy_of(alloc, family.as_str())?,
            ),
        }
    }
}

impl TapeRefusal {
    /// The words that are told after the refusal's name: the field and the key at fault, or the key
    /// or the input alone.
    pub fn words(&self, alloc: Global) -> Result<List<Name>, Memory>
        ensures { IfOk result (λ words. words ≡ tape_words_of self.now) }
    {
        match self {
            TapeRefusal::TapeNotJson | TapeRefusal::Memory => Ok(List::new(alloc)),
            TapeRefusal::TapeFieldWrong { field, key } => match key {
                Some(key) => pair(alloc, field.key(), Name::copy_of(alloc, key.as_str())?),
                None => single(alloc, field.key()),
            },
            TapeRefusal::TapeQubit { key } => single(alloc, key.as_str()),
            TapeRefusal::InputWrong { input } => single(alloc, input.as_str()),
        }
    }
}
