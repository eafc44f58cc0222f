ghost use Rattle.std.specs.Prelude.{◌≡◌, ℕ, List as PureList, IfOk, IsTrue};
ghost use Rattle.std.specs.Option.{option_copied};
ghost use Rattle.qs_tree.specs.Texts.{is_bits};

use crate::keys::put_first;
use qs_values::{List, Name, Num};
use std::alloc::{AllocError, Global};
use std::collections::HashMap;

/// The digits of a text, the highest first: from 1 to 64 digits `0` and `1`.
#[derive(Debug, Drop)]
pub struct Digits {
    pub text: Name,
    ghost binary: { IsTrue (is_bits text) },
}

/// The value of a constant (OpenQASM 3.0, constants).
#[derive(Debug, Drop)]
pub enum ConstVal {
    /// A number `a + b * π`.
    Number(Num),
    /// A truth value.
    Truth(bool),
    /// The digits of a text, which `bits_of` makes.
    Bits(Digits),
}

/// A constant by its name.
#[derive(Debug, Drop)]
pub struct Const {
    pub name: Name,
    pub value: ConstVal,
}

/// The constants that an expression may name; of two with one name the first counts.
#[derive(Debug, Drop)]
pub struct Consts {
    pub list: List<Const>,
}

/// The constants of a list by their names, with a look-up that doesn't go over the list.
#[derive(Drop)]
pub struct ConstTable<'a> {
    values: HashMap<&'a str, &'a ConstVal>,
}

impl Digits {
    /// A copy; an error where memory runs out.
    pub fn copied(&self, alloc: Global) -> Result<Digits, AllocError>
        ensures { IfOk result (λ copy. copy ≡ self.now) }
    {
        Ok(Digits {
            text: Name::copy_of(alloc, self.text.as_str())?,
        })
    }
}

impl ConstVal {
    /// A copy; an error where memory runs out.
    pub fn copied(&self, alloc: Global) -> Result<ConstVal, AllocError>
        ensures { IfOk result (λ copy. copy ≡ self.now) }
    {
        match self {
            ConstVal::Number(x) => Ok(ConstVal::Number(*x)),
            ConstVal::Truth(b) => Ok(ConstVal::Truth(*b)),
            ConstVal::Bits(digits) => Ok(ConstVal::Bits(digits.copied(alloc)?)),
        }
    }
}

impl Consts {
    ghost use Rattle.qs_tree.specs.Constants.{constant_at, constant_in};

    /// The constants by their names, for many look-ups; an error where memory runs out.
    pub fn table(&self, alloc: Global) -> Result<ConstTable<'_>, AllocError>
        ensures { IfOk result
            (λ t. (name : PureList ℕ) → constant_at t name ≡ constant_in self.now.list name) }
    {
        let mut values = HashMap::new(alloc);
        for known in self.list.as_slice() {
            put_first(&mut values, known.name.as_str(), &known.value)?;
        }
        Ok(ConstTable { values })
    }
}

impl<'a> ConstTable<'a> {
    ghost use Rattle.qs_tree.specs.Constants.{constant_at};

    /// The constant of a name: the first of the list.
    pub fn get(&self, name: &str) -> Option<&'a ConstVal>
        ensures { option_copied result ≡ constant_at self.now name.now }
    {
        self.values.get(name).copied()
    }
}
