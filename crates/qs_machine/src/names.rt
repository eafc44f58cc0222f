ghost use Rattle.std.specs.Prelude.{◌≡◌, ◌++◌, ◌∷◌, [], false, OnOk, OnErr};
ghost use Rattle.qs_machine.specs.Table.{is_among, place_of};

use indexmap::IndexSet;
use qs_values::Memory;
use std::alloc::Global;
use std::marker::Model;

/// Names in an order, each once, which are found by a hash.
#[derive(Drop)]
pub struct Names {
    held: IndexSet<String>,
}

impl Model for Names {
    ghost use Rattle.std.specs.Prelude.{List, ℕ, map, string_bytes};
    ghost use Rattle.std.specs.Coded.{coded_list, coded_ℕ};

    ghost Value = { List (List ℕ) };

    ghost coded = { coded_list (coded_list coded_ℕ) };

    ghost view = { λ n. map string_bytes n.held.keys };
}

impl Names {
    /// No names yet.
    pub fn new(alloc: Global) -> Names
        ensures { result ≡ [] }
    {
        Names {
            held: IndexSet::new(alloc),
        }
    }

    /// Whether a name is among these.
    pub fn contains(&self, name: &str) -> bool
        ensures { result ≡ is_among name.now self.now }
    {
        self.held.contains(name)
    }

    /// The place of a name, from 0.
    pub fn place_of(&self, name: &str) -> Option<usize>
        ensures { result ≡ place_of name.now self.now }
    {
        self.held.get_index_of(name)
    }

    /// Puts a name at the end. Without memory the names stay as they were.
    pub fn push(&mut self, alloc: Global, name: &str) -> Result<(), Memory>
        requires { is_among name.now self.old ≡ false }
        ensures ok { OnOk result (self.new ≡ self.old ++ name.now ∷ []) }
        ensures err { OnErr result (self.new ≡ self.old) }
    {
        let copy = String::from_str(alloc, name)?;
        self.held.insert(copy)?;
        Ok(())
    }
}
