//! Different names, in order, found by what they are.
ghost use Rattle.std.specs.Prelude.{◌≡◌, ◌++◌, ◌∷◌, ◌<◌, [], false, length, if◌then◌else◌, Some, None, IfSome, OnOk, OnErr};
ghost use Rattle.ae_base.specs.Twins.{is_among};
ghost use Rattle.ae_net.specs.Named.{place_of};

use ae_base::{Memory, Name};
use indexmap::IndexSet;
use std::alloc::Global;
use std::marker::Model;

/// Different names in the order in which they were added, each found in constant time.
#[derive(Drop)]
pub struct NameTable {
    set: IndexSet<Name>,
}

impl Model for NameTable {
    ghost use Rattle.std.specs.Prelude.{List, ℕ};

    ghost Value = { List (List ℕ) };

    ghost view = { λ t. t.set.keys };
}

impl NameTable {
    /// No names. It takes no memory before the first `push`.
    pub fn new(alloc: Global) -> NameTable
        ensures { result ≡ [] }
    {
        NameTable {
            set: IndexSet::new(alloc),
        }
    }

    /// The number of names.
    pub fn len(&self) -> usize
        ensures { result ≡ length self.now }
    {
        self.set.len()
    }

    /// Whether the name is one of them.
    pub fn has(&self, name: &Name) -> bool
        ensures { result ≡ is_among name.now self.now }
    {
        self.set.contains(name)
    }

    /// The place of a name, from 0 on, where it is one of them.
    #[tactic(auto, using(crate::proofs::Tables::place_is))]
    pub fn place(&self, name: &Name) -> Option<usize>
        ensures place { result ≡ (if is_among name.now self.now then Some (place_of name.now self.now) else None) }
        ensures within { IfSome result (λ i. i < length self.now) }
    {
        self.set.get_index_of(name)
    }

    /// The names, in order.
    pub fn as_slice(&self) -> &[Name]
        ensures { result.now ≡ self.now }
    {
        self.set.as_slice()
    }

    /// Adds a name that is none of them at the end. After `Memory` the table is as before.
    pub fn push(&mut self, name: Name) -> Result<(), Memory>
        requires { is_among name self.old ≡ false }
        ensures ok { OnOk result (self.new ≡ self.old ++ name ∷ []) }
        ensures err { OnErr result (self.new ≡ self.old) }
    {
        self.set.insert(name)?;
        Ok(())
    }
}
