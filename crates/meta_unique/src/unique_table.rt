ghost use Rattle.std.specs.Prelude.{◌≡◌, ◌↔◌, ℕ, IsTrue, [], ◌∷◌, ◌++◌, length, Ok, IfOk, OnOk, OnErr};
ghost use Rattle.std.specs.Slice.Iter.{iter_rest};
ghost use Rattle.meta_unique.specs.Interning.{pointed_to, IsIndexOf, IsNew, AreDifferent};

use std::alloc::{AllocError, Global};
use std::collections::HashMap;
use std::hash::Hash;
use std::marker::Model;
use std::slice;

/// A list of borrowed entries, no two of which are equal. Each entry keeps its index: they count from 0, in the order of adding. It is as
/// in the crate's `unique_table.rs`.
#[derive(Drop)]
pub struct UniqueTable<'e, T: Eq + Hash> {
    entries: Vec<&'e T>,
    // The index of each entry.
    indexes: HashMap<&'e T, usize>,
}

impl<'e, T: Eq + Hash> Model for UniqueTable<'e, T> {
    ghost use Rattle.std.specs.Prelude.{List};
    ghost use Rattle.std.specs.HashMap.{get};
    ghost use Rattle.meta_unique.specs.Interning.{pointed_to, IsIndexed};

    ghost Value = { List T };

    ghost view = { λ t. pointed_to t.entries.items };

    ghost invariant = { λ t. IsIndexed T.eq (pointed_to t.entries.items) (get (λ a b. T.eq a.now b.now) t.indexes) };
}

impl<'e, T: Eq + Hash> UniqueTable<'e, T> {
    /// Makes a table without entries.
    pub fn new(alloc: Global) -> Self
        ensures { result ≡ [] }
    {
        UniqueTable {
            entries: Vec::new(alloc),
            indexes: HashMap::new(alloc),
        }
    }

    /// The index of the entry that equals this one. If there is no such entry, this one is added at the end. Memory can run out only for a
    /// new entry, and then the table stays as it was.
    pub fn add(&mut self, entry: &'e T) -> Result<usize, AllocError>
        ensures index { IfOk result (IsIndexOf T.eq self.new entry.now) }
        ensures known { (i : ℕ) → IsIndexOf T.eq self.old entry.now i → (result ≡ Ok i) × (self.new ≡ self.old) }
        ensures added { IsNew T.eq self.old entry.now → OnOk result (self.new ≡ self.old ++ entry.now ∷ []) }
        ensures different { AreDifferent T.eq self.new }
        ensures err { OnErr result (self.new ≡ self.old) }
    {
        if let Some(&index) = self.indexes.get(&entry) {
            return Ok(index);
        }
        let index = self.entries.len();
        self.entries.push(entry)?;
        match self.indexes.insert(entry, index) {
            Ok(_) => Ok(index),
            Err(_) => {
                self.entries.pop();
                Err(AllocError)
            }
        }
    }

    /// Whether the table has an entry that equals this one.
    pub fn contains(&self, entry: &T) -> bool
        ensures { IsTrue result ↔ ((i : ℕ) × IsIndexOf T.eq self.now entry.now i) }
    {
        self.indexes.get(&entry).is_some()
    }

    /// The index of the entry that equals this one. There must be one, which `contains` tests.
    pub fn index_of(&self, entry: &T) -> usize
        requires { (i : ℕ) × IsIndexOf T.eq self.now entry.now i }
        ensures index { IsIndexOf T.eq self.now entry.now result }
        ensures only { (i : ℕ) → IsIndexOf T.eq self.now entry.now i → result ≡ i }
    {
        *self.indexes.get(&entry).unwrap()
    }

    /// How many entries there are.
    pub fn len(&self) -> usize
        ensures count { result ≡ length self.now }
        ensures different { AreDifferent T.eq self.now }
    {
        self.entries.len()
    }

    /// The entries in the order of their indexes.
    pub fn iter(&self) -> slice::Iter<'_, &'e T>
        ensures { pointed_to (iter_rest result) ≡ self.now }
    {
        self.entries.iter()
    }
}
