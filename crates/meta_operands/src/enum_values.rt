ghost use Rattle.std.specs.Prelude.{◌≡◌, ℕ, List, [], length, IfOk, OnOk, OnErr};
ghost use Rattle.std.specs.Option.{option_copied};
ghost use Rattle.std.specs.Map.Iter.{ShowsInOrder, deref_pair};
ghost use Rattle.meta_operands.specs.EnumEntries.{AreInOrder, value_of, with_value};

use meta_types::Text;
use std::alloc::{AllocError, Global};
use std::collections::BTreeMap;
use std::collections::btree_map::Iter;
use std::marker::Model;

/// The values of an enum immediate. Each is a name with the variant of the Rust type that it stands for. They are in the order of the
/// names' bytes; in the crate they have no order.
#[derive(Drop)]
pub struct EnumValues {
    variants: BTreeMap<Text, Text>,
}

impl Model for EnumValues {
    ghost use Rattle.meta_operands.specs.EnumEntries.{EnumEntries};

    ghost Value = { EnumEntries };

    ghost view = { λ v. v.variants.entries };
}

impl EnumValues {
    /// Makes an empty list of values.
    pub fn new(alloc: Global) -> EnumValues
        ensures { result ≡ [] }
    {
        EnumValues {
            variants: BTreeMap::new(alloc),
        }
    }

    /// How many values there are.
    pub fn len(&self) -> usize
        ensures count { result ≡ length self.now }
        ensures ordered { AreInOrder self.now }
    {
        self.variants.len()
    }

    /// Adds a value: the name stands for the variant. It answers the variant that the name stood for before, if there was one. After an
    /// error the values are as they were.
    pub fn insert(&mut self, name: Text, variant: Text) -> Result<Option<Text>, AllocError>
        ensures added { OnOk result (self.new ≡ with_value self.old name variant) }
        ensures before { IfOk result (λ old. old ≡ value_of self.old name) }
        ensures unchanged { OnErr result (self.new ≡ self.old) }
    {
        Ok(self.variants.insert(name, variant)?)
    }

    /// The variant that the name stands for, if there is such a value.
    pub fn get(&self, name: &Text) -> Option<&Text>
        ensures { option_copied result ≡ value_of self.now name.now }
    {
        self.variants.get(name)
    }

    /// The names and their variants, in order.
    pub fn iter(&self) -> Iter<'_, Text, Text>
        ensures rest { result ≡ self.now }
        ensures runs { ShowsInOrder (deref_pair {K = List ℕ} {X = List ℕ}) }
    {
        self.variants.iter()
    }

    pub(crate) fn copy(&self, alloc: Global) -> Result<EnumValues, AllocError>
        ensures { IfOk result (λ v. v ≡ self.now) }
    {
        let mut variants = BTreeMap::new(alloc);
        for (name, variant) in self.variants.iter() {
            variants.insert(name.copy(alloc)?, variant.copy(alloc)?)?;
        }
        Ok(EnumValues { variants })
    }
}
