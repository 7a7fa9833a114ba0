ghost use Rattle.std.specs.Prelude.{◌≡◌, ◌↔◌, ◌++◌, ◌∷◌, [], ℕ, IfOk, IfSome, IfNone, IsTrue, OnErr, length};
ghost use Rattle.meta_types.specs.SharedNames.{IsDuplicate, AreDistinct};

use super::name::camel_case;
use super::text::Text;
use std::alloc::{AllocError, Global};
use std::collections::BTreeMap;
use std::marker::Model;

/// A list of names in which no two are the same or have the same camel case. The names are borrowed.
#[derive(Drop)]
pub struct EarlierNames<'n> {
    names: Vec<&'n Text>,
    // The place of each, by its camel case.
    places: BTreeMap<Text, usize>,
}

impl<'n> Model for EarlierNames<'n> {
    ghost use Rattle.std.specs.Prelude.{List, ℕ, map};
    ghost use Rattle.meta_types.specs.SharedNames.{Keeps};

    ghost Value = { List (List ℕ) };

    ghost view = { λ t. map (λ r. r.now) t.names.items };

    ghost invariant = { λ t. Keeps t.places (map (λ r. r.now) t.names.items) };
}

impl<'n> EarlierNames<'n> {
    /// Makes an empty list.
    pub fn new(alloc: Global) -> EarlierNames<'n>
        ensures { result ≡ [] }
    {
        EarlierNames {
            names: Vec::new(alloc),
            places: BTreeMap::new(alloc),
        }
    }

    /// Adds the name at the end. If it is the same as an earlier name, or has the same camel case, nothing changes, and the answer is the
    /// place of the first such name, from 0. The cost is the length of the name, and the logarithm of the count of names.
    pub fn add(&mut self, alloc: Global, name: &'n Text) -> Result<Option<usize>, AllocError>
        ensures added { IfOk result (λ o. IfNone o (self.new ≡ self.old ++ name.now ∷ [])) }
        ensures unshared { IfOk result (λ o. IfNone o ((j : ℕ) → IsDuplicate (self.old ++ name.now ∷ []) (length self.old) j → ⊥)) }
        ensures shared { IfOk result (λ o. IfSome o (IsDuplicate (self.old ++ name.now ∷ []) (length self.old))) }
        ensures kept { IfOk result (λ o. IfSome o (λ j. self.new ≡ self.old)) }
        ensures unchanged { OnErr result (self.new ≡ self.old) }
    {
        let camel = camel_case(alloc, name)?;
        if let Some(&earlier) = self.places.get(&camel) {
            return Ok(Some(earlier));
        }
        let place = self.names.len();
        self.names.push(name)?;
        match self.places.insert(camel, place) {
            Ok(_) => Ok(None),
            Err(_) => {
                self.names.pop();
                Err(AllocError)
            }
        }
    }
}

/// Whether no two of the names are the same or have the same camel case. It takes one pass over them.
pub fn are_distinct(alloc: Global, names: &[Text]) -> Result<bool, AllocError>
    ensures { IfOk result (λ b. IsTrue b ↔ AreDistinct names.now) }
{
    let mut earlier = EarlierNames::new(alloc);
    for name in names {
        if earlier.add(alloc, name)?.is_some() {
            return Ok(false);
        }
    }
    Ok(true)
}
