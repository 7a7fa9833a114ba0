ghost use Rattle.std.specs.Prelude.{◌≡◌, ◌==◌, IfOk};
ghost use Rattle.std.proofs.Common.{rules};
ghost use Rattle.std.specs.Cmp.Lexicographic.{pointwise, bytes_decides};
ghost use Rattle.std.specs.Cmp.Rules.{comparing};
ghost use Rattle.std.specs.Hash as fed;
ghost use Rattle.std.specs.Hash.{same_Alike, items_Alike};

use meta_types::Text;
use std::alloc::{AllocError, Global};
use std::hash::{Hash, Hasher};
use std::marker::Model;

/// The names of an enum's values, in order: the first is the default. A contract sees the list of the names.
#[derive(Debug, Drop)]
pub struct ValueNames {
    names: Vec<Text>,
}

impl Model for ValueNames {
    ghost use Rattle.std.specs.Prelude.{List, ℕ};

    ghost Value = { List (List ℕ) };

    ghost view = { λ v. v.names.items };
}

impl ValueNames {
    /// The names, in order.
    pub fn as_slice(&self) -> &[Text]
        ensures { result.now ≡ self.now }
    {
        self.names.as_slice()
    }

    /// Makes a copy of the names.
    pub fn copy(&self, alloc: Global) -> Result<ValueNames, AllocError>
        ensures { IfOk result (λ v. v ≡ self.now) }
    {
        let texts = self.as_slice();
        let mut names = Vec::new(alloc);
        for text in texts {
            names.push(text.copy(alloc)?)?;
        }
        Ok(ValueNames { names })
    }
}

impl From<Vec<Text>> for ValueNames {
    ghost from_gives = { λ names v. v ≡ names.items };

    fn from(names: Vec<Text>) -> ValueNames {
        ValueNames { names }
    }
}

impl PartialEq for ValueNames {
    ghost eq = { pointwise (pointwise ◌==◌) };

    ghost laws = { Prim.search (comparing, rules) };

    fn eq(&self, other: &ValueNames) -> bool {
        self.names == other.names
    }
}

impl Eq for ValueNames {
    ghost laws = { Prim.search (comparing, rules) };
}

impl Hash for ValueNames {
    ghost hash_input = { fed.slice fed.str };

    ghost respects_eq = { (items_Alike (same_Alike fed.str bytes_decides)).fed };

    fn hash<H: Hasher>(&self, state: &mut H) {
        self.names.hash(state);
    }
}
