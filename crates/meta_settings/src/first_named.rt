ghost use Rattle.std.specs.Prelude.{◌≡◌, ◌==◌, ◌<◌, ◌∷◌, ◌++◌, [], ℕ, List, OnOk};
ghost use Rattle.std.proofs.Common.{rules};
ghost use Rattle.std.specs.Cmp.Lexicographic.{pointwise};
ghost use Rattle.std.specs.Cmp.Rules.{comparing, hashing};
ghost use Rattle.std.specs.Hash as fed;
ghost use Rattle.meta_settings.specs.TurnedOn.{firsts};

use std::alloc::{AllocError, Global};
use std::hash::{Hash, Hasher};
use std::marker::Model;

/// The numbers of the booleans that a preset turns on.
#[derive(Debug, Drop)]
pub(crate) struct BooleanNumbers {
    numbers: Vec<u8>,
}

impl Model for BooleanNumbers {
    ghost use Rattle.std.specs.Prelude.{List, ℕ};

    ghost Value = { List ℕ };

    ghost view = { λ b. b.numbers.items };
}

impl BooleanNumbers {
    pub(crate) fn as_slice(&self) -> &[u8]
        ensures { result.now ≡ self.now }
    {
        self.numbers.as_slice()
    }
}

impl PartialEq for BooleanNumbers {
    ghost eq = { pointwise ◌==◌ };

    ghost laws = { Prim.search (comparing, rules) };

    fn eq(&self, other: &BooleanNumbers) -> bool {
        self.numbers == other.numbers
    }
}

impl Eq for BooleanNumbers {
    ghost laws = { Prim.search (comparing, rules) };
}

impl Hash for BooleanNumbers {
    ghost hash_input = { fed.slice fed.u8 };

    ghost respects_eq = { Prim.search (hashing, rules) };

    fn hash<H: Hasher>(&self, state: &mut H) {
        self.numbers.hash(state);
    }
}

/// Numbers of booleans in the order in which they were first named, each once.
#[derive(Drop)]
pub(crate) struct FirstNamed {
    numbers: Vec<u8>,
    is_named: [bool; 256],
}

impl Model for FirstNamed {
    ghost use Rattle.std.specs.Prelude.{List, ℕ};
    ghost use Rattle.meta_settings.specs.Marked.{MarksNumbers};

    ghost Value = { List ℕ };

    ghost view = { λ f. f.numbers.items };

    ghost invariant = { λ f. MarksNumbers f.is_named f.numbers.items };
}

impl FirstNamed {
    pub(crate) fn new(alloc: Global) -> FirstNamed
        ensures { result ≡ [] }
    {
        FirstNamed {
            numbers: Vec::new(alloc),
            is_named: [false; 256],
        }
    }

    pub(crate) fn add(&mut self, number: u8) -> Result<(), AllocError>
        ensures { (named : List ℕ) → self.old ≡ firsts named → OnOk result (self.new ≡ firsts (named ++ number ∷ [])) }
    {
        if self.is_named[number as usize] {
            return Ok(());
        }
        self.numbers.push(number)?;
        self.is_named[number as usize] = true;
        Ok(())
    }

    pub(crate) fn add_all(&mut self, numbers: &[u8]) -> Result<(), AllocError>
        ensures { (named : List ℕ) → self.old ≡ firsts named → OnOk result (self.new ≡ firsts (named ++ numbers.now)) }
    {
        for number in numbers {
            self.add(*number)?;
        }
        Ok(())
    }

    pub(crate) fn numbers(self) -> BooleanNumbers
        ensures { result ≡ self }
    {
        BooleanNumbers {
            numbers: self.numbers,
        }
    }
}
