ghost use Rattle.std.specs.Prelude.{◌≡◌, ◌↔◌, ◌+◌, ◌<◌, ◌^◌, ◌++◌, ◌∷◌, [], IsTrue, IfOk, OnErr, length, slice_get, Some};

use super::format::InstructionFormat;
use std::alloc::{AllocError, Global};
use std::marker::Model;

/// A format, by its number in a table, from 0.
#[derive(Clone, Copy, Debug, PartialEq, Eq, Hash, PartialOrd, Ord)]
pub struct FormatId {
    number: u32,
}

impl Model for FormatId {
    ghost use Rattle.std.specs.Prelude.{ℕ};

    ghost Value = { ℕ };

    ghost view = { λ f. f.number };

    ghost inverse = { λ n. record { number = n } };
}

impl FormatId {
    /// The number, from 0.
    pub fn number(self) -> u32
        ensures { result ≡ self }
    {
        self.number
    }
}

/// The declared formats, by their numbers. In the crate they are compared as pointers.
#[derive(Drop)]
pub struct FormatTable {
    formats: Vec<InstructionFormat>,
}

impl Model for FormatTable {
    ghost use Rattle.std.specs.Prelude.{List, length, ◌<◌, ◌^◌};
    ghost use Rattle.meta_operands.specs.declared.format.InstructionFormat.{InstructionFormat};

    ghost Value = { List InstructionFormat };

    ghost view = { λ t. t.formats.items };

    ghost invariant = { λ t. length t.formats.items < 2 ^ 32 };
}

impl FormatTable {
    /// Makes an empty table.
    pub fn new(alloc: Global) -> FormatTable
        ensures { result ≡ [] }
    {
        FormatTable {
            formats: Vec::new(alloc),
        }
    }

    /// How many formats there are.
    pub fn len(&self) -> usize
        ensures { result ≡ length self.now }
    {
        self.formats.len()
    }

    /// Whether a format can be added: the table has fewer than 2^32 - 1.
    pub fn has_room(&self) -> bool
        ensures { IsTrue result ↔ (length self.now + 1 < 2 ^ 32) }
    {
        self.formats.len() < 0xffff_ffff
    }

    /// Whether the number is that of a format of this table.
    pub fn is_of(&self, id: FormatId) -> bool
        ensures { IsTrue result ↔ (id < length self.now) }
    {
        (id.number as usize) < self.formats.len()
    }

    /// The format with this number, which must be of the table. `is_of` tests this.
    pub fn get(&self, id: FormatId) -> &InstructionFormat
        requires { id < length self.now }
        ensures { slice_get self.now id ≡ Some result.now }
    {
        &self.formats[id.number as usize]
    }

    pub(crate) fn push(&mut self, format: InstructionFormat) -> Result<FormatId, AllocError>
        requires { length self.old + 1 < 2 ^ 32 }
        ensures number { IfOk result (λ id. id ≡ length self.old) }
        ensures added { IfOk result (λ id. self.new ≡ self.old ++ format ∷ []) }
        ensures unchanged { OnErr result (self.new ≡ self.old) }
    {
        let number = self.formats.len() as u32;
        self.formats.push(format)?;
        Ok(FormatId { number })
    }
}
