ghost use Rattle.std.specs.Prelude.{◌≡◌, ◌++◌, ◌∷◌, ◌<◌, [], OnOk, OnErr, length, slice_get, Some};

use super::builder::InstructionBuilder;
use std::alloc::{AllocError, Global};
use std::marker::Model;

/// The declared instructions, in order. Places here are from 0, and the instruction at place k has the number k + 1.
#[derive(Drop)]
pub struct AllInstructions {
    builders: Vec<InstructionBuilder>,
}

impl Model for AllInstructions {
    ghost use Rattle.std.specs.Prelude.{List};
    ghost use Rattle.meta_inst.specs.Builder.{Builder};

    ghost Value = { List Builder };

    ghost view = { λ a. a.builders.items };
}

impl AllInstructions {
    /// Makes an empty list.
    pub fn new(alloc: Global) -> Self
        ensures { result ≡ [] }
    {
        AllInstructions {
            builders: Vec::new(alloc),
        }
    }

    /// How many instructions there are.
    pub fn len(&self) -> usize
        ensures { result ≡ length self.now }
    {
        self.builders.len()
    }

    /// The instruction at a place, which must be below `len`.
    pub fn get(&self, index: usize) -> &InstructionBuilder
        requires { index < length self.now }
        ensures { slice_get self.now index ≡ Some result.now }
    {
        &self.builders[index]
    }

    fn push(&mut self, builder: InstructionBuilder) -> Result<(), AllocError>
        ensures added { OnOk result (self.new ≡ self.old ++ builder ∷ []) }
        ensures unchanged { OnErr result (self.new ≡ self.old) }
    {
        self.builders.push(builder)?;
        Ok(())
    }
}

/// A builder that adds instructions to a list.
#[derive(Drop)]
pub struct InstructionGroupBuilder<'all> {
    all: &'all mut AllInstructions,
}

impl InstructionGroupBuilder<'_> {
    ghost use Rattle.meta_inst.specs.Group.{instructions_of, list_name};

    /// Makes a builder that adds to this list.
    pub fn new(all_instructions: &mut AllInstructions) -> InstructionGroupBuilder<'_>
        ensures list { instructions_of result ≡ all_instructions.old }
        ensures same_list { list_name result ≡ all_instructions.entry.ghost_name }
    {
        InstructionGroupBuilder {
            all: all_instructions,
        }
    }

    /// Adds the instruction at the end of the list. If memory runs out, the instruction is lost and the list stays as it was.
    pub fn push(&mut self, builder: InstructionBuilder) -> Result<(), AllocError>
        ensures added { OnOk result (instructions_of self.new ≡ instructions_of self.old ++ builder ∷ []) }
        ensures unchanged { OnErr result (instructions_of self.new ≡ instructions_of self.old) }
        ensures same_list { list_name self.new ≡ list_name self.old }
    {
        self.all.push(builder)
    }
}
