ghost use Rattle.std.specs.Prelude.{◌≡◌, ℕ, List, None, Some, OnOk, if◌then◌else◌};
ghost use Rattle.meta_file_types.specs.Plain.{same_word};
ghost use Rattle.meta_file_types.specs.Registered.{Registered};
ghost use Rattle.meta_file_declare.specs.SaidOfInsts.{nothing_said};
ghost use Rattle.meta_file_declare.specs.Held.{Holds, word_at, formats_in, insts_in};

use meta_inst::AllInstructions;
use meta_operands::{FormatId, FormatTable};
use std::alloc::{AllocError, Global};
use std::collections::BTreeMap;

/// What is kept of a format's word: the place of the item that declares it, and the number of the format.
#[derive(Clone, Copy)]
pub(crate) struct FormatWord {
    pub(crate) place: usize,
    pub(crate) id: FormatId,
}

#[derive(Drop)]
pub(crate) struct FormatWords {
    map: BTreeMap<Vec<u8>, FormatWord>,
}

impl FormatWords {
    pub(crate) fn new(alloc: Global) -> FormatWords
        ensures { (w : List ℕ) → word_at result w ≡ None }
    {
        FormatWords {
            map: BTreeMap::new(alloc),
        }
    }

    pub(crate) fn get(&self, word: &[u8]) -> Option<FormatWord>
        ensures { result ≡ word_at self.now word.now }
    {
        let kept = self.map.get(word)?;
        Some(*kept)
    }

    pub(crate) fn insert(
        &mut self,
        alloc: Global,
        word: &[u8],
        kept: FormatWord,
    ) -> Result<(), AllocError>
        ensures { OnOk result ((w : List ℕ) → word_at self.new w
            ≡ (if same_word word.now w then Some kept else word_at self.old w)) }
    {
        let key = Vec::from_slice(alloc, word)?;
        self.map.insert(key, kept)?;
        Ok(())
    }
}

/// The declarations of the items so far: formats and instructions.
#[derive(Drop)]
pub struct Insts {
    /// The formats. Each has the number of its `format` item among such items.
    pub(crate) formats: FormatTable,
    pub(crate) words: FormatWords,
    pub(crate) insts: AllInstructions,
}

impl Insts {
    /// Makes the declarations of no items.
    pub fn new(alloc: Global) -> Insts
        ensures { (r : Registered) → Holds r result nothing_said.insts }
    {
        Insts {
            formats: FormatTable::new(alloc),
            words: FormatWords::new(alloc),
            insts: AllInstructions::new(alloc),
        }
    }

    /// The formats.
    pub fn formats(&self) -> &FormatTable
        ensures { result.now ≡ formats_in self.now }
    {
        &self.formats
    }

    /// The instructions.
    pub fn instructions(&self) -> &AllInstructions
        ensures { result.now ≡ insts_in self.now }
    {
        &self.insts
    }

    /// Takes out the formats and the instructions. No item can be added any more.
    pub fn into_parts(self) -> (FormatTable, AllInstructions)
        ensures formats { result.0 ≡ formats_in self }
        ensures instructions { result.1 ≡ insts_in self }
    {
        (self.formats, self.insts)
    }
}
