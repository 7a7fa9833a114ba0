ghost use Rattle.std.specs.Prelude.{◌≡◌, ℕ, List, None, Some, IfOk, OnOk, if◌then◌else◌};
ghost use Rattle.std.specs.Option.{option_copied};
ghost use Rattle.meta_file_types.specs.Plain.{same_word};
ghost use Rattle.meta_file_types.specs.Held.{word_at, type_kept, kind_kept};

use super::refused::{ItemError, Reason};
use super::spelled::Spelled;
use meta_file_syntax::Bytes;
use meta_operands::OperandKind;
use meta_typevar::TypeVar;
use std::alloc::{AllocError, Global};
use std::collections::BTreeMap;

#[derive(Drop)]
pub(crate) enum Meaning {
    Type(TypeVar),
    Kind(OperandKind),
}

/// What is kept of a word: the place of the item that declares it, and what it stands for.
#[derive(Drop)]
pub(crate) struct Word {
    pub(crate) place: usize,
    pub(crate) meaning: Meaning,
}

impl Word {
    pub(crate) fn variable<'i>(&self, word: &'i [u8]) -> Result<TypeVar, ItemError<'i>>
        ensures { result ≡ type_kept word.now self.now.meaning }
    {
        match &self.meaning {
            Meaning::Type(variable) => Ok(*variable),
            Meaning::Kind(_) => Err(ItemError::Wrong(Reason::NoType(Spelled::of(word)))),
        }
    }

    pub(crate) fn kind(&self, alloc: Global) -> Result<Option<OperandKind>, AllocError>
        ensures { IfOk result (λ o. o ≡ kind_kept self.now.meaning) }
    {
        match &self.meaning {
            Meaning::Type(_) => Ok(None),
            Meaning::Kind(kind) => Ok(Some(kind.copy(alloc)?)),
        }
    }
}

#[derive(Drop)]
pub(crate) struct Words {
    map: BTreeMap<Vec<u8>, Word>,
}

impl Words {
    pub(crate) fn new(alloc: Global) -> Words
        ensures { (w : List ℕ) → word_at result w ≡ None }
    {
        Words {
            map: BTreeMap::new(alloc),
        }
    }

    pub(crate) fn get(&self, word: &[u8]) -> Option<&Word>
        ensures { option_copied result ≡ word_at self.now word.now }
    {
        self.map.get(word)
    }

    pub(crate) fn insert(
        &mut self,
        alloc: Global,
        word: &Bytes,
        kept: Word,
    ) -> Result<(), AllocError>
        ensures { OnOk result ((w : List ℕ) → word_at self.new w
            ≡ (if same_word w word.now then Some kept else word_at self.old w)) }
    {
        let key = Vec::from_slice(alloc, word.as_slice())?;
        self.map.insert(key, kept)?;
        Ok(())
    }
}
