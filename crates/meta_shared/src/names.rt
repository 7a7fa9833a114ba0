ghost use Rattle.std.specs.Prelude.{◌≡◌, ◌<◌, ◌-◌, ◌^◌, IfOk, OnOk, length, true};
ghost use Rattle.meta_shared.specs.Words.{AreMeant, IsKindOfWord, Grows, is_derivable, derived_count};

use super::entities::EntityRefs;
use super::formats::Formats;
use super::immediates::Immediates;
use super::roots::Roots;
use super::word::Word;
use meta_operands::OperandKind;
use meta_typevar::TypeVars;
use std::alloc::{AllocError, Global};
use std::marker::Model;

/// The meanings of the words of the tables.
#[derive(Drop)]
pub struct Names<'n> {
    pub(crate) formats: &'n Formats,
    imm: &'n Immediates,
    entities: &'n EntityRefs,
    roots: &'n Roots,
}

impl<'n> Model for Names<'n> {
    ghost use Rattle.meta_shared.specs.Words.{Meanings};

    ghost Value = { Meanings };

    ghost view = { λ n. record { formats = n.formats.now; imm = n.imm.now; entities = n.entities.now; roots = n.roots.now } };
}

impl<'n> Names<'n> {
    /// Makes the meanings of words from these formats, kinds and roots.
    pub fn new(
        formats: &'n Formats,
        imm: &'n Immediates,
        entities: &'n EntityRefs,
        roots: &'n Roots,
    ) -> Names<'n>
        ensures { result ≡ record { formats = formats.now; imm = imm.now; entities = entities.now; roots = roots.now } }
    {
        Names {
            formats,
            imm,
            entities,
            roots,
        }
    }

    /// The kind that a word stands for. A derived variable is added if the registry doesn't have it.
    pub(crate) fn kind(
        &self,
        alloc: Global,
        vars: &mut TypeVars,
        word: Word,
    ) -> Result<OperandKind, AllocError>
        requires meant { AreMeant vars.old self.now }
        requires room { length vars.old < 2 ^ 32 - 1 }
        requires derivable { is_derivable word ≡ true }
        ensures kind { IfOk result (IsKindOfWord vars.new self.now word) }
        ensures grows { OnOk result (Grows (derived_count word) vars.old vars.new) }
    {
        match word {
            Word::Kind(kind) => kind.of(self.imm, self.entities).copy(alloc),
            Word::Root(root) => OperandKind::of(alloc, self.roots.variable(root)),
            Word::Derived(function, root) => {
                let variable = self.roots.variable(root).derived(vars, function)?;
                OperandKind::of(alloc, variable)
            }
        }
    }
}
