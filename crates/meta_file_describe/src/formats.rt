ghost use Rattle.std.specs.Prelude.{◌≡◌, ◌++◌, OnOk, replicate};
ghost use Rattle.meta_file_syntax.specs.declared.formats.Slot.TheVariants as slot;

use super::kinds::Kinds;
use super::texts::{begins_as_name, bytes_of, unless_same};
use super::unsaid::Unsaid;
use super::words::Words;
use meta_build::{Built, Declarations};
use meta_file_syntax::{Bytes, FormatItem, Item, Listed, Slot};
use meta_operands::{FormatId, InstructionFormat, OperandKindFields};
use std::alloc::{AllocError, Global};
use std::collections::{BTreeMap, BTreeSet};

/// The formats in use. If a kind of their fields has a variable of another registry, they are unsayable.
pub(crate) fn used_formats(alloc: Global, built: &Built<'_>) -> Result<BTreeSet<FormatId>, Unsaid> {
    let declarations = built.declarations();
    let (vars, table) = (declarations.vars(), declarations.formats());
    let mut used = BTreeSet::new(alloc);
    for id in built.formats() {
        if !table.is_of(*id) {
            return Err(Unsaid::Unsayable);
        }
        for field in table.get(*id).imm_fields.as_slice() {
            if let OperandKindFields::TypeVar(variable) = field.kind.fields {
                if !vars.is_of(variable) {
                    return Err(Unsaid::Unsayable);
                }
            }
        }
        used.insert(*id)?;
    }
    Ok(used)
}

fn push_words(
    alloc: Global,
    slots: &mut Vec<Slot>,
    word: &[u8],
    count: u32,
) -> Result<(), AllocError>
    ensures { OnOk result (slots.new.items ≡ slots.old.items ++ replicate count (slot.Kind word.now)) }
{
    for _added in 0..count {
        slots.push(Slot::Kind(bytes_of(alloc, word)?))?;
    }
    Ok(())
}

/// What the format stores: values, then any number of them, blocks, raw blocks, and fields. The first value is designated where none is
/// marked.
fn slots_of(
    alloc: Global,
    kinds: &Kinds<'_>,
    format: &InstructionFormat,
) -> Result<Vec<Slot>, Unsaid> {
    let mut slots = Vec::new(alloc);
    for place in 0..format.num_value_operands as usize {
        if place != 0 && format.typevar_operand == Some(place) {
            slots.push(Slot::Designated)?;
        } else {
            slots.push(Slot::Value)?;
        }
    }
    push_words(alloc, &mut slots, b"varargs", format.has_value_list.into())?;
    push_words(alloc, &mut slots, b"block", format.num_block_operands)?;
    push_words(
        alloc,
        &mut slots,
        b"raw_block",
        format.num_raw_block_operands,
    )?;
    for field in format.imm_fields.as_slice() {
        slots.push(Slot::Kind(kinds.field_word(alloc, &field.kind)?))?;
    }
    Ok(slots)
}

#[derive(Drop)]
pub(crate) struct FormatWords {
    words: BTreeMap<FormatId, Bytes>,
}

impl FormatWords {
    pub(crate) fn of(
        alloc: Global,
        declarations: &Declarations,
        formats: &BTreeSet<FormatId>,
        kinds: &Kinds<'_>,
        items: &mut Vec<Item>,
    ) -> Result<FormatWords, Unsaid> {
        let mut given = FormatWords {
            words: BTreeMap::new(alloc),
        };
        let mut words = Words::new(alloc);
        let table = declarations.formats();
        for id in formats.iter() {
            if table.is_of(*id) {
                let format = table.get(*id);
                let name = format.name.as_bytes();
                let is_name = begins_as_name(name);
                let word = words.give(alloc, if is_name { name } else { b"Format" }, true)?;
                given.words.insert(*id, word.copy(alloc)?)?;
                items.push(Item::Format(FormatItem {
                    shown: unless_same(alloc, name, word.as_slice())?,
                    word,
                    slots: Listed::of(slots_of(alloc, kinds, format)?),
                }))?;
            }
        }
        Ok(given)
    }

    pub(crate) fn word(&self, alloc: Global, id: FormatId) -> Result<Bytes, Unsaid> {
        match self.words.get(&id) {
            Some(word) => Ok(word.copy(alloc)?),
            None => Err(Unsaid::Unsayable),
        }
    }
}
