ghost use Rattle.std.specs.Prelude.{◌≡◌, ◌<◌, ◌≤◌, ℕ, List, length, take, None, Some, IfOk, OnOk, OnErr, true};
ghost use Rattle.std.specs.List.{list_any};
ghost use Rattle.meta_operands.specs.Format.{HasRoom};
ghost use Rattle.meta_file_types.specs.Said.{Said};
ghost use Rattle.meta_file_types.specs.Held as held;
ghost use Rattle.meta_file_types.specs.Telling.{Tells};
ghost use Rattle.meta_file_declare.specs.Formats.{slot_named, is_marked, slot_at, slots_of, marked_from};
ghost use Rattle.meta_file_declare.specs.Registered.{AddsSlot, Stores};

use meta_file_syntax::Slot;
use meta_file_types::{GivenKind, ItemError, Reason, Types};
use meta_operands::InstructionFormatBuilder;
use meta_types::Text;
use std::alloc::{AllocError, Global};

fn with_named<'i>(
    alloc: Global,
    types: &Types,
    builder: InstructionFormatBuilder,
    word: &'i [u8],
) -> Result<InstructionFormatBuilder, ItemError<'i>>
    ghost said: { Said }
    requires holds { held.Holds types.now said }
    requires room { HasRoom builder }
    ensures { Tells (λ slot b. AddsSlot (held.registered types.now said) slot builder b) result (slot_named said.words word.now) }
{
    match GivenKind::of(word) {
        Some(GivenKind::Block) => Ok(builder.block()),
        Some(GivenKind::RawBlock) => Ok(builder.raw_block()),
        Some(GivenKind::Varargs) => Ok(builder.varargs()),
        None => {
            let kind = types.kind_named(alloc, word)?;
            Ok(builder.imm(&kind)?)
        }
    }
}

fn has_marked(slots: &[Slot]) -> bool
    ensures { result ≡ list_any is_marked slots.now }
{
    slots.iter().any(|slot| matches!(slot, Slot::Designated))
}

/// Tests whether one more slot can be counted. The error comes only if it can't.
fn check_room(builder: &InstructionFormatBuilder) -> Result<(), AllocError>
    ensures room { OnOk result (HasRoom builder.now) }
    ensures full { OnErr result (¬ HasRoom builder.now) }
{
    if builder.has_room() {
        return Ok(());
    }
    Err(AllocError)
}

fn with_slot<'i>(
    alloc: Global,
    types: &Types,
    builder: InstructionFormatBuilder,
    slots: &'i [Slot],
    place: usize,
    slot: &'i Slot,
) -> Result<InstructionFormatBuilder, ItemError<'i>>
    ghost said: { Said }
    requires holds { held.Holds types.now said }
    requires within { place ≤ length slots.now }
    ensures { Tells (λ s b. AddsSlot (held.registered types.now said) s builder b) result (slot_at said.words slots.now place slot.now) }
{
    check_room(&builder)?;
    match slot {
        Slot::Value => Ok(builder.value()),
        Slot::Designated => {
            if has_marked(&slots[..place]) {
                return Err(ItemError::Wrong(Reason::TwoDesignated(place)));
            }
            Ok(builder.value())
        }
        Slot::Kind(word) => with_named(alloc, types, builder, word.as_slice()),
    }
}

/// The format with this name and these slots. None of its values is designated yet.
pub(crate) fn with_slots<'i>(
    alloc: Global,
    types: &Types,
    name: Text,
    slots: &'i [Slot],
) -> Result<InstructionFormatBuilder, ItemError<'i>>
    ghost said: { Said }
    requires holds { held.Holds types.now said }
    ensures slots { Tells (Stores (held.registered types.now said)) result (slots_of said.words slots.now) }
    ensures name { IfOk result (λ b. b.name ≡ name) }
    ensures designated { IfOk result (λ b. b.typevar_operand ≡ None) }
{
    let mut builder = InstructionFormatBuilder::new(alloc, name);
    for place in 0..slots.len() {
        builder = with_slot(alloc, types, builder, slots, place, &slots[place])?;
    }
    Ok(builder)
}

pub(crate) fn marked_in(slots: &[Slot]) -> Option<usize>
    ensures { result ≡ marked_from 0 slots.now }
{
    let mut values = 0;
    for slot in slots {
        match slot {
            Slot::Value => values += 1,
            Slot::Designated => return Some(values),
            Slot::Kind(_) => {}
        }
    }
    None
}

/// The format with this designated value, if one is given.
pub(crate) fn designating(
    builder: InstructionFormatBuilder,
    marked: Option<usize>,
) -> InstructionFormatBuilder
    requires undesignated { builder.typevar_operand ≡ None }
    requires within { (place : ℕ) → marked ≡ Some place → place < builder.num_value_operands }
    ensures { result ≡ record builder { typevar_operand = marked } }
{
    match marked {
        Some(place) => builder.typevar_operand(place),
        None => builder,
    }
}
