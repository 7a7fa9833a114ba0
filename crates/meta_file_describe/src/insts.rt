ghost use Rattle.std.specs.Prelude.{◌≡◌, ◌<◌, ℕ, IsTrue, Some, length};
ghost use Rattle.meta_operands.specs.Operand.{variable_of};

use super::formats::FormatWords;
use super::kinds::Kinds;
use super::texts::{docs_of, name_of, unless_same};
use super::unsaid::Unsaid;
use meta_build::Built;
use meta_file_syntax::{InstItem, Item, Listed, Mark, Property};
use meta_inst::InstructionContent;
use meta_operands::{Operand, OperandKind};
use meta_types::Text;
use meta_typevar::{TypeVar, TypeVars};
use std::alloc::Global;

fn is_of(vars: &TypeVars, operand: &Operand) -> bool
    ensures { IsTrue result → (tv : ℕ) → variable_of operand.now ≡ Some tv → tv < length vars.now }
{
    match operand.type_var() {
        Some(variable) => vars.is_of(variable),
        None => true,
    }
}

fn doc_of(alloc: Global, vars: &TypeVars, operand: &Operand) -> Result<Text, Unsaid> {
    if !is_of(vars, operand) {
        return Err(Unsaid::Unsayable);
    }
    Ok(Text::new(alloc, operand.doc(vars))?)
}

pub(crate) fn default_doc(
    alloc: Global,
    vars: &TypeVars,
    kind: &OperandKind,
) -> Result<Text, Unsaid> {
    let operand = Operand::new(Text::new(alloc, "")?, kind.copy(alloc)?);
    doc_of(alloc, vars, &operand)
}

/// The operands, each with its documentation, if that differs from the one of an operand of its kind without one.
fn operands_of(
    alloc: Global,
    kinds: &Kinds<'_>,
    operands: &[Operand],
) -> Result<Vec<meta_file_syntax::Operand>, Unsaid> {
    let vars = kinds.roots().vars();
    let mut listed = Vec::new(alloc);
    for operand in operands {
        let default = default_doc(alloc, vars, &operand.kind)?;
        let doc = doc_of(alloc, vars, operand)?;
        listed.push(meta_file_syntax::Operand {
            name: name_of(alloc, operand.name.as_bytes())?,
            what: kinds.type_or_kind(alloc, &operand.kind)?,
            text: unless_same(alloc, doc.as_bytes(), default.as_bytes())?,
        })?;
    }
    Ok(listed)
}

/// The marks of an instruction, if it has any. One that branches or returns ends its block.
fn marks_of(
    alloc: Global,
    kinds: &Kinds<'_>,
    inst: &InstructionContent,
    second: Option<TypeVar>,
) -> Result<Option<Listed<Mark>>, Unsaid> {
    let ends = inst.is_terminator() && !inst.is_branch() && !inst.is_return();
    let properties = [
        (ends, Property::TerminatesBlock),
        (inst.is_branch(), Property::Branches),
        (inst.is_call(), Property::Call),
        (inst.is_return(), Property::Returns),
        (inst.can_load(), Property::CanLoad),
        (inst.can_store(), Property::CanStore),
        (inst.can_trap(), Property::CanTrap),
        (inst.other_side_effects(), Property::OtherSideEffects),
        (
            inst.side_effects_idempotent(),
            Property::SideEffectsIdempotent,
        ),
        (inst.inst_builder_imm_method(), Property::ImmMethod),
    ];
    let mut marks = Vec::new(alloc);
    for (holds, property) in properties {
        if holds {
            marks.push(Mark::Is(property))?;
        }
    }
    if let Some(variable) = second {
        marks.push(Mark::Second(kinds.roots().type_expr(alloc, variable)?))?;
    }
    if marks.is_empty() {
        return Ok(None);
    }
    Ok(Some(Listed::of(marks)))
}

fn inst_of(
    alloc: Global,
    kinds: &Kinds<'_>,
    formats: &FormatWords,
    inst: &InstructionContent,
    second: Option<TypeVar>,
) -> Result<InstItem, Unsaid> {
    Ok(InstItem {
        docs: docs_of(alloc, inst.doc().as_bytes())?,
        name: name_of(alloc, inst.name().as_bytes())?,
        format: formats.word(alloc, inst.format())?,
        inputs: Listed::of(operands_of(alloc, kinds, inst.operands_in())?),
        outputs: Listed::of(operands_of(alloc, kinds, inst.operands_out())?),
        marks: marks_of(alloc, kinds, inst, second)?,
    })
}

pub(crate) fn push_insts(
    alloc: Global,
    built: &Built<'_>,
    kinds: &Kinds<'_>,
    formats: &FormatWords,
    items: &mut Vec<Item>,
) -> Result<(), Unsaid> {
    let instructions = built.declarations().instructions();
    for (place, inst) in built.instructions().iter().enumerate() {
        let second = if place < instructions.len() {
            instructions.get(place).second()
        } else {
            None
        };
        items.push(Item::Inst(inst_of(alloc, kinds, formats, inst, second)?))?;
    }
    Ok(())
}
