ghost use Rattle.std.specs.Prelude.{◌≡◌, ◌≢◌, ◌↔◌, ◌<◌, ◌⊎◌, ◌+◌, ℕ, List, IsTrue, IfOk, IfErr, OnOk, length, slice_get, Some};
ghost use Rattle.meta_types.specs.declared.fault.DefinitionError.TheVariants.{OutOfMemory};
ghost use Rattle.meta_typevar.specs.declared.content.TypeVarContent.{TypeVarContent};
ghost use Rattle.meta_inst.specs.Builder.{Builder};
ghost use Rattle.meta_inst.specs.InstructionSet.{InstructionSet};
ghost use Rattle.meta_inst.specs.Faults.{FormatNameRule, OfFormat, OfTypeSets, IsFirstFault};
ghost use Rattle.meta_build.specs.FormatsUsed.{AreUsedBefore, AreApart, AreOfTable, IsOfTable, ClashesWithNone};
ghost use Rattle.meta_build.specs.FormatsIndexed.{AreIndexed};
ghost use Rattle.meta_build.specs.FormatsByName.{AreByName};
ghost use Rattle.meta_build.specs.Searched.{IsCleanBefore, IsNextUse};

use super::formats_in_use::FormatsInUse;
use meta_inst::AllInstructions;
use meta_operands::{FormatId, FormatStructure, FormatTable, InstructionFormat};
use meta_types::{DefinitionError, Place, is_name};
use std::alloc::{AllocError, Global};
use std::collections::BTreeMap;

const MAX_BLOCKS: u32 = 2;

/// The most blocks without arguments that a format may have.
const MAX_RAW_BLOCKS: u32 = 1;

#[derive(Drop)]
pub(crate) struct UsedFormat {
    pub(crate) id: FormatId,
    pub(crate) structure: FormatStructure,
}

fn has_too_many_blocks(format: &InstructionFormat) -> bool
    ensures { IsTrue result ↔ ((2 < format.now.num_block_operands) ⊎ (1 < format.now.num_raw_block_operands)) }
{
    format.num_block_operands > MAX_BLOCKS || format.num_raw_block_operands > MAX_RAW_BLOCKS
}

/// The format of the table with its structure, to be used beside those in use. It is refused by its first fault, in this order: a bad name,
/// too many blocks, a clash with a format in use, of which the fault names the first.
fn next_used(
    alloc: Global,
    formats: &FormatTable,
    used: &FormatsInUse<'_>,
    id: FormatId,
) -> Result<UsedFormat, DefinitionError>
    requires below { id < length formats.now }
    requires table { used.now.formats.now ≡ formats.now }
    requires indexed { AreIndexed used.now }
    ensures refused { (vars : List TypeVarContent) (instructions : List Builder) (place : ℕ)
        → let d : InstructionSet = record { vars = vars; formats = formats.now; instructions = instructions } in
        IsNextUse d place used.now.used.items id → IfErr result (λ e. e ≢ OutOfMemory → IsFirstFault d e) }
    ensures clean { (vars : List TypeVarContent) (instructions : List Builder) (place : ℕ)
        → let d : InstructionSet = record { vars = vars; formats = formats.now; instructions = instructions } in
        IsNextUse d place used.now.used.items id → OnOk result (IsCleanBefore d (OfFormat (place + 1) FormatNameRule)) }
    ensures id { IfOk result (λ f. f.id ≡ id) }
    ensures of_table { IfOk result (IsOfTable formats.now) }
    ensures apart { OnOk result (ClashesWithNone formats.now used.now.used.items id) }
{
    let format = formats.get(id);
    let number = u64::from(id.number());
    if !is_name(&format.name) {
        return Err(DefinitionError::BadName(Place::Format(number)));
    }
    if has_too_many_blocks(format) {
        return Err(DefinitionError::BadFormat(number));
    }
    let structure = format.structure(alloc)?;
    let this = UsedFormat { id, structure };
    if let Some(earlier) = used.first_clash(&this) {
        return Err(DefinitionError::FormatClash(number, u64::from(earlier.number())));
    }
    Ok(this)
}

/// The formats in use, in the order of their first uses. They are refused by the first fault that one has, in this order: a bad name, too
/// many blocks, a clash with a format that is used earlier, of which the fault names the first.
pub(crate) fn used_formats(
    alloc: Global,
    formats: &FormatTable,
    instructions: &AllInstructions,
) -> Result<Vec<UsedFormat>, DefinitionError>
    requires { (k : ℕ) (b : Builder) → slice_get instructions.now k ≡ Some b → b.format < length formats.now }
    ensures refused { (vars : List TypeVarContent)
        → let d : InstructionSet = record { vars = vars; formats = formats.now; instructions = instructions.now } in
        IsCleanBefore d (OfFormat 0 FormatNameRule) → IfErr result (λ e. e ≢ OutOfMemory → IsFirstFault d e) }
    ensures clean { (vars : List TypeVarContent)
        → let d : InstructionSet = record { vars = vars; formats = formats.now; instructions = instructions.now } in
        IsCleanBefore d (OfFormat 0 FormatNameRule) → OnOk result (IsCleanBefore d OfTypeSets) }
    ensures used { (vars : List TypeVarContent)
        → let d : InstructionSet = record { vars = vars; formats = formats.now; instructions = instructions.now } in
        IfOk result (λ v. AreUsedBefore d (length instructions.now) v.items) }
    ensures of_table { IfOk result (λ v. AreOfTable formats.now v.items) }
    ensures apart { IfOk result (λ v. AreApart formats.now v.items) }
{
    let mut used = FormatsInUse::new(alloc, formats)?;
    for place in 0..instructions.len() {
        let id = instructions.get(place).format();
        if used.contains(id) {
            continue;
        }
        let format = next_used(alloc, formats, &used, id)?;
        used.add(alloc, format)?;
    }
    Ok(used.into_used())
}

pub(crate) fn by_name(
    alloc: Global,
    formats: &FormatTable,
    used: &[UsedFormat],
) -> Result<Vec<FormatId>, AllocError>
    requires of_table { AreOfTable formats.now used.now }
    requires apart { AreApart formats.now used.now }
    ensures { IfOk result (λ v. AreByName formats.now used.now v.items) }
{
    let mut ids = BTreeMap::new(alloc);
    for place in 0..used.len() {
        let id = used[place].id;
        if ids.insert(&formats.get(id).name, id).is_err() {
            return Err(AllocError);
        }
    }
    ids.into_values().collect(alloc)
}
