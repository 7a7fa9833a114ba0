ghost use Rattle.std.specs.Prelude.{◌≡◌, ◌↔◌, ◌<◌, ℕ, IsSome, IfSome, IfNone, IfOk};
ghost use Rattle.meta_gen.specs.Constraint.{entry_of};
ghost use Rattle.meta_gen.specs.Contents.{IsOpcode};
ghost use Rattle.meta_explain.specs.Parts.{numbers_of, Accepts, PartPasses, FailsFirstBy};
ghost use Rattle.meta_explain.specs.Search.{TypesAlonePass};
ghost use Rattle.meta_explain.specs.Options.{TellsTypes};
ghost use Rattle.meta_explain.specs.Wanted.{IsControlWanted, IsWanted, IsExplained};
ghost use Rattle.meta_explain.specs.declared.part.Part.{Part};
ghost use Rattle.meta_explain.specs.declared.part.Part.TheVariants.{Operand};
ghost use Rattle.meta_explain.specs.declared.explained.Explained.TheVariants.{Accept};

use super::control_types::ControlTypes;
use super::explained::{Explained, Wanted};
use super::part::Part;
use super::types::{control_types, types_at};
use super::unfit::unfit_operand;
use meta_gen::{NO_TYPE_SET, OpcodeConstraints, OpcodeTables};
use std::alloc::{AllocError, Global};

/// The first part that fails by this entry. `None` if all pass.
fn first_failing(
    tables: &OpcodeTables,
    entry: OpcodeConstraints,
    controls: ControlTypes,
    results: &[u16],
    values: &[u16],
) -> Option<Part>
    ensures some { IfSome result (FailsFirstBy tables.now (entry_of entry) controls results.now values.now) }
    ensures none { IfNone result ((p : Part) → PartPasses tables.now (entry_of entry) controls results.now values.now p) }
{
    if !tables.control_fits(entry.typeset_offset, controls.ctrl) {
        return Some(Part::Control);
    }
    if !tables.control_fits(entry.second_offset, controls.second) {
        return Some(Part::Second);
    }
    if results.len() != entry.result_count() {
        return Some(Part::ResultCount);
    }
    if values.len() != entry.value_count() {
        return Some(Part::ValueCount);
    }
    let offset = entry.constraint_offset as usize;
    let operand = unfit_operand(tables, controls, offset, results, values)?;
    Some(Part::Operand(operand))
}

/// What a control with this type set offset has to be.
fn control_wanted(alloc: Global, tables: &OpcodeTables, offset: u16) -> Result<Wanted, AllocError>
    ensures { IfOk result (IsControlWanted tables.now offset) }
{
    if offset == NO_TYPE_SET {
        return Ok(Wanted::Nothing);
    }
    let types = control_types(alloc, tables, offset)?;
    Ok(Wanted::Types(types))
}

/// What the part has to be by this entry.
fn wanted_of(
    alloc: Global,
    tables: &OpcodeTables,
    entry: OpcodeConstraints,
    controls: ControlTypes,
    part: Part,
) -> Result<Wanted, AllocError>
    requires few { (k : ℕ) → part ≡ Operand k → k < 16 }
    requires types { (k : ℕ) → part ≡ Operand k → TypesAlonePass tables.now (numbers_of controls) }
    ensures { IfOk result (IsWanted tables.now (entry_of entry) controls part) }
{
    match part {
        Part::Control => control_wanted(alloc, tables, entry.typeset_offset),
        Part::Second => control_wanted(alloc, tables, entry.second_offset),
        Part::ResultCount => Ok(Wanted::Count(entry.result_count())),
        Part::ValueCount => Ok(Wanted::Count(entry.value_count())),
        Part::Operand(operand) => {
            let place = entry.constraint_offset as usize + operand;
            let types = types_at(alloc, tables, controls, place)?;
            Ok(Wanted::Types(types))
        }
    }
}

/// Whether the opcode accepts these types, and else which part is the first that fails, and exactly what that part has to be. Types are
/// given by their numbers: the controlling types, and those of the value results and value inputs. The parts are looked at in the order of
/// `Part`. `None` exactly if `opcode` isn't 1 to `opcode_count`. It takes memory only for the types that a part has to be.
pub fn explain(
    alloc: Global,
    tables: &OpcodeTables,
    opcode: u16,
    controls: ControlTypes,
    results: &[u16],
    values: &[u16],
) -> Result<Option<Explained>, AllocError>
    ensures opcode { IfOk result (λ o. IsSome o ↔ IsOpcode tables.now opcode) }
    ensures explained { IfOk result (λ o. IfSome o (IsExplained tables.now opcode controls results.now values.now)) }
    ensures types { IfOk result (λ o. IfSome o TellsTypes) }
    ensures accept { IfOk result (λ o. IfSome o (λ x. (x ≡ Accept) ↔ Accepts tables.now opcode controls results.now values.now)) }
{
    let Some(entry) = tables.constraints(opcode) else {
        return Ok(None);
    };
    let Some(part) = first_failing(tables, entry, controls, results, values) else {
        return Ok(Some(Explained::Accept));
    };
    let _count = tables.opcode_count();
    let wanted = wanted_of(alloc, tables, entry, controls, part)?;
    Ok(Some(Explained::Refuse(part, wanted)))
}
