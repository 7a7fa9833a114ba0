ghost use Rattle.std.specs.Prelude.{◌≡◌, ◌≢◌, ◌↔◌, ◌<◌, ◌≤◌, ℕ, ◌+◌, IsTrue, IfOk, IfErr, OnOk, Err, length, take};
ghost use Rattle.meta_types.specs.declared.fault.Place.{Place};
ghost use Rattle.meta_types.specs.declared.fault.DefinitionError.TheVariants.{BadName, OutOfMemory};
ghost use Rattle.meta_inst.specs.InstructionFaults.{NameRule};
ghost use Rattle.meta_inst.specs.Faults.{FormatNameRule, OfInstruction, OfFormat, IsFirstFault, names_of};
ghost use Rattle.meta_build.specs.Searched.{IsCleanBefore, IsRefusedFirst, IsUnshared, IsSharedName};
ghost use Rattle.meta_build.specs.BuiltInstructions.{IsBuiltAt, AreInstructionsOf};

use super::declared_set::DeclaredSet;
use meta_inst::InstructionContent;
use meta_types::{DefinitionError, EarlierNames, Place};
use std::alloc::Global;

/// Whether the instruction is refused before its name is compared with others: it has a bad name, or memory ran out.
fn is_refused_first(built: &Result<InstructionContent, DefinitionError>) -> bool
    ensures { IsTrue result ↔ IsRefusedFirst built.now }
{
    match built {
        Err(DefinitionError::BadName(_) | DefinitionError::OutOfMemory) => true,
        _ => false,
    }
}

fn add_name<'d>(
    alloc: Global,
    set: &'d DeclaredSet,
    place: usize,
    names: &mut EarlierNames<'d>,
) -> Result<(), DefinitionError>
    requires few { length set.now.instructions ≤ 4095 }
    requires within { place < length set.now.instructions }
    requires kept { names.old ≡ take place (names_of set.now) }
    ensures kept { OnOk result (names.new ≡ take (place + 1) (names_of set.now)) }
    ensures unshared { OnOk result (IsUnshared set.now place) }
    ensures refused { IfErr result (λ e. e ≢ OutOfMemory → IsSharedName set.now place e) }
{
    let builder = set.instructions().get(place);
    if let Some(earlier) = names.add(alloc, builder.name())? {
        let place = Place::Instruction(place as u64 + 1);
        return Err(DefinitionError::DuplicateName(place, earlier as u64 + 1));
    }
    Ok(())
}

/// Builds the instruction at this place, from 0, if no fault comes before. `names` has the names of the earlier instructions. The error is
/// the first fault, if this instruction has it. Else its name is added.
fn built_instruction<'d>(
    alloc: Global,
    set: &'d DeclaredSet,
    place: usize,
    names: &mut EarlierNames<'d>,
) -> Result<InstructionContent, DefinitionError>
    requires few { length set.now.instructions ≤ 4095 }
    requires within { place < length set.now.instructions }
    requires kept { names.old ≡ take place (names_of set.now) }
    requires clean { IsCleanBefore set.now (OfInstruction place NameRule) }
    ensures kept { OnOk result (names.new ≡ take (place + 1) (names_of set.now)) }
    ensures clean { OnOk result (IsCleanBefore set.now (OfInstruction (place + 1) NameRule)) }
    ensures built { IfOk result (IsBuiltAt set.now place) }
    ensures refused { IfErr result (λ e. e ≢ OutOfMemory → IsFirstFault set.now e) }
{
    let builder = set.instructions().get(place);
    let built = builder.build(alloc, set.vars(), set.formats(), place as u64 + 1);
    if is_refused_first(&built) {
        return built;
    }
    add_name(alloc, set, place, names).and(built)
}

pub(crate) fn built_instructions(
    alloc: Global,
    set: &DeclaredSet,
) -> Result<Vec<InstructionContent>, DefinitionError>
    requires few { length set.now.instructions ≤ 4095 }
    requires clean { IsCleanBefore set.now (OfInstruction 0 NameRule) }
    ensures clean { OnOk result (IsCleanBefore set.now (OfFormat 0 FormatNameRule)) }
    ensures built { IfOk result (λ v. AreInstructionsOf set.now v.items) }
    ensures refused { IfErr result (λ e. e ≢ OutOfMemory → IsFirstFault set.now e) }
{
    let mut names = EarlierNames::new(alloc);
    let mut built = Vec::with_capacity(alloc, set.instructions().len())?;
    for place in 0..set.instructions().len() {
        built.push(built_instruction(alloc, set, place, &mut names)?)?;
    }
    Ok(built)
}
