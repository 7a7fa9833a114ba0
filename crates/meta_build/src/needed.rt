ghost use Rattle.std.specs.Prelude.{◌<◌, ◌≤◌, IfOk, OnOk, length};
ghost use Rattle.meta_typevar.specs.Registry.{sets_of, variable_at, IsRegistry};
ghost use Rattle.meta_inst.specs.Which.{First};
ghost use Rattle.meta_inst.specs.Controls.{which_of, AreControlsOf, controls_at};
ghost use Rattle.meta_inst.specs.Operands.{AreOf, instruction_of_operands};
ghost use Rattle.meta_inst.specs.Control.{IsControl};
ghost use Rattle.meta_inst.specs.InstructionSet.{AreOfRegistries};
ghost use Rattle.meta_inst.specs.Content.{control_numbers};
ghost use Rattle.meta_build.specs.BuiltInstructions.{AreInstructionsOf};
ghost use Rattle.meta_build.specs.Interned.{Adds, AddsSome, AddsEach, AddsNeeded, IsControlSetOf, IsFreeSetOf, IsFreeSetAt};
ghost use Rattle.meta_build.specs.Needed.{AreSetsByNeed};

use super::declared_set::DeclaredSet;
use meta_inst::{Controls, InstructionContent, Which};
use meta_typevar::{TypeSet, TypeVar, TypeVars};
use meta_unique::UniqueTable;
use std::alloc::{AllocError, Global};

fn intern_set<'d>(
    type_sets: &mut UniqueTable<'d, TypeSet>,
    vars: &'d TypeVars,
    tv: TypeVar,
) -> Result<(), AllocError>
    requires { tv < length vars.now }
    ensures { OnOk result (Adds (sets_of vars.now (variable_at vars.now tv).root) type_sets.old type_sets.new) }
{
    let root = tv.root(vars);
    type_sets.add(root.get_raw_typeset(vars))?;
    Ok(())
}

fn intern_control<'d>(
    type_sets: &mut UniqueTable<'d, TypeSet>,
    vars: &'d TypeVars,
    controls: &Controls,
    which: Which,
) -> Result<(), AllocError>
    requires { AreControlsOf vars.now controls.now }
    ensures { OnOk result (AddsSome (IsControlSetOf vars.now controls.now (which_of which)) type_sets.old type_sets.new) }
{
    match controls.get(which) {
        Some(v) => intern_set(type_sets, vars, *v),
        None => Ok(()),
    }
}

/// Adds the type set of the variable, if that is underived, isn't a control and has no fixed type.
fn intern_operand<'d>(
    type_sets: &mut UniqueTable<'d, TypeSet>,
    vars: &'d TypeVars,
    controls: &Controls,
    tv: TypeVar,
) -> Result<(), AllocError>
    requires { tv < length vars.now }
    ensures { OnOk result (AddsSome (IsFreeSetOf vars.now controls.now tv) type_sets.old type_sets.new) }
{
    if controls.is_control(tv) {
        return Ok(());
    }
    if vars.content(tv).base.is_some() {
        return Ok(());
    }
    if tv.fixed_type(vars).is_some() {
        return Ok(());
    }
    intern_set(type_sets, vars, tv)
}

fn intern_free<'d>(
    type_sets: &mut UniqueTable<'d, TypeSet>,
    vars: &'d TypeVars,
    controls: &Controls,
    variables: &[TypeVar],
) -> Result<(), AllocError>
    requires { AreOf vars.now variables.now }
    ensures { OnOk result (AddsEach (IsFreeSetAt vars.now controls.now variables.now) (length variables.now) type_sets.old type_sets.new) }
{
    for place in 0..variables.len() {
        intern_operand(type_sets, vars, controls, variables[place])?;
    }
    Ok(())
}

/// Adds the type sets that the built instruction needs: first that of its control, then that of its second control, then those of its
/// operands.
fn intern_instruction<'d>(
    type_sets: &mut UniqueTable<'d, TypeSet>,
    vars: &'d TypeVars,
    instruction: &InstructionContent,
) -> Result<(), AllocError>
    requires variables { AreOf vars.now instruction.now.value_operands.variables }
    requires within { instruction.now.value_operands.result_count ≤ length instruction.now.value_operands.variables }
    requires registry { IsRegistry vars.now }
    requires control { IsControl (sets_of vars.now) (instruction_of_operands vars.now instruction.now.value_operands)
        (controls_at vars.now (control_numbers instruction.now) First) }
    requires controls { AreControlsOf vars.now (control_numbers instruction.now) }
    ensures { OnOk result (AddsNeeded (sets_of vars.now)
        (instruction_of_operands vars.now instruction.now.value_operands) type_sets.old type_sets.new) }
{
    let controls = instruction.controls();
    intern_control(type_sets, vars, &controls, Which::First)?;
    intern_control(type_sets, vars, &controls, Which::Second)?;
    let operands = instruction.value_operands();
    intern_free(type_sets, vars, &controls, operands.variables())
}

/// The type sets that the built instructions need, each once, in the order in which they are first needed.
pub(crate) fn needed_sets<'d>(
    alloc: Global,
    set: &'d DeclaredSet,
    instructions: &[InstructionContent],
) -> Result<UniqueTable<'d, TypeSet>, AllocError>
    requires built { AreInstructionsOf set.now instructions.now }
    requires fits { AreOfRegistries set.now.vars set.now.formats set.now.instructions }
    ensures { IfOk result (AreSetsByNeed set.now) }
{
    let mut type_sets = UniqueTable::new(alloc);
    for place in 0..instructions.len() {
        intern_instruction(&mut type_sets, set.vars(), &instructions[place])?;
    }
    Ok(type_sets)
}
