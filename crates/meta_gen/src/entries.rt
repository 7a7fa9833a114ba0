ghost use Rattle.std.specs.Prelude.{◌≡◌, ◌↔◌, ◌<◌, ◌≤◌, ◌+◌, ◌^◌, ℕ, List, false, IsTrue, IfOk, OnOk, length, slice_get};
ghost use Rattle.std.specs.Prelude.{take, Some};
ghost use Rattle.meta_typevar.specs.Registry.{sets_of, variable_at, IsRegistry};
ghost use Rattle.meta_typevar.specs.declared.content.TypeVarContent.{TypeVarContent};
ghost use Rattle.meta_inst.specs.Builder.{Builder};
ghost use Rattle.meta_inst.specs.Faults.{IsAt, IsValid};
ghost use Rattle.meta_inst.specs.Which.{First};
ghost use Rattle.meta_inst.specs.Controls.{which_of, AreControlsOf, controls_at};
ghost use Rattle.meta_inst.specs.InstructionSet.{AreOfRegistries};
ghost use Rattle.meta_inst.specs.Operands.{AreOf, SecondIsOf, instruction_of_operands, designated_number};
ghost use Rattle.meta_inst.specs.Tables.{TableContents, AreFlagsOf, IsTypeSetOffset, result_count, value_count, SaysDesignated};
ghost use Rattle.meta_inst.specs.Tables.{SaysDiffers};
ghost use Rattle.meta_unique.specs.Overlap.{added, added_at};
ghost use Rattle.meta_gen.specs.ConstraintLists.{same_constraint, three_same};
ghost use Rattle.meta_gen.specs.Entries.{CanEnter, StaysIn, IsHeld, HasTypeSets, EntryHolds, IsAdded, AreAdded, IsHeldAt};

use super::constraint::{Constraint, NO_TYPE_SET, OpcodeConstraints};
use super::operand_constraints::{constraints_of, set_place};
use meta_build::Built;
use meta_inst::{Controls, InstructionContent, Operands, Which};
use meta_typevar::{TypeSet, TypeVars};
use meta_unique::{UniqueSeqTable, UniqueTable};
use std::alloc::{AllocError, Global};

fn designated_controls(operands: &Operands, controls: &Controls) -> bool
    ensures { IsTrue result ↔ ((v : ℕ) × (controls.now First ≡ Some v) × (designated_number operands.now ≡ Some v)) }
{
    match operands.designated() {
        Some(v) => controls.is_first(v),
        None => false,
    }
}

fn first_result_controls(operands: &Operands, controls: &Controls) -> bool
    ensures { IsTrue result ↔ ((v : ℕ) × (controls.now First ≡ Some v)
        × (slice_get (take operands.now.result_count operands.now.variables) 0 ≡ Some v)) }
{
    match operands.first_result() {
        Some(v) => controls.is_first(v),
        None => false,
    }
}

/// The flags byte: the counts of results and of values, whether the designated value's variable is the control, and whether the first
/// result's is another.
fn packed(results: u8, values: u8, designated: bool, first_result: bool) -> u8
    requires results { results ≤ 7 }
    requires values { values ≤ 7 }
    ensures results { result_count result ≡ results }
    ensures values { value_count result ≡ values }
    ensures designated { SaysDesignated result ↔ IsTrue designated }
    ensures differs { SaysDiffers result ↔ (IsTrue designated × (first_result ≡ false)) }
    ensures byte { result < 256 }
{
    let differs = designated && !first_result;
    results + 8 * designated as u8 + 16 * differs as u8 + 32 * values
}

fn flags_of(operands: &Operands, controls: &Controls) -> u8
    requires results { operands.now.result_count ≤ 7 }
    requires values { length operands.now.variables ≤ operands.now.result_count + 7 }
    ensures flags { (vars : List TypeVarContent) → IsRegistry vars → AreOf vars operands.now.variables
        → SecondIsOf vars operands.now.second → AreControlsOf vars controls.now
        → AreFlagsOf (instruction_of_operands vars operands.now) (controls_at vars controls.now First) result }
    ensures within { operands.now.result_count ≤ length operands.now.variables }
{
    let results = operands.result_count();
    let values = operands.variables().len() - results;
    packed(
        results as u8,
        values as u8,
        designated_controls(operands, controls),
        first_result_controls(operands, controls),
    )
}

/// The place of this control's type set, or 65,535 if there is no such control.
fn type_set_offset(
    vars: &TypeVars,
    controls: &Controls,
    which: Which,
    type_sets: &UniqueTable<'_, TypeSet>,
) -> u16
    requires controls { AreControlsOf vars.now controls.now }
    requires few { length type_sets.now ≤ 4095 }
    requires held { (v : ℕ) → controls.now (which_of which) ≡ Some v
        → IsHeld type_sets.now (sets_of vars.now (variable_at vars.now v).root) }
    ensures { (tables : TableContents) → HasTypeSets tables type_sets.now
        → IsTypeSetOffset (sets_of vars.now) (controls_at vars.now controls.now (which_of which)) tables result }
{
    match controls.get(which) {
        Some(v) => set_place(vars, *v, type_sets),
        None => NO_TYPE_SET,
    }
}

/// Adds the list to the one list, and answers where it then stands.
fn add_list(
    constraints: &mut UniqueSeqTable<Constraint>,
    list: &[Constraint],
) -> Result<u16, AllocError>
    requires { length constraints.old + length list.now < 2 ^ 16 }
    ensures made { OnOk result (constraints.new ≡ added same_constraint constraints.old list.now) }
    ensures place { IfOk result (λ place. place ≡ added_at same_constraint constraints.old list.now) }
    ensures stands { IfOk result (λ place. (k : ℕ) (x : Constraint) → slice_get list.now k ≡ Some x
        → slice_get constraints.new (place + k) ≡ Some x) }
    ensures stays { OnOk result (StaysIn constraints.old constraints.new) }
    ensures count { OnOk result (length constraints.new ≤ length constraints.old + length list.now) }
{
    let place = constraints.add(list)?;
    Ok(place as u16)
}

fn entry_of(
    alloc: Global,
    vars: &TypeVars,
    instruction: &InstructionContent,
    type_sets: &UniqueTable<'_, TypeSet>,
    constraints: &mut UniqueSeqTable<Constraint>,
) -> Result<OpcodeConstraints, AllocError>
    requires registry { IsRegistry vars.now }
    requires fits { CanEnter vars.now type_sets.now instruction.now }
    requires few { length type_sets.now ≤ 4095 }
    requires room { length constraints.old + 14 < 2 ^ 16 }
    ensures holds { IfOk result (λ e. EntryHolds vars.now
        (instruction_of_operands vars.now instruction.now.value_operands) type_sets.now constraints.new e) }
    ensures added { IfOk result (λ e. IsAdded vars.now
        (instruction_of_operands vars.now instruction.now.value_operands) type_sets.now constraints.old constraints.new e) }
    ensures stays { OnOk result (StaysIn constraints.old constraints.new) }
    ensures count { OnOk result (length constraints.new ≤ length constraints.old + 14) }
{
    let operands = instruction.value_operands();
    let controls = instruction.controls();
    let flags = flags_of(operands, &controls);
    let typeset_offset = type_set_offset(vars, &controls, Which::First, type_sets);
    let second_offset = type_set_offset(vars, &controls, Which::Second, type_sets);
    let list = constraints_of(alloc, vars, &controls, operands.variables(), type_sets)?;
    let constraint_offset = add_list(constraints, &list)?;
    Ok(OpcodeConstraints {
        flags,
        typeset_offset,
        second_offset,
        constraint_offset,
    })
}

/// The operand constraints of instructions, in one list, and the four numbers of each instruction.
#[derive(Drop)]
pub(crate) struct EntryLists {
    /// The operand constraints: first `Same` three times, then the lists of the instructions, added in order. Each list has the constraints
    /// of the results before those of the inputs.
    pub(crate) constraints: Vec<Constraint>,
    /// The four numbers of each instruction.
    pub(crate) entries: Vec<OpcodeConstraints>,
}

/// The one list before anything is added: `Same` three times.
fn three_same(alloc: Global) -> Result<UniqueSeqTable<Constraint>, AllocError>
    ensures { IfOk result (λ table. table ≡ three_same) }
{
    let mut constraints = UniqueSeqTable::new(alloc);
    constraints.add(&[Constraint::Same, Constraint::Same, Constraint::Same])?;
    Ok(constraints)
}

fn copied(
    alloc: Global,
    constraints: &UniqueSeqTable<Constraint>,
) -> Result<Vec<Constraint>, AllocError>
    ensures { IfOk result (λ v. v.items ≡ constraints.now) }
{
    constraints.iter().copied().collect(alloc)
}

pub(crate) fn entries(
    alloc: Global,
    vars: &TypeVars,
    built: &Built<'_>,
) -> Result<EntryLists, AllocError>
    requires variables { vars.now ≡ built.now.declared.set.vars }
    requires registry { IsRegistry vars.now }
    requires valid { IsValid built.now.declared.set }
    requires fits { AreOfRegistries built.now.declared.set.vars built.now.declared.set.formats built.now.declared.set.instructions }
    ensures count { IfOk result (λ r. length r.entries.items ≡ length built.now.declared.set.instructions) }
    ensures holds { IfOk result (λ r. (k : ℕ) (b : Builder) → IsAt built.now.declared.set k b
        → IsHeldAt built.now.declared.set.vars built.now.declared.set.formats built.now.type_sets r.constraints.items r.entries.items k b) }
    ensures added { IfOk result (λ r. (lists : List (List Constraint))
        × AreAdded built.now.declared.set.vars built.now.declared.set.formats built.now.declared.set.instructions
        built.now.type_sets r.constraints.items r.entries.items lists) }
{
    let instructions = built.instructions();
    let type_sets = built.type_sets();
    let mut constraints = three_same(alloc)?;
    let mut entries = Vec::with_capacity(alloc, instructions.len())?;
    for k in 0..instructions.len() {
        entries.push(entry_of(alloc, vars, &instructions[k], type_sets, &mut constraints)?)?;
    }
    let constraints = copied(alloc, &constraints)?;
    Ok(EntryLists {
        constraints,
        entries,
    })
}
