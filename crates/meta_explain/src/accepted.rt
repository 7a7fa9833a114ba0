ghost use Rattle.std.specs.Prelude.{◌≡◌, ◌≢◌, ◌↔◌, IfOk, IfSome, IfNone, IsTrue};
ghost use Rattle.meta_types.specs.DerivedFunc.{function_of};
ghost use Rattle.meta_inst.specs.Controls.{which_of};
ghost use Rattle.meta_inst.specs.Tables.{no_type_set};
ghost use Rattle.meta_gen.specs.Constraint.{number_constraint_of, entry_of};
ghost use Rattle.meta_explain.specs.Search.{offset_of};
ghost use Rattle.meta_explain.specs.Operands.{AcceptsSome};
ghost use Rattle.meta_explain.specs.Options.{AreControlOptions, AreTypeOptions};
ghost use Rattle.meta_explain.specs.Serving.{LeadsOn, Serves, ServesAt, IsServing, HasMember, IsMet, IsMetAt, AreMet, AreServing};
ghost use Rattle.meta_explain.specs.Serving.{IsEmptyOption};
ghost use Rattle.meta_explain.specs.declared.control_types.ControlTypes.{ControlTypes};

use super::control_options::ControlOptions;
use super::searching::offset_of;
use super::types::{FIRST_TYPE, TYPES_END};
use meta_gen::{Constraint, Demand, NO_TYPE_SET, OpcodeConstraints, OpcodeTables, Which};
use meta_types::DerivedFunc;
use std::alloc::{AllocError, Global};

/// The number after the greatest number of a scalar.
const SCALARS_END: u16 = 125;

/// Whether the function leads from the type with this number to any type. A relation leads to scalars alone.
fn leads_on(derived_func: DerivedFunc, number: u16) -> bool
    ensures { IsTrue result ↔ LeadsOn (function_of derived_func) number }
{
    if !derived_func.is_relation() {
        return derived_func.apply_number(number).is_some();
    }
    for other in FIRST_TYPE..SCALARS_END {
        if derived_func.relates_number(number, other) {
            return true;
        }
    }
    false
}

/// Whether the type serves as the control for an operand with this constraint.
fn serves(constraint: Constraint, which: Which, number: u16) -> bool
    ensures { IsTrue result ↔ Serves (which_of which) number (number_constraint_of constraint) }
{
    match constraint.demanded() {
        Demand::By(own, derived_func) => own != which || leads_on(derived_func, number),
        Demand::Number(_) | Demand::OfSet(_) | Demand::Controlling(_) => true,
    }
}

/// Whether the type serves as the control for the operand at the place.
fn serves_at(tables: &OpcodeTables, which: Which, number: u16, place: usize) -> bool
    ensures { IsTrue result ↔ ServesAt tables.now (which_of which) number place }
{
    match tables.operand_constraints().get(place) {
        Some(constraint) => serves(*constraint, which, number),
        None => true,
    }
}

/// Whether the type fits as the control, and serves for each operand of the entry.
fn is_serving(tables: &OpcodeTables, entry: OpcodeConstraints, which: Which, number: u16) -> bool
    ensures { IsTrue result ↔ IsServing tables.now (entry_of entry) (which_of which) number }
{
    if !tables.control_fits(offset_of(entry, which), Some(number)) {
        return false;
    }
    let offset = entry.constraint_offset as usize;
    for k in 0..entry.result_count() + entry.value_count() {
        if !serves_at(tables, which, number, offset + k) {
            return false;
        }
    }
    true
}

/// The types that fit as the control and serve for each operand of the entry, by their numbers in rising order. `None` if there is no such
/// control.
fn serving(
    alloc: Global,
    tables: &OpcodeTables,
    entry: OpcodeConstraints,
    which: Which,
) -> Result<Option<Vec<u16>>, AllocError>
    ensures { IfOk result (AreServing tables.now (entry_of entry) (which_of which)) }
{
    if offset_of(entry, which) == NO_TYPE_SET {
        return Ok(None);
    }
    let mut types = Vec::new(alloc);
    for number in FIRST_TYPE..TYPES_END {
        if is_serving(tables, entry, which, number) {
            types.push(number)?;
        }
    }
    Ok(Some(types))
}

fn has_control(entry: OpcodeConstraints, which: Which) -> bool
    ensures { IsTrue result ↔ offset_of (entry_of entry) (which_of which) ≢ no_type_set }
{
    offset_of(entry, which) != NO_TYPE_SET
}

/// Whether what an operand with this constraint asks for beside a type that serves can be met.
fn is_met(tables: &OpcodeTables, entry: OpcodeConstraints, constraint: Constraint) -> bool
    ensures { IsTrue result ↔ IsMet tables.now (entry_of entry) (number_constraint_of constraint) }
{
    match constraint.demanded() {
        Demand::Number(_) => true,
        Demand::OfSet(set) => has_member(tables, set),
        Demand::Controlling(which) => has_control(entry, which),
        Demand::By(which, _) => has_control(entry, which),
    }
}

/// Whether some type is in the type set at this place.
fn has_member(tables: &OpcodeTables, set: u16) -> bool
    ensures { IsTrue result ↔ HasMember tables.now set }
{
    for number in FIRST_TYPE..TYPES_END {
        if tables.set_contains(set, number) {
            return true;
        }
    }
    false
}

/// Whether a constraint stands at the place, and what it asks for beside a type that serves can be met.
fn is_met_at(tables: &OpcodeTables, entry: OpcodeConstraints, place: usize) -> bool
    ensures { IsTrue result ↔ IsMetAt tables.now (entry_of entry) place }
{
    match tables.operand_constraints().get(place) {
        Some(constraint) => is_met(tables, entry, *constraint),
        None => false,
    }
}

/// Whether what each operand of the entry asks for beside types that serve can be met.
fn are_met(tables: &OpcodeTables, entry: OpcodeConstraints) -> bool
    ensures { IsTrue result ↔ AreMet tables.now (entry_of entry) }
{
    let offset = entry.constraint_offset as usize;
    for k in 0..entry.result_count() + entry.value_count() {
        if !is_met_at(tables, entry, offset + k) {
            return false;
        }
    }
    true
}

/// Whether no type is listed for a control that there is.
fn is_empty(types: &Option<Vec<u16>>) -> bool
    ensures { IsTrue result ↔ IsEmptyOption types.now }
{
    match types {
        Some(types) => types.is_empty(),
        None => false,
    }
}

/// The controlling types under which the opcode accepts something. Each operand goes by at most one control, so each type that is listed
/// for the first control goes with each one that is listed for the second. `None` exactly if the opcode accepts nothing under any controls,
/// or `opcode` isn't an opcode.
///
/// The cost is a few tests for each control, operand and number that a type can have.
pub fn accepted_controls(
    alloc: Global,
    tables: &OpcodeTables,
    opcode: u16,
) -> Result<Option<ControlOptions>, AllocError>
    ensures options { IfOk result (λ o. IfSome o (AreControlOptions tables.now opcode)) }
    ensures types { IfOk result (λ o. IfSome o (λ x. AreTypeOptions x.first × AreTypeOptions x.second)) }
    ensures none { IfOk result (λ o. IfNone o ((c : ControlTypes) → AcceptsSome tables.now opcode c → ⊥)) }
{
    let _count = tables.opcode_count();
    let Some(entry) = tables.constraints(opcode) else {
        return Ok(None);
    };
    if !are_met(tables, entry) {
        return Ok(None);
    }
    let first = serving(alloc, tables, entry, Which::First)?;
    let second = serving(alloc, tables, entry, Which::Second)?;
    if is_empty(&first) {
        return Ok(None);
    }
    if is_empty(&second) {
        return Ok(None);
    }
    Ok(Some(ControlOptions { first, second }))
}
