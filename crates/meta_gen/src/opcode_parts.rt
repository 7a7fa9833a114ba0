ghost use Rattle.std.specs.Prelude.{◌≡◌, ◌≢◌, ◌↔◌, ◌≤◌, ◌+◌, ℕ, true, false, IsTrue, IfOk, IfSome, IfNone, All, length, map};
ghost use Rattle.meta_types.specs.Name.{IsName};
ghost use Rattle.meta_types.specs.TypeParts.{IntKind, FloatKind, widths, lane_counts};
ghost use Rattle.meta_typevar.specs.MaskSets.{AreMasks};
ghost use Rattle.meta_inst.specs.Tables.{TableContents, no_type_set, SaysDesignated, SaysDiffers};
ghost use Rattle.meta_gen.specs.Constraint.{number_constraint_of, entry_of};
ghost use Rattle.meta_gen.specs.MaskParts.{IsMaskOf};
ghost use Rattle.meta_types.specs.TypeNumber.{IsTypeNumber};
ghost use Rattle.meta_gen.specs.WellFormedOpcodes.{IsWellFormedConstraint, IsSetOffset, IsWellFormedEntry, AreWellFormedParts};
ghost use Rattle.meta_gen.specs.WellFormedOpcodes.{IsWellFormedOpcodes, HaveParts};

use super::constraint::{Constraint, Demand, NO_TYPE_SET, OpcodeConstraints};
use super::opcode_tables::OpcodeTables;
use meta_build::{MAX_OPCODES, MAX_TYPE_SETS};
use meta_types::{Text, ValueType, are_distinct, are_names, each_type_is_one_value};
use meta_typevar::Masks;
use std::alloc::{AllocError, Global};

/// The most operand constraints that tables can have.
pub const MAX_CONSTRAINTS: usize = 65_535;

/// The lane counts of all types: those of scalars and fixed vectors, and those of dynamic vectors.
const ALL_LANES: u16 = 511;

const ALL_DYNAMIC_LANES: u16 = 510;

fn are_named(names: &[Text], opcodes: usize) -> bool
    ensures { IsTrue result ↔ ((length names.now ≡ opcodes) × All IsName names.now) }
{
    names.len() == opcodes && are_names(names)
}

fn holds_lanes(mask: u16) -> bool
    ensures { IsTrue result ↔ IsMaskOf (lane_counts false) mask }
{
    mask <= ALL_LANES
}

/// Whether a mask holds lane counts of dynamic vectors alone. They have at least two lanes.
fn holds_dynamic_lanes(mask: u16) -> bool
    ensures { IsTrue result ↔ IsMaskOf (lane_counts true) mask }
{
    if mask > ALL_DYNAMIC_LANES {
        return false;
    }
    mask % 2 == 0
}

fn holds_ints(mask: u8) -> bool
    ensures { IsTrue result ↔ IsMaskOf (widths IntKind) mask }
{
    mask % 8 == 0
}

fn holds_floats(mask: u8) -> bool
    ensures { IsTrue result ↔ IsMaskOf (widths FloatKind) mask }
{
    mask % 16 == 0
}

fn hold_types_alone(masks: Masks) -> bool
    ensures { IsTrue result ↔ AreMasks masks }
{
    holds_lanes(masks.lanes)
        && holds_dynamic_lanes(masks.dynamic_lanes)
        && holds_ints(masks.ints)
        && holds_floats(masks.floats)
}

fn are_masks(type_sets: &[Masks]) -> bool
    ensures { IsTrue result ↔ All AreMasks type_sets.now }
{
    type_sets.iter().all(|masks| hold_types_alone(*masks))
}

fn is_type_number(number: u16) -> bool
    ensures { IsTrue result ↔ IsTypeNumber number }
{
    each_type_is_one_value();
    ValueType::from_number(number).is_some()
}

/// Whether the type or type set that an operand constraint names, if any, exists.
fn is_constraint(sets: usize, constraint: Constraint) -> bool
    ensures { IsTrue result ↔ IsWellFormedConstraint sets (number_constraint_of constraint) }
{
    match constraint.demanded() {
        Demand::Number(number) => is_type_number(number),
        Demand::OfSet(set) => (set as usize) < sets,
        Demand::Controlling(_) => true,
        Demand::By(_, _) => true,
    }
}

fn are_constraints(sets: usize, constraints: &[Constraint]) -> bool
    ensures { IsTrue result ↔ All (λ x. IsWellFormedConstraint sets (number_constraint_of x)) constraints.now }
{
    constraints
        .iter()
        .all(|constraint| is_constraint(sets, *constraint))
}

/// Whether the offset of a control is the place of one of `sets` type sets, or says that there is no such control.
fn is_set_offset(sets: usize, offset: u16) -> bool
    ensures { IsTrue result ↔ IsSetOffset sets offset }
{
    (offset as usize) < sets || offset == NO_TYPE_SET
}

fn is_designated_rightly(entry: OpcodeConstraints) -> bool
    ensures { IsTrue result ↔ (SaysDesignated entry.flags → entry.typeset_offset ≢ no_type_set) }
{
    !entry.designated_controls() || entry.typeset_offset != NO_TYPE_SET
}

fn differs_rightly(entry: OpcodeConstraints) -> bool
    ensures { IsTrue result ↔ (SaysDiffers entry.flags → SaysDesignated entry.flags) }
{
    !entry.first_result_differs() || entry.designated_controls()
}

fn is_entry(sets: usize, constraints: usize, entry: OpcodeConstraints) -> bool
    ensures { IsTrue result ↔ IsWellFormedEntry sets constraints (entry_of entry) }
{
    let after = entry.constraint_offset as usize + (entry.result_count() + entry.value_count());
    is_set_offset(sets, entry.typeset_offset)
        && is_set_offset(sets, entry.second_offset)
        && (entry.typeset_offset != NO_TYPE_SET || entry.second_offset == NO_TYPE_SET)
        && is_designated_rightly(entry)
        && differs_rightly(entry)
        && after <= constraints
}

fn are_entries(sets: usize, constraints: usize, entries: &[OpcodeConstraints]) -> bool
    ensures { IsTrue result ↔ All (λ e. IsWellFormedEntry sets constraints (entry_of e)) entries.now }
{
    entries
        .iter()
        .all(|entry| is_entry(sets, constraints, *entry))
}

fn are_few(opcodes: usize, type_sets: usize, operand_constraints: usize) -> bool
    ensures { IsTrue result ↔ ((opcodes ≤ 4095) × (type_sets ≤ 4095) × (operand_constraints ≤ 65535)) }
{
    opcodes <= MAX_OPCODES && type_sets <= MAX_TYPE_SETS && operand_constraints <= MAX_CONSTRAINTS
}

fn are_well_formed(
    alloc: Global,
    names: &[Text],
    formats: &[Text],
    type_sets: &[Masks],
    operand_constraints: &[Constraint],
    constraints: &[OpcodeConstraints],
) -> Result<bool, AllocError>
    ensures { IfOk result (λ b. IsTrue b ↔ AreWellFormedParts names.now formats.now type_sets.now
        (map number_constraint_of operand_constraints.now) (map entry_of constraints.now)) }
{
    if !are_few(
        constraints.len(),
        type_sets.len(),
        operand_constraints.len(),
    ) {
        return Ok(false);
    }
    if !are_named(names, constraints.len()) {
        return Ok(false);
    }
    if !are_named(formats, constraints.len()) {
        return Ok(false);
    }
    if !are_masks(type_sets) {
        return Ok(false);
    }
    if !are_constraints(type_sets.len(), operand_constraints) {
        return Ok(false);
    }
    if !are_entries(type_sets.len(), operand_constraints.len(), constraints) {
        return Ok(false);
    }
    are_distinct(alloc, names)
}

/// Makes the tables that have these parts, and the slots of the names. Names, names of formats and constraints stand in the order of
/// opcodes. It answers `None` exactly if no well-formed tables have these parts. The cost is the length of the parts, and for each name the
/// logarithm of their count.
pub fn opcodes_from_parts(
    alloc: Global,
    names: Vec<Text>,
    formats: Vec<Text>,
    type_sets: Vec<Masks>,
    operand_constraints: Vec<Constraint>,
    constraints: Vec<OpcodeConstraints>,
) -> Result<Option<OpcodeTables>, AllocError>
    ensures some { IfOk result (λ o. IfSome o (λ t. HaveParts t names.items formats.items type_sets.items
        operand_constraints.items constraints.items)) }
    ensures well_formed { IfOk result (λ o. IfSome o IsWellFormedOpcodes) }
    ensures none { IfOk result (λ o. IfNone o ((t : TableContents) → IsWellFormedOpcodes t
        → ¬ HaveParts t names.items formats.items type_sets.items operand_constraints.items constraints.items)) }
{
    if !are_well_formed(
        alloc,
        &names,
        &formats,
        &type_sets,
        &operand_constraints,
        &constraints,
    )? {
        return Ok(None);
    }
    let tables = OpcodeTables::new(
        alloc,
        names,
        formats,
        type_sets,
        operand_constraints,
        constraints,
    )?;
    Ok(Some(tables))
}
