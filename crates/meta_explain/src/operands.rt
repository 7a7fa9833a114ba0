ghost use Rattle.std.specs.Prelude.{◌≡◌, ◌↔◌, All, IsTrue, IfOk, OnOk};
ghost use Rattle.meta_types.specs.TypeNumber.{IsTypeNumber};
ghost use Rattle.meta_gen.specs.WellFormedOpcodes.{IsWellFormedOpcodes};
ghost use Rattle.meta_explain.specs.Listed.{AreListed, IsLess};
ghost use Rattle.meta_explain.specs.Found.{Finds, IsBefore};
ghost use Rattle.meta_explain.specs.Search.{Adds};
ghost use Rattle.meta_explain.specs.Operands.{AcceptsSome, MayBe};

use super::control_types::ControlTypes;
use super::found::Found;
use super::searching::{Search, all_can_pass};
use super::types::types_at;
use meta_gen::OpcodeTables;
use std::alloc::{AllocError, Global};

/// Adds the opcode with all controls under which it accepts what is asked for.
fn push_opcode(
    tables: &OpcodeTables,
    opcode: u16,
    results: &[Option<u16>],
    values: &[Option<u16>],
    found: &mut Vec<Found>,
) -> Result<(), AllocError>
    requires { IsWellFormedOpcodes tables.now }
    ensures { OnOk result (Adds (λ x. (x.opcode ≡ opcode) × Finds tables.now results.now values.now x) found.old.items found.new.items) }
{
    let Some(entry) = tables.constraints(opcode) else {
        return Ok(());
    };
    if results.len() != entry.result_count() {
        return Ok(());
    }
    if values.len() != entry.value_count() {
        return Ok(());
    }
    let search = Search {
        tables,
        opcode,
        entry,
        results,
        values,
    };
    search.push_all(found)
}

/// The opcodes and controlling types that accept these types of results and values, which are given by their numbers; `None` stands for any
/// type. They come in the order of the opcodes, and of each opcode in the order of the controlling type and then of the second one: none
/// before any type.
///
/// If what is asked for tells the controlling types, since some operand has to be that type, the cost is a few tests for each opcode. A
/// controlling type that isn't told is tried with each number that a type can have.
pub fn find(
    alloc: Global,
    tables: &OpcodeTables,
    results: &[Option<u16>],
    values: &[Option<u16>],
) -> Result<Vec<Found>, AllocError>
    ensures { IfOk result (λ v. AreListed IsBefore (Finds tables.now results.now values.now) v.items) }
{
    let mut found = Vec::new(alloc);
    for before in 0..tables.opcode_count() {
        push_opcode(tables, before + 1, results, values, &mut found)?;
    }
    Ok(found)
}

/// The controlling types under which the opcode accepts anything, in the order of the controlling type and then of the second one: none
/// before any type. There are none if `opcode` isn't an opcode.
pub fn accepting(
    alloc: Global,
    tables: &OpcodeTables,
    opcode: u16,
) -> Result<Vec<Found>, AllocError>
    ensures { IfOk result (λ v. AreListed IsBefore (λ x. (x.opcode ≡ opcode) × AcceptsSome tables.now opcode x.controls) v.items) }
{
    let mut found = Vec::new(alloc);
    let _count = tables.opcode_count();
    let Some(entry) = tables.constraints(opcode) else {
        return Ok(found);
    };
    let any = [None; 7];
    let results = &any[..entry.result_count()];
    let values = &any[..entry.value_count()];
    push_opcode(tables, opcode, results, values, &mut found)?;
    Ok(found)
}

/// Whether the opcode accepts anything under these controlling types. The answer is false if `opcode` isn't an opcode.
pub fn accepts_some(tables: &OpcodeTables, opcode: u16, controls: ControlTypes) -> bool
    ensures { IsTrue result ↔ AcceptsSome tables.now opcode controls }
{
    let _count = tables.opcode_count();
    let Some(entry) = tables.constraints(opcode) else {
        return false;
    };
    if !tables.control_fits(entry.typeset_offset, controls.ctrl) {
        return false;
    }
    if !tables.control_fits(entry.second_offset, controls.second) {
        return false;
    }
    let any = [None; 7];
    let offset = entry.constraint_offset as usize;
    let results = &any[..entry.result_count()];
    if !all_can_pass(tables, controls, offset, results) {
        return false;
    }
    let values = &any[..entry.value_count()];
    all_can_pass(tables, controls, offset + results.len(), values)
}

/// The types that an operand of the opcode may have under these controlling types, by their numbers in rising order: those that stand at
/// its place in something that is accepted. The place counts the results in order, and then the values. There are none if there is no such
/// operand, nothing is accepted, or `opcode` isn't an opcode.
pub fn operand_types(
    alloc: Global,
    tables: &OpcodeTables,
    opcode: u16,
    controls: ControlTypes,
    operand: usize,
) -> Result<Vec<u16>, AllocError>
    ensures listed { IfOk result (λ v. AreListed IsLess (MayBe tables.now opcode controls operand) v.items) }
    ensures types { IfOk result (λ v. All IsTypeNumber v.items) }
{
    if !accepts_some(tables, opcode, controls) {
        return Ok(Vec::new(alloc));
    }
    let _count = tables.opcode_count();
    let Some(entry) = tables.constraints(opcode) else {
        return Ok(Vec::new(alloc));
    };
    if operand >= entry.result_count() + entry.value_count() {
        return Ok(Vec::new(alloc));
    }
    let place = entry.constraint_offset as usize + operand;
    types_at(alloc, tables, controls, place)
}
