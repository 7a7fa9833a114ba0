ghost use Rattle.std.specs.Prelude.{◌≡◌, ◌++◌, ◌+◌, ◌≤◌, ◌<◌, ◌^◌, ℕ, List, Some, OnOk, length, slice_get, string_bytes};
ghost use Rattle.std.specs.Option.{option_map};
ghost use Rattle.meta_inst.specs.Tables.{NumberConstraint};
ghost use Rattle.meta_gen.specs.Constraint.{entry_of};
ghost use Rattle.meta_gen.specs.Contents.{IsOpcode};
ghost use Rattle.meta_explain.specs.Operands.{AcceptsSome};
ghost use Rattle.meta_explain.specs.Options.{AreTypeOptions};
ghost use Rattle.meta_explain.specs.Texts.{demand_text};
ghost use Rattle.meta_query_lines.specs.Explanation.{IsListOf, IsOperandTold, AreOperandsTold, control_set, second_set, AreTypesTold};
ghost use Rattle.meta_query_lines.specs.Explanation.{AreTypesUnder, AreTypesBy, AreTypesOf};

use super::listed::{push_comma, push_dash, push_text};
use meta_explain::{
    ControlTypes, accepted_controls, accepts_some, operand_types, push_alternatives, push_demand,
    push_set,
};
use meta_gen::{OpcodeConstraints, OpcodeTables, Reply};
use std::alloc::{AllocError, Global};

/// Adds what the operand constraint at the place demands.
fn push_demand_at(out: &mut String, tables: &OpcodeTables, place: usize) -> Result<(), AllocError>
    requires { place < length tables.now.operand_constraints }
    ensures { OnOk result ((x : NumberConstraint) × (slice_get tables.now.operand_constraints place ≡ Some x)
        × (string_bytes out.new ≡ string_bytes out.old ++ demand_text tables.now.type_sets x)) }
{
    let constraint = tables.operand_constraints()[place];
    push_demand(out, tables, constraint.demanded())
}

/// Adds how the `k`-th operand goes by the controls, or, under controls, what it may be.
fn push_operand(
    alloc: Global,
    out: &mut String,
    tables: &OpcodeTables,
    opcode: u16,
    entry: OpcodeConstraints,
    controls: Option<ControlTypes>,
    k: usize,
) -> Result<(), AllocError>
    requires few { k < 2 ^ 16 }
    requires within { entry.constraint_offset + k < length tables.now.operand_constraints }
    ensures { OnOk result ((word : List ℕ) × IsOperandTold tables.now opcode (entry_of entry) controls k word
        × (string_bytes out.new ≡ string_bytes out.old ++ word)) }
{
    let Some(controls) = controls else {
        return push_demand_at(out, tables, entry.constraint_offset as usize + k);
    };
    let types = operand_types(alloc, tables, opcode, controls, k)?;
    push_alternatives(out, &types)
}

/// Adds a list of this of `count` operands from the place `from` on.
fn push_operands(
    alloc: Global,
    out: &mut String,
    tables: &OpcodeTables,
    opcode: u16,
    entry: OpcodeConstraints,
    controls: Option<ControlTypes>,
    from: usize,
    count: usize,
) -> Result<(), AllocError>
    requires few { from + count < 2 ^ 16 }
    requires within { entry.constraint_offset + (from + count) ≤ length tables.now.operand_constraints }
    ensures { OnOk result ((text : List ℕ)
        × IsListOf (λ k word. IsOperandTold tables.now opcode (entry_of entry) controls (from + k) word) count text
        × (string_bytes out.new ≡ string_bytes out.old ++ text)) }
{
    for k in 0..count {
        push_comma(out, k)?;
        push_operand(alloc, out, tables, opcode, entry, controls, from + k)?;
    }
    push_dash(out, count)
}

/// Adds this of all results and values of an opcode.
fn push_all_operands(
    alloc: Global,
    out: &mut String,
    tables: &OpcodeTables,
    opcode: u16,
    controls: Option<ControlTypes>,
) -> Result<(), AllocError>
    requires { IsOpcode tables.now opcode }
    ensures { OnOk result ((text : List ℕ) × AreOperandsTold tables.now opcode controls text
        × (string_bytes out.new ≡ string_bytes out.old ++ text)) }
{
    let _count = tables.opcode_count();
    let Some(entry) = tables.constraints(opcode) else {
        return Ok(());
    };
    let (results, values) = (entry.result_count(), entry.value_count());
    out.push_str("results ")?;
    push_operands(alloc, out, tables, opcode, entry, controls, 0, results)?;
    out.push_str(" values ")?;
    push_operands(alloc, out, tables, opcode, entry, controls, results, values)
}

fn push_control_set(out: &mut String, numbers: &Option<Vec<u16>>) -> Result<(), AllocError>
    requires { AreTypeOptions numbers.now }
    ensures { OnOk result (string_bytes out.new ≡ string_bytes out.old ++ control_set numbers.now) }
{
    match numbers {
        Some(numbers) => push_set(out, numbers),
        None => out.push_str("-"),
    }
}

fn push_second_set(out: &mut String, numbers: &Option<Vec<u16>>) -> Result<(), AllocError>
    requires { AreTypeOptions numbers.now }
    ensures { OnOk result (string_bytes out.new ≡ string_bytes out.old ++ second_set numbers.now) }
{
    let Some(numbers) = numbers else {
        return Ok(());
    };
    out.push_str(" second ")?;
    push_set(out, numbers)
}

/// Adds the controls under which the opcode accepts something, and how its operands go by them.
fn push_shapes(
    alloc: Global,
    out: &mut String,
    tables: &OpcodeTables,
    opcode: u16,
) -> Result<(), AllocError>
    requires { IsOpcode tables.now opcode }
    ensures { OnOk result ((text : List ℕ) × AreTypesTold tables.now opcode text
        × (string_bytes out.new ≡ string_bytes out.old ++ text)) }
{
    let options = accepted_controls(alloc, tables, opcode)?;
    let Some(options) = options else {
        return push_text(out, &Reply::Refuse);
    };
    out.push_str("control ")?;
    push_control_set(out, &options.first)?;
    push_second_set(out, &options.second)?;
    out.push_str(" ")?;
    push_all_operands(alloc, out, tables, opcode, None)
}

/// Adds what each operand of the opcode may be under these controls.
fn push_types_under(
    alloc: Global,
    out: &mut String,
    tables: &OpcodeTables,
    opcode: u16,
    controls: ControlTypes,
) -> Result<(), AllocError>
    requires { IsOpcode tables.now opcode }
    ensures { OnOk result ((text : List ℕ) × AreTypesUnder tables.now opcode controls text
        × (string_bytes out.new ≡ string_bytes out.old ++ text)) }
{
    if !accepts_some(tables, opcode, controls) {
        return push_text(out, &Reply::Refuse);
    }
    push_all_operands(alloc, out, tables, opcode, Some(controls))
}

/// Adds how the operands of the instruction of this name go by its controls, or, under controls, what they may be.
pub(crate) fn push_types(
    alloc: Global,
    out: &mut String,
    tables: &OpcodeTables,
    name: &[u8],
    controls: Option<ControlTypes>,
) -> Result<(), AllocError>
    ensures { OnOk result ((text : List ℕ) × AreTypesOf tables.now name.now controls text
        × (string_bytes out.new ≡ string_bytes out.old ++ text)) }
{
    let _count = tables.opcode_count();
    let Some(opcode) = tables.find_opcode(name) else {
        return push_text(out, &Reply::Unknown);
    };
    match controls {
        Some(controls) => push_types_under(alloc, out, tables, opcode, controls),
        None => push_shapes(alloc, out, tables, opcode),
    }
}
