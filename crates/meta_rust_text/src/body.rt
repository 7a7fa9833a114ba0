ghost use Rattle.std.specs.Prelude.{◌≡◌, ◌++◌, IfOk, OnOk, string_bytes};
ghost use Rattle.std.specs.List.{flat_map};
ghost use Rattle.meta_rust_text.specs.MethodBody.{conversion_of, mem_flags_of, block_call_of, prepared_text, designated_name};
ghost use Rattle.meta_rust_text.specs.MethodBody.{designated_place, control_text, added_text, value_list_of, body_text};

use super::constructor_call::push_call;
use super::names::operand_name;
use super::operands::{is_converted, is_mem_flags};
use super::results::push_results;
use meta_inst::{InstructionContent, PolymorphicInfo};
use meta_operands::{InstructionFormat, Operand};
use meta_text::fill;
use meta_typevar::TypeVars;
use std::alloc::{AllocError, Global};

const MEM_FLAGS: &str =
    "        let $name$ = self.data_flow_graph_mut().mem_flags.insert($name$).unwrap();\n";

const BLOCK_CALL: &str =
    "        let $name$ = self.data_flow_graph_mut().block_call($name$_label, $name$_args);\n";

const ONE_VALUE: &str = "            vlist.push($name$, pool);\n";

const MORE_VALUES: &str = "            vlist.extend($name$.iter().cloned(), pool);\n";

const NAME_HOLES: [&str; 1] = ["name"];

const VALUE_LIST: &str = "        let mut vlist = ir::ValueList::default();
        {
            let pool = &mut self.data_flow_graph_mut().value_lists;
$added$        }
";

const VALUE_LIST_HOLES: [&str; 1] = ["added"];

#[tactic(auto, unfolding(crate::specs::MethodBody::conversion_of))]
fn push_conversion(out: &mut String, operand: &Operand) -> Result<(), AllocError>
    ensures { OnOk result (string_bytes out.new ≡ string_bytes out.old ++ conversion_of operand.now) }
{
    if !is_converted(operand) {
        return Ok(());
    }
    let name = operand.name.as_str();
    write!(out, "        let {name} = {name}.into();\n")
}

#[tactic(auto, using(crate::proofs::Templates::mem_flags_same), unfolding(crate::specs::MethodBody::mem_flags_of))]
fn push_mem_flags(out: &mut String, operand: &Operand) -> Result<(), AllocError>
    ensures { OnOk result (string_bytes out.new ≡ string_bytes out.old ++ mem_flags_of operand.now) }
{
    if is_mem_flags(operand) && operand.is_immediate() {
        return fill(out, MEM_FLAGS, &NAME_HOLES, &[operand.name.as_str()]);
    }
    Ok(())
}

#[tactic(auto, using(crate::proofs::Templates::block_call_same), unfolding(crate::specs::MethodBody::block_call_of))]
fn push_block_call(out: &mut String, operand: &Operand) -> Result<(), AllocError>
    ensures { OnOk result (string_bytes out.new ≡ string_bytes out.old ++ block_call_of operand.now) }
{
    if !operand.kind.is_block() {
        return Ok(());
    }
    fill(out, BLOCK_CALL, &NAME_HOLES, &[operand.name.as_str()])
}

/// Adds the lines that make of the arguments what the call takes.
#[tactic(auto, unfolding(crate::specs::MethodBody::prepared_text))]
fn push_prepared(out: &mut String, inputs: &[Operand]) -> Result<(), AllocError>
    ensures { OnOk result (string_bytes out.new ≡ string_bytes out.old ++ prepared_text inputs.now) }
{
    for input in inputs {
        push_conversion(out, input)?;
    }
    for flags in inputs {
        push_mem_flags(out, flags)?;
    }
    for block in inputs {
        push_block_call(out, block)?;
    }
    Ok(())
}

fn designated_place(instruction: &InstructionContent, format: &InstructionFormat) -> Option<usize>
    ensures { result ≡ designated_place instruction.now format.now }
{
    let place = format.typevar_operand?;
    instruction.value_opnums().get(place).copied()
}

/// The name of the operand that the format designates. It is empty if the format designates none.
fn designated_name<'a>(instruction: &'a InstructionContent, format: &InstructionFormat) -> &'a str
    ensures { result.now ≡ designated_name instruction.now (designated_place instruction.now format.now) }
{
    match designated_place(instruction, format) {
        Some(place) => operand_name(instruction.operands_in(), place),
        None => "",
    }
}

/// Adds the line that takes the control from the designated operand, which has this name, if its type is the control.
#[tactic(auto, unfolding(crate::specs::MethodBody::control_text))]
fn push_control(
    out: &mut String,
    info: Option<PolymorphicInfo>,
    name: &str,
) -> Result<(), AllocError>
    ensures { OnOk result (string_bytes out.new ≡ string_bytes out.old ++ control_text info name.now) }
{
    let Some(info) = info else {
        return Ok(());
    };
    if !info.use_typevar_operand {
        return Ok(());
    }
    write!(
        out,
        "        let ctrl_typevar = self.data_flow_graph().value_type({name});\n"
    )
}

#[tactic(auto, using(crate::proofs::Templates::added_steps), unfolding(crate::specs::MethodBody::added_text))]
fn push_added(out: &mut String, operand: &Operand) -> Result<(), AllocError>
    ensures { OnOk result (string_bytes out.new ≡ string_bytes out.old ++ added_text operand.now) }
{
    if operand.is_value() {
        return fill(out, ONE_VALUE, &NAME_HOLES, &[operand.name.as_str()]);
    }
    if operand.is_varargs() {
        return fill(out, MORE_VALUES, &NAME_HOLES, &[operand.name.as_str()]);
    }
    Ok(())
}

fn each_added(alloc: Global, operands: &[Operand]) -> Result<String, AllocError>
    ensures { IfOk result (λ text. string_bytes text ≡ flat_map added_text operands.now) }
{
    let mut text = String::new(alloc);
    for operand in operands {
        push_added(&mut text, operand)?;
    }
    Ok(text)
}

#[tactic(auto, using(crate::proofs::Templates::value_list_same))]
fn push_list(
    alloc: Global,
    out: &mut String,
    inputs: &[Operand],
    format: &InstructionFormat,
) -> Result<(), AllocError>
    ensures { OnOk result (string_bytes out.new ≡ string_bytes out.old ++ value_list_of format.now.has_value_list inputs.now) }
{
    if !format.has_value_list {
        return Ok(());
    }
    let added = each_added(alloc, inputs)?;
    fill(out, VALUE_LIST, &VALUE_LIST_HOLES, &[added.as_str()])
}

#[tactic(auto, unfolding(crate::specs::MethodBody::body_text))]
pub(crate) fn body(
    alloc: Global,
    vars: &TypeVars,
    instruction: &InstructionContent,
    format: &InstructionFormat,
) -> Result<String, AllocError>
    ensures { IfOk result (λ text. string_bytes text ≡ body_text vars.now instruction.now format.now) }
{
    let inputs = instruction.operands_in();
    let mut out = String::new(alloc);
    push_prepared(&mut out, inputs)?;
    let designated = designated_name(instruction, format);
    push_control(&mut out, instruction.polymorphic_info(), designated)?;
    push_list(alloc, &mut out, inputs, format)?;
    push_call(alloc, &mut out, vars, instruction, format)?;
    push_results(alloc, &mut out, instruction.value_results().len())?;
    Ok(out)
}
