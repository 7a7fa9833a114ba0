ghost use Rattle.std.specs.Prelude.{◌≡◌, ◌+◌, ◌++◌, List, [], IfOk, OnOk, string_bytes};
ghost use Rattle.meta_operands.specs.declared.operand.Operand.{Operand};
ghost use Rattle.meta_rust_text.specs.MethodArguments.{each_with_before, parameter_count, operand_arguments, control_argument};
ghost use Rattle.meta_rust_text.specs.MethodArguments.{self_argument, arguments_text};

use super::arguments::push_argument;
use super::numbering::Numbering;
use super::operands::{asked_control, has_block, has_mem_flags, is_converted, variable_name};
use super::type_parameters::parameter_name;
use meta_inst::InstructionContent;
use meta_operands::{InstructionFormat, Operand};
use meta_text::{fill, push_text};
use meta_typevar::{TypeVar, TypeVars};
use std::alloc::{AllocError, Global};

/// The arguments for a block: the block, and what is passed to it.
const BLOCK: &str =
    ", $name$_label: ir::Block, $name$_args: impl IntoIterator<Item = &'a BlockArg>";

const BLOCK_HOLES: [&str; 1] = ["name"];

/// Adds the arguments for an operand. If it is converted, this is the number of its type parameter.
#[tactic(auto, using(crate::proofs::Templates::block_arguments_same), unfolding(crate::specs::MethodArguments::operand_arguments))]
fn push_operand(
    alloc: Global,
    out: &mut String,
    number: usize,
    operand: &Operand,
) -> Result<(), AllocError>
    ensures { (before : List Operand) → number ≡ parameter_count before + 1
        → OnOk result (string_bytes out.new ≡ string_bytes out.old ++ operand_arguments before operand.now) }
{
    if operand.kind.is_block() {
        return fill(out, BLOCK, &BLOCK_HOLES, &[operand.name.as_str()]);
    }
    if operand.kind.is_raw_block() {
        return push_text(out, ", block: ir::Block");
    }
    if is_converted(operand) {
        let parameter = parameter_name(alloc, number)?;
        return push_argument(out, operand.name.as_str(), parameter.as_str());
    }
    push_argument(out, operand.name.as_str(), operand.kind.rust_type.as_str())
}

fn push_operands(alloc: Global, out: &mut String, operands: &[Operand]) -> Result<(), AllocError>
    ensures { OnOk result (string_bytes out.new ≡ string_bytes out.old ++ each_with_before operand_arguments [] operands.now) }
{
    let mut numbering = Numbering::new();
    for place in 0..operands.len() {
        let operand = &operands[place];
        push_operand(alloc, out, numbering.next_number(), operand)?;
        numbering = numbering.past(operand);
    }
    Ok(())
}

#[tactic(auto, unfolding(crate::specs::MethodArguments::control_argument))]
fn push_control(
    out: &mut String,
    vars: &TypeVars,
    control: Option<TypeVar>,
) -> Result<(), AllocError>
    ensures { OnOk result (string_bytes out.new ≡ string_bytes out.old ++ control_argument vars.now control) }
{
    match control {
        Some(tv) => push_argument(out, variable_name(vars, tv), "crate::ir::Type"),
        None => Ok(()),
    }
}

/// The builder as the first argument: changeable if the method changes it before it adds the instruction.
fn self_argument(inputs: &[Operand], format: &InstructionFormat) -> &'static str
    ensures { result.now ≡ self_argument inputs.now format.now }
{
    if format.has_value_list || (has_block(inputs) || has_mem_flags(inputs)) {
        return "mut self";
    }
    "self"
}

#[tactic(auto, unfolding(crate::specs::MethodArguments::arguments_text))]
pub(crate) fn arguments(
    alloc: Global,
    vars: &TypeVars,
    instruction: &InstructionContent,
    format: &InstructionFormat,
) -> Result<String, AllocError>
    ensures { IfOk result (λ text. string_bytes text ≡ arguments_text vars.now instruction.now format.now) }
{
    let inputs = instruction.operands_in();
    let control = asked_control(instruction.polymorphic_info());
    let mut out = String::from_str(alloc, self_argument(inputs, format))?;
    push_control(&mut out, vars, control)?;
    push_operands(alloc, &mut out, inputs)?;
    Ok(out)
}
