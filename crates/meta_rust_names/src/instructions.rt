ghost use Rattle.std.specs.Prelude.{◌≡◌, ◌<◌, ◌+◌, ◌^◌, ◌++◌, ℕ, Some, OnOk, IfOk, length, slice_get};
ghost use Rattle.std.specs.List.{flat_map, enumerate_from};
ghost use Rattle.meta_operands.specs.Operand.{variable_of, variables_of};
ghost use Rattle.meta_inst.specs.Operands.{AreOf};
ghost use Rattle.meta_rust_text.specs.BuilderText.{HasVariablesOf, HaveVariablesOf};
ghost use Rattle.meta_rust_names.specs.Known.{known};
ghost use Rattle.meta_rust_names.specs.Methods.{method_name};
ghost use Rattle.meta_rust_names.specs.Instructions.{own_name_why, output_refused, outputs_refused, hidden_why, control_why};
ghost use Rattle.meta_rust_names.specs.Instructions.{control_refused, operands_refused, with_format, instruction_refused};

use super::comments::{comment_why, doc_why};
use super::inputs::push_inputs;
use super::methods::is_base_method;
use super::names::{Names, is_named};
use super::refused::{Part, RefusedName, Why, or_why, push_refused};
use super::words::{is_keyword, word_why};
use meta_inst::InstructionContent;
use meta_operands::{FormatTable, InstructionFormat, Operand};
use meta_rust_text::{asked_control, variable_doc, variable_name};
use meta_types::Place;
use meta_typevar::{TypeVar, TypeVars};
use std::alloc::{AllocError, Global};

/// Why an instruction of this camel case and of this method can't have its name, where these are the names of the formats and of the
/// immediate methods.
#[tactic(auto, unfolding(crate::specs::Instructions::own_name_why))]
fn own_name_why(
    formats: &Names,
    imm_methods: &Names,
    instruction: &InstructionContent,
) -> Option<Why>
    ensures { result ≡ own_name_why (known formats.now) (known imm_methods.now) instruction.now.camel_name (method_name instruction.now) }
{
    let method = instruction.snake_name();
    if is_keyword(method.as_bytes()) {
        return Some(Why::Keyword);
    }
    if instruction.camel_name().as_bytes() == b"Self".as_slice() {
        return Some(Why::SelfType);
    }
    if is_base_method(method.as_bytes()) {
        return Some(Why::FixedMethod);
    }
    if formats.has(method) {
        return Some(Why::FormatName);
    }
    if imm_methods.has(method) {
        return Some(Why::ImmMethod);
    }
    None
}

#[tactic(auto, unfolding(crate::specs::Instructions::output_refused))]
fn push_output(
    out: &mut Vec<RefusedName>,
    vars: &TypeVars,
    place: Place,
    number: usize,
    output: &Operand,
) -> Result<(), AllocError>
    requires { (tv : ℕ) → variable_of output.now ≡ Some tv → tv < length vars.now }
    ensures { OnOk result (out.new.items ≡ out.old.items ++ output_refused vars.now place (number, output.now)) }
{
    let number = number as u64;
    push_refused(
        out,
        place,
        Part::Output(number),
        comment_why(output.name.as_str()),
    )?;
    push_refused(
        out,
        place,
        Part::OutputDoc(number),
        doc_why(output.doc(vars)),
    )
}

fn push_outputs(
    out: &mut Vec<RefusedName>,
    vars: &TypeVars,
    outputs: &[Operand],
    place: Place,
) -> Result<(), AllocError>
    requires { AreOf vars.now (variables_of outputs.now) }
    ensures { OnOk result (out.new.items ≡ out.old.items ++ outputs_refused vars.now place outputs.now) }
{
    for number in 0..outputs.len() {
        push_output(out, vars, place, number, &outputs[number])?;
    }
    Ok(())
}

/// Whether something beside the variable that controls has this name, and what, where these are the names of the inputs.
#[tactic(auto, unfolding(crate::specs::Instructions::hidden_why))]
fn hidden_why(
    alloc: Global,
    format: &InstructionFormat,
    names: &Names,
    name: &str,
) -> Result<Option<Why>, AllocError>
    ensures { IfOk result (λ why. why ≡ hidden_why format.now (known names.now) name.now) }
{
    if format.has_value_list && is_named(b"vlist", name.as_bytes()) {
        return Ok(Some(Why::ListLocal));
    }
    if names.meets(alloc, name)? {
        return Ok(Some(Why::OfInput));
    }
    Ok(None)
}

/// Why the variable that controls can't have this name, or can't be an argument, where these are the names of the inputs.
#[tactic(auto, unfolding(crate::specs::Instructions::control_why))]
fn control_why(
    alloc: Global,
    instruction: &InstructionContent,
    format: &InstructionFormat,
    names: &Names,
    name: &str,
) -> Result<Option<Why>, AllocError>
    ensures { IfOk result (λ why. why ≡ control_why instruction.now format.now (known names.now) name.now) }
{
    if instruction.inst_builder_imm_method() {
        return Ok(Some(Why::ImmControl));
    }
    let hidden = hidden_why(alloc, format, names, name)?;
    Ok(or_why(word_why(name.as_bytes()), hidden))
}

fn push_control(
    alloc: Global,
    out: &mut Vec<RefusedName>,
    vars: &TypeVars,
    instruction: &InstructionContent,
    format: &InstructionFormat,
    place: Place,
    names: &Names,
    control: Option<TypeVar>,
) -> Result<(), AllocError>
    ensures { OnOk result (out.new.items ≡ out.old.items
        ++ control_refused vars.now instruction.now format.now place (known names.now) control) }
{
    let Some(tv) = control else {
        return Ok(());
    };
    let why = control_why(alloc, instruction, format, names, variable_name(vars, tv))?;
    push_refused(out, place, Part::Control, why)?;
    push_refused(
        out,
        place,
        Part::ControlDoc,
        doc_why(variable_doc(vars, tv)),
    )
}

/// Adds what is refused after the instruction's own name. The variables of its operands must be of the registry.
#[tactic(auto, unfolding(crate::specs::Instructions::operands_refused))]
fn push_operands(
    alloc: Global,
    out: &mut Vec<RefusedName>,
    vars: &TypeVars,
    instruction: &InstructionContent,
    format: &InstructionFormat,
    place: Place,
) -> Result<(), AllocError>
    requires { HasVariablesOf vars.now instruction.now }
    ensures { OnOk result (out.new.items ≡ out.old.items ++ operands_refused vars.now instruction.now format.now place) }
{
    let inputs = instruction.operands_in();
    let names = push_inputs(alloc, out, vars, instruction, format, inputs, place)?;
    push_outputs(out, vars, instruction.operands_out(), place)?;
    push_refused(out, place, Part::Doc, doc_why(instruction.doc().as_str()))?;
    let control = asked_control(instruction.polymorphic_info());
    push_control(
        alloc,
        out,
        vars,
        instruction,
        format,
        place,
        &names,
        control,
    )
}

/// Adds the same, where its format is of the table.
fn push_with_format(
    alloc: Global,
    out: &mut Vec<RefusedName>,
    vars: &TypeVars,
    formats: &FormatTable,
    instruction: &InstructionContent,
    place: Place,
) -> Result<(), AllocError>
    requires { HasVariablesOf vars.now instruction.now }
    ensures { OnOk result (out.new.items ≡ out.old.items
        ++ with_format vars.now instruction.now place (slice_get formats.now instruction.now.format)) }
{
    let format = instruction.format();
    if !formats.is_of(format) {
        return Ok(());
    }
    push_operands(alloc, out, vars, instruction, formats.get(format), place)
}

/// The names of the methods that instructions can't have.
#[derive(Drop)]
pub(crate) struct Others {
    pub(crate) formats: Names,
    pub(crate) imm_methods: Names,
}

#[tactic(auto, unfolding(crate::specs::Instructions::instruction_refused))]
fn push_instruction(
    alloc: Global,
    out: &mut Vec<RefusedName>,
    others: &Others,
    vars: &TypeVars,
    formats: &FormatTable,
    number: usize,
    instruction: &InstructionContent,
) -> Result<(), AllocError>
    requires few { number + 1 < 2 ^ 64 }
    requires variables { HasVariablesOf vars.now instruction.now }
    ensures { OnOk result (out.new.items ≡ out.old.items ++ instruction_refused (known others.now.formats) (known others.now.imm_methods)
        vars.now formats.now (number, instruction.now)) }
{
    let place = Place::Instruction(number as u64 + 1);
    let why = own_name_why(&others.formats, &others.imm_methods, instruction);
    push_refused(out, place, Part::Name, why)?;
    push_with_format(alloc, out, vars, formats, instruction, place)
}

pub(crate) fn push_instructions(
    alloc: Global,
    out: &mut Vec<RefusedName>,
    others: &Others,
    vars: &TypeVars,
    formats: &FormatTable,
    instructions: &[InstructionContent],
) -> Result<(), AllocError>
    requires { HaveVariablesOf vars.now instructions.now }
    ensures { OnOk result (out.new.items ≡ out.old.items ++ flat_map (instruction_refused (known others.now.formats)
        (known others.now.imm_methods) vars.now formats.now) (enumerate_from 0 instructions.now)) }
{
    for number in 0..instructions.len() {
        let instruction = &instructions[number];
        push_instruction(alloc, out, others, vars, formats, number, instruction)?;
    }
    Ok(())
}
