ghost use Rattle.std.specs.Prelude.{◌≡◌, ◌<◌, ◌||◌, ◌++◌, ℕ, List, [], Some, OnOk, IfOk, length, string_bytes};
ghost use Rattle.std.specs.List.{flat_map};
ghost use Rattle.meta_operands.specs.Operand.{variable_of, variables_of};
ghost use Rattle.meta_inst.specs.Operands.{AreOf};
ghost use Rattle.meta_rust_names.specs.Forms.{has_form};
ghost use Rattle.meta_rust_names.specs.Known.{known};
ghost use Rattle.meta_rust_names.specs.Methods.{is_form, meets_some};
ghost use Rattle.meta_rust_names.specs.Inputs.{block_names, names_of_input, block_why, operand_controls, is_listed};
ghost use Rattle.meta_rust_names.specs.Inputs.{is_control_local, is_list_local, is_imm_local, local_why};
ghost use Rattle.meta_rust_names.specs.Inputs.{earlier_why, input_why, is_documented, input_doc_why, input_refused};
ghost use Rattle.meta_rust_names.specs.Inputs.{inputs_refused};

use super::comments::{doc_why, type_why};
use super::names::{Names, is_named};
use super::refused::{Part, RefusedName, Why, or_why, push_refused};
use super::variants::variant_why;
use super::words::word_why;
use meta_inst::{InstructionContent, PolymorphicInfo};
use meta_operands::{InstructionFormat, Operand};
use meta_types::Place;
use meta_typevar::TypeVars;
use std::alloc::{AllocError, Global};

fn after(alloc: Global, name: &str, letters: &str) -> Result<String, AllocError>
    ensures { IfOk result (λ text. string_bytes text ≡ name.now ++ letters.now) }
{
    format!(in alloc; "{name}{letters}")
}

fn meets_block(alloc: Global, names: &Names, name: &str) -> Result<bool, AllocError>
    ensures { IfOk result (λ met. met ≡ meets_some (known names.now) (block_names name.now)) }
{
    if names.meets(alloc, name)? {
        return Ok(true);
    }
    let label = after(alloc, name, "_label")?;
    if names.meets(alloc, label.as_str())? {
        return Ok(true);
    }
    let args = after(alloc, name, "_args")?;
    names.meets(alloc, args.as_str())
}

fn meets_input(alloc: Global, names: &Names, input: &Operand) -> Result<bool, AllocError>
    ensures { IfOk result (λ met. met ≡ meets_some (known names.now) (names_of_input input.now)) }
{
    if input.kind.is_block() {
        return meets_block(alloc, names, input.name.as_str());
    }
    if input.kind.is_raw_block() {
        return names.meets(alloc, "block");
    }
    names.meets(alloc, input.name.as_str())
}

/// Adds the name with these letters after it, as it is and after `r#`.
fn add_forms_after(
    alloc: Global,
    names: &mut Names,
    name: &str,
    letters: &str,
) -> Result<(), AllocError>
    ensures { OnOk result ((text : List ℕ) → known names.new text ≡ (has_form (name.now ++ letters.now) text || known names.old text)) }
{
    let text = after(alloc, name, letters)?;
    names.add_forms(alloc, text.as_str())
}

fn add_block(alloc: Global, names: &mut Names, name: &str) -> Result<(), AllocError>
    ensures { OnOk result ((text : List ℕ) → known names.new text ≡ (is_form (block_names name.now) text || known names.old text)) }
{
    add_forms_after(alloc, names, name, "_args")?;
    add_forms_after(alloc, names, name, "_label")?;
    names.add_forms(alloc, name)
}

fn add_input(alloc: Global, names: &mut Names, input: &Operand) -> Result<(), AllocError>
    ensures { OnOk result ((text : List ℕ) → known names.new text ≡ (is_form (names_of_input input.now) text || known names.old text)) }
{
    if input.kind.is_block() {
        return add_block(alloc, names, input.name.as_str());
    }
    if input.kind.is_raw_block() {
        return names.add_forms(alloc, "block");
    }
    names.add_forms(alloc, input.name.as_str())
}

/// Why a block can't have its name, or can't be an input.
#[tactic(auto, unfolding(crate::specs::Inputs::block_why))]
fn block_why(instruction: &InstructionContent, input: &Operand) -> Option<Why>
    ensures { result ≡ block_why instruction.now input.now }
{
    if input.kind.is_raw_block() && !is_named(b"block", input.name.as_bytes()) {
        return Some(Why::NotBlock);
    }
    if input.kind.is_block() && instruction.inst_builder_imm_method() {
        return Some(Why::ImmBlock);
    }
    None
}

fn operand_controls(info: Option<PolymorphicInfo>) -> bool
    ensures { result ≡ operand_controls info }
{
    match info {
        Some(info) => info.use_typevar_operand,
        None => false,
    }
}

/// Whether the input is put into the list of values.
fn is_listed(input: &Operand) -> bool
    ensures { result ≡ is_listed input.now }
{
    input.is_value() || input.is_varargs()
}

#[tactic(auto, unfolding(crate::specs::Inputs::is_control_local))]
fn is_control_local(instruction: &InstructionContent, name: &[u8]) -> bool
    ensures { result ≡ is_control_local instruction.now name.now }
{
    operand_controls(instruction.polymorphic_info()) && is_named(b"ctrl_typevar", name)
}

/// Whether the input has the name of the list of values, or of the pool beside it where it is put into the list.
#[tactic(auto, unfolding(crate::specs::Inputs::is_list_local))]
fn is_list_local(format: &InstructionFormat, input: &Operand) -> bool
    ensures { result ≡ is_list_local format.now input.now }
{
    let name = input.name.as_bytes();
    format.has_value_list
        && (is_named(b"vlist", name) || (is_listed(input) && is_named(b"pool", name)))
}

#[tactic(auto, unfolding(crate::specs::Inputs::is_imm_local))]
fn is_imm_local(instruction: &InstructionContent, name: &[u8]) -> bool
    ensures { result ≡ is_imm_local instruction.now name.now }
{
    instruction.inst_builder_imm_method() && is_named(b"imm_ty", name)
}

/// Why a variable of the method hides the argument for the input.
#[tactic(auto, unfolding(crate::specs::Inputs::local_why))]
fn local_why(
    instruction: &InstructionContent,
    format: &InstructionFormat,
    input: &Operand,
) -> Option<Why>
    ensures { result ≡ local_why instruction.now format.now input.now }
{
    let name = input.name.as_bytes();
    if is_control_local(instruction, name) {
        return Some(Why::ControlLocal);
    }
    if is_list_local(format, input) {
        return Some(Why::ListLocal);
    }
    if is_imm_local(instruction, name) {
        return Some(Why::ImmLocal);
    }
    None
}

/// Why a name of the input can't stand after those of earlier inputs.
#[tactic(auto, unfolding(crate::specs::Inputs::earlier_why))]
fn earlier_why(alloc: Global, names: &Names, input: &Operand) -> Result<Option<Why>, AllocError>
    ensures { IfOk result (λ why. why ≡ earlier_why (known names.now) input.now) }
{
    if meets_input(alloc, names, input)? {
        return Ok(Some(Why::EarlierInput));
    }
    Ok(None)
}

#[tactic(auto, unfolding(crate::specs::Inputs::input_why))]
fn input_why(
    alloc: Global,
    instruction: &InstructionContent,
    format: &InstructionFormat,
    names: &Names,
    input: &Operand,
) -> Result<Option<Why>, AllocError>
    ensures { IfOk result (λ why. why ≡ input_why instruction.now format.now (known names.now) input.now) }
{
    let earlier = earlier_why(alloc, names, input)?;
    let local = or_why(local_why(instruction, format, input), earlier);
    let variant = or_why(variant_why(&input.kind, input.name.as_bytes()), local);
    let word = or_why(word_why(input.name.as_bytes()), variant);
    Ok(or_why(block_why(instruction, input), word))
}

fn is_documented(instruction: &InstructionContent, input: &Operand) -> bool
    ensures { result ≡ is_documented instruction.now input.now }
{
    instruction.inst_builder_imm_method() || !(input.kind.is_block() || input.kind.is_raw_block())
}

/// Why the input's documentation can't stand in a comment, where it does. The input's variable, if it is a value, is of the registry.
#[tactic(auto, unfolding(crate::specs::Inputs::input_doc_why))]
fn input_doc_why(vars: &TypeVars, instruction: &InstructionContent, input: &Operand) -> Option<Why>
    requires { (tv : ℕ) → variable_of input.now ≡ Some tv → tv < length vars.now }
    ensures { result ≡ input_doc_why vars.now instruction.now input.now }
{
    if is_documented(instruction, input) {
        return doc_why(input.doc(vars));
    }
    None
}

#[tactic(auto, unfolding(crate::specs::Inputs::input_refused))]
fn push_input(
    out: &mut Vec<RefusedName>,
    vars: &TypeVars,
    instruction: &InstructionContent,
    place: Place,
    number: usize,
    input: &Operand,
    why: Option<Why>,
) -> Result<(), AllocError>
    requires { (tv : ℕ) → variable_of input.now ≡ Some tv → tv < length vars.now }
    ensures { OnOk result (out.new.items ≡ out.old.items
        ++ input_refused vars.now instruction.now place why (number, input.now)) }
{
    let number_64 = number as u64;
    push_refused(out, place, Part::Input(number_64), why)?;
    push_refused(
        out,
        place,
        Part::InputType(number_64),
        type_why(input.kind.rust_type.as_str()),
    )?;
    push_refused(
        out,
        place,
        Part::InputDoc(number_64),
        input_doc_why(vars, instruction, input),
    )
}

/// Adds what is refused of the inputs, and answers their names. The variables of those that are values are of the registry.
pub(crate) fn push_inputs(
    alloc: Global,
    out: &mut Vec<RefusedName>,
    vars: &TypeVars,
    instruction: &InstructionContent,
    format: &InstructionFormat,
    inputs: &[Operand],
    place: Place,
) -> Result<Names, AllocError>
    requires { AreOf vars.now (variables_of inputs.now) }
    ensures pushed { OnOk result (out.new.items ≡ out.old.items ++ inputs_refused vars.now instruction.now format.now place inputs.now) }
    ensures names { IfOk result (λ names. (text : List ℕ) → known names text ≡ is_form (flat_map names_of_input inputs.now) text) }
{
    let mut names = Names::new(alloc);
    for number in 0..inputs.len() {
        let input = &inputs[number];
        let why = input_why(alloc, instruction, format, &names, input)?;
        push_input(out, vars, instruction, place, number, input, why)?;
        add_input(alloc, &mut names, input)?;
    }
    Ok(names)
}
