ghost use Rattle.std.specs.Prelude.{◌≡◌, ◌++◌, ◌<◌, ℕ, Some, IfOk, OnOk, length, string_bytes};
ghost use Rattle.meta_operands.specs.Operand.{variable_of, variables_of};
ghost use Rattle.meta_inst.specs.Operands.{AreOf};
ghost use Rattle.meta_rust_text.specs.MethodDocs.{control_doc, raw_block_doc, docs_of_input, inputs_docs, outputs_docs};
ghost use Rattle.meta_rust_text.specs.MethodDocs.{titled, method_docs};

use super::docs::{first_line, push_doc_heading, push_doc_item, push_doc_line};
use super::operands::{asked_control, operand_doc, variable_doc, variable_name};
use meta_inst::InstructionContent;
use meta_operands::Operand;
use meta_text::{fill, push_text};
use meta_typevar::{TypeVar, TypeVars};
use std::alloc::{AllocError, Global};

const CONTROL: &str = "    /// - $name$ (controlling type variable): $doc$\n";

const CONTROL_HOLES: [&str; 2] = ["name", "doc"];

const BLOCK: &str = "    /// - $name$_label: Destination basic block
    /// - $name$_args: Block arguments
";

const BLOCK_HOLES: [&str; 1] = ["name"];

#[tactic(auto, using(crate::proofs::Templates::control_line_same), unfolding(crate::specs::MethodDocs::control_doc))]
fn push_control_doc(
    out: &mut String,
    vars: &TypeVars,
    control: Option<TypeVar>,
) -> Result<(), AllocError>
    ensures { OnOk result (string_bytes out.new ≡ string_bytes out.old ++ control_doc vars.now control) }
{
    match control {
        Some(tv) => {
            let doc = first_line(variable_doc(vars, tv));
            fill(
                out,
                CONTROL,
                &CONTROL_HOLES,
                &[variable_name(vars, tv), doc],
            )
        }
        None => Ok(()),
    }
}

#[tactic(auto, unfolding(crate::specs::MethodDocs::raw_block_doc))]
fn push_raw_block_doc(out: &mut String) -> Result<(), AllocError>
    ensures { OnOk result (string_bytes out.new ≡ string_bytes out.old ++ raw_block_doc) }
{
    push_text(out, "    /// - block: raw basic block\n")
}

#[tactic(auto, using(crate::proofs::Templates::block_docs_same), unfolding(crate::specs::MethodDocs::docs_of_input))]
fn push_input_docs(out: &mut String, vars: &TypeVars, operand: &Operand) -> Result<(), AllocError>
    requires { (tv : ℕ) → variable_of operand.now ≡ Some tv → tv < length vars.now }
    ensures { OnOk result (string_bytes out.new ≡ string_bytes out.old ++ docs_of_input vars.now operand.now) }
{
    if operand.kind.is_block() {
        return fill(out, BLOCK, &BLOCK_HOLES, &[operand.name.as_str()]);
    }
    if operand.kind.is_raw_block() {
        return push_raw_block_doc(out);
    }
    push_doc_item(out, operand.name.as_str(), operand_doc(vars, operand))
}

/// The lines on all arguments but the builder.
#[tactic(auto, unfolding(crate::specs::MethodDocs::inputs_docs))]
fn inputs_docs(
    alloc: Global,
    vars: &TypeVars,
    instruction: &InstructionContent,
) -> Result<String, AllocError>
    requires { AreOf vars.now (variables_of instruction.now.operands_in) }
    ensures { IfOk result (λ text. string_bytes text ≡ inputs_docs vars.now instruction.now) }
{
    let mut out = String::new(alloc);
    let control = asked_control(instruction.polymorphic_info());
    push_control_doc(&mut out, vars, control)?;
    let inputs = instruction.operands_in();
    for input in inputs {
        push_input_docs(&mut out, vars, input)?;
    }
    Ok(out)
}

#[tactic(auto, unfolding(crate::specs::MethodDocs::outputs_docs))]
fn outputs_docs(alloc: Global, vars: &TypeVars, outputs: &[Operand]) -> Result<String, AllocError>
    requires { AreOf vars.now (variables_of outputs.now) }
    ensures { IfOk result (λ text. string_bytes text ≡ outputs_docs vars.now outputs.now) }
{
    let mut out = String::new(alloc);
    for output in outputs {
        push_doc_item(&mut out, output.name.as_str(), operand_doc(vars, output))?;
    }
    Ok(out)
}

#[tactic(auto, unfolding(crate::specs::MethodDocs::titled))]
fn push_titled(out: &mut String, title: &str, lines: &str) -> Result<(), AllocError>
    ensures { OnOk result (string_bytes out.new ≡ string_bytes out.old ++ titled title.now lines.now) }
{
    if lines.is_empty() {
        return Ok(());
    }
    push_doc_heading(out, title)?;
    out.push_str(lines)
}

#[tactic(auto, unfolding(crate::specs::MethodDocs::method_docs))]
pub(crate) fn push_method_docs(
    alloc: Global,
    out: &mut String,
    vars: &TypeVars,
    instruction: &InstructionContent,
) -> Result<(), AllocError>
    requires inputs { AreOf vars.now (variables_of instruction.now.operands_in) }
    requires outputs { AreOf vars.now (variables_of instruction.now.operands_out) }
    ensures { OnOk result (string_bytes out.new ≡ string_bytes out.old ++ method_docs vars.now instruction.now) }
{
    let inputs = inputs_docs(alloc, vars, instruction)?;
    let outputs = outputs_docs(alloc, vars, instruction.operands_out())?;
    push_doc_line(out, first_line(instruction.doc().as_str()))?;
    push_titled(out, "Inputs", inputs.as_str())?;
    push_titled(out, "Outputs", outputs.as_str())
}
