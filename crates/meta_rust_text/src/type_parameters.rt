ghost use Rattle.std.specs.Prelude.{◌≡◌, ◌+◌, ◌++◌, List, [], IfOk, OnOk, map, string_bytes};
ghost use Rattle.meta_operands.specs.declared.operand.Operand.{Operand};
ghost use Rattle.meta_rust_text.specs.MethodArguments.{each_with_before, parameter_count, parameter_name, taken_type, bound_text, bound_of};
ghost use Rattle.meta_rust_text.specs.MethodArguments.{lifetime_of, in_angles, type_parameters};

use super::numbering::Numbering;
use super::operands::{has_block, is_converted, is_mem_flags};
use meta_operands::Operand;
use std::alloc::{AllocError, Global};

/// The name of the type parameter with this number.
#[tactic(auto, unfolding(crate::specs::MethodArguments::parameter_name))]
pub(crate) fn parameter_name(alloc: Global, number: usize) -> Result<String, AllocError>
    ensures { (before : List Operand) → number ≡ parameter_count before + 1
        → IfOk result (λ name. string_bytes name ≡ parameter_name before) }
{
    format!(in alloc; "T{number}")
}

fn taken_type(operand: &Operand) -> &str
    ensures { result.now ≡ taken_type operand.now }
{
    if is_mem_flags(operand) {
        return "ir::MemFlagsData";
    }
    operand.kind.rust_type.as_str()
}

#[tactic(auto, unfolding(crate::specs::MethodArguments::bound_text))]
fn bound(alloc: Global, name: &str, converted: &str) -> Result<String, AllocError>
    ensures { IfOk result (λ text. string_bytes text ≡ bound_text name.now converted.now) }
{
    format!(in alloc; "{name}: Into<{converted}>")
}

/// Adds the bound of the operand's type parameter, if it has one. This is then its number.
fn push_bound(
    alloc: Global,
    bounds: &mut Vec<String>,
    number: usize,
    operand: &Operand,
) -> Result<(), AllocError>
    ensures { (before : List Operand) → number ≡ parameter_count before + 1
        → OnOk result (map string_bytes bounds.new.items ≡ map string_bytes bounds.old.items ++ bound_of before operand.now) }
{
    if !is_converted(operand) {
        return Ok(());
    }
    let name = parameter_name(alloc, number)?;
    bounds.push(bound(alloc, name.as_str(), taken_type(operand))?)?;
    Ok(())
}

fn push_bounds(
    alloc: Global,
    bounds: &mut Vec<String>,
    operands: &[Operand],
) -> Result<(), AllocError>
    ensures { OnOk result (map string_bytes bounds.new.items ≡ map string_bytes bounds.old.items
        ++ each_with_before bound_of [] operands.now) }
{
    let mut numbering = Numbering::new();
    for place in 0..operands.len() {
        let operand = &operands[place];
        push_bound(alloc, bounds, numbering.next_number(), operand)?;
        numbering = numbering.past(operand);
    }
    Ok(())
}

fn push_lifetime(
    alloc: Global,
    parameters: &mut Vec<String>,
    operands: &[Operand],
) -> Result<(), AllocError>
    ensures { OnOk result (map string_bytes parameters.new.items ≡ map string_bytes parameters.old.items ++ lifetime_of operands.now) }
{
    if !has_block(operands) {
        return Ok(());
    }
    parameters.push(String::from_str(alloc, "'a")?)?;
    Ok(())
}

/// The texts in angle brackets, separated by a comma and a space. It is empty if there are no texts.
fn in_angles(alloc: Global, texts: &[String]) -> Result<String, AllocError>
    ensures { IfOk result (λ text. string_bytes text ≡ in_angles (map string_bytes texts.now)) }
{
    if texts.is_empty() {
        return Ok(String::new(alloc));
    }
    let joined = texts.join(alloc, ", ")?;
    format!(in alloc; "<{joined}>")
}

/// The type parameters of the method that takes these inputs, the lifetime first.
#[tactic(auto, unfolding(crate::specs::MethodArguments::type_parameters))]
pub(crate) fn type_parameters(alloc: Global, inputs: &[Operand]) -> Result<String, AllocError>
    ensures { IfOk result (λ text. string_bytes text ≡ type_parameters inputs.now) }
{
    let mut parameters = Vec::new(alloc);
    push_lifetime(alloc, &mut parameters, inputs)?;
    push_bounds(alloc, &mut parameters, inputs)?;
    in_angles(alloc, parameters.as_slice())
}
