ghost use Rattle.std.specs.Prelude.{◌≡◌, ◌++◌, ◌<◌, ◌==◌, ℕ, Some, IfOk, length, string_bytes};
ghost use Rattle.meta_operands.specs.Operand.{variable_of, variables_of};
ghost use Rattle.meta_inst.specs.Operands.{AreOf};
ghost use Rattle.meta_rust_text.specs.ImmBuilders.{input_doc, input_type, input_docs, input_arguments, input_names};

use super::arguments::push_argument;
use super::docs::{first_line, push_doc_item};
use meta_operands::Operand;
use meta_typevar::TypeVars;
use std::alloc::{AllocError, Global};

fn input_doc<'a>(vars: &'a TypeVars, input: &'a Operand, is_immediate: bool) -> &'a str
    requires { (tv : ℕ) → variable_of input.now ≡ Some tv → tv < length vars.now }
    ensures { result.now ≡ input_doc vars.now input.now is_immediate }
{
    if is_immediate {
        return "an immediate integer constant";
    }
    first_line(input.doc(vars))
}

fn input_type(input: &Operand, is_immediate: bool) -> &str
    ensures { result.now ≡ input_type input.now is_immediate }
{
    if is_immediate {
        return "T";
    }
    if input.is_value() {
        return "Value";
    }
    input.kind.rust_type.as_str()
}

#[tactic(auto, unfolding(crate::specs::ImmBuilders::input_docs))]
pub(crate) fn input_docs(
    alloc: Global,
    vars: &TypeVars,
    inputs: &[Operand],
    immediate: usize,
) -> Result<String, AllocError>
    requires { AreOf vars.now (variables_of inputs.now) }
    ensures { IfOk result (λ text. string_bytes text ≡ input_docs vars.now inputs.now immediate) }
{
    let mut text = String::new(alloc);
    for place in 0..inputs.len() {
        let input = &inputs[place];
        let doc = input_doc(vars, input, place == immediate);
        push_doc_item(&mut text, input.name.as_str(), doc)?;
    }
    Ok(text)
}

#[tactic(auto, unfolding(crate::specs::ImmBuilders::input_arguments))]
pub(crate) fn input_arguments(
    alloc: Global,
    inputs: &[Operand],
    immediate: usize,
) -> Result<String, AllocError>
    ensures { IfOk result (λ text. string_bytes text ≡ input_arguments inputs.now immediate) }
{
    let mut text = String::new(alloc);
    for place in 0..inputs.len() {
        let input = &inputs[place];
        let ty = input_type(input, place == immediate);
        push_argument(&mut text, input.name.as_str(), ty)?;
    }
    Ok(text)
}

#[tactic(auto, unfolding(crate::specs::ImmBuilders::input_names))]
pub(crate) fn input_names(alloc: Global, inputs: &[Operand]) -> Result<String, AllocError>
    ensures { IfOk result (λ text. string_bytes text ≡ input_names inputs.now) }
{
    let mut text = String::new(alloc);
    let [first, rest @ ..] = inputs else {
        return Ok(text);
    };
    text.push_str(first.name.as_str())?;
    for input in rest {
        text.push_str(", ")?;
        text.push_str(input.name.as_str())?;
    }
    Ok(text)
}
