ghost use Rattle.std.specs.Prelude.{◌≡◌, ◌++◌, IfOk, OnOk, slice_get, string_bytes};
ghost use Rattle.std.specs.List.{flat_map};
ghost use Rattle.meta_rust_text.specs.BuilderText.{HasVariablesOf, HaveVariablesOf, method_text, imm_methods_text, methods_text};
ghost use Rattle.meta_rust_text.specs.BuilderText.{constructor_at, constructors_text, trait_head, builder_text};

use super::constructor::push_constructor;
use super::imm_builders::push_imm_builders;
use super::inst_builder::push_inst_builder;
use super::operands::variables;
use meta_build::Built;
use meta_inst::InstructionContent;
use meta_operands::{FormatId, FormatTable};
use meta_text::{push_gap, push_item_end, push_text};
use meta_typevar::TypeVars;
use std::alloc::{AllocError, Global};

#[tactic(auto, unfolding(crate::specs::BuilderText::method_text))]
fn push_method(
    alloc: Global,
    out: &mut String,
    vars: &TypeVars,
    formats: &FormatTable,
    instruction: &InstructionContent,
) -> Result<(), AllocError>
    requires { HasVariablesOf vars.now instruction.now }
    ensures { OnOk result (string_bytes out.new ≡ string_bytes out.old
        ++ method_text vars.now instruction.now (slice_get formats.now instruction.now.format)) }
{
    let format = instruction.format();
    if !formats.is_of(format) {
        return Ok(());
    }
    push_inst_builder(alloc, out, vars, instruction, formats.get(format))?;
    push_gap(out)
}

/// Adds the methods that take an immediate for the instruction's last value, and an empty line, if the instruction asks for them.
#[tactic(auto, unfolding(crate::specs::BuilderText::imm_methods_text))]
fn push_imm_methods(
    alloc: Global,
    out: &mut String,
    vars: &TypeVars,
    instruction: &InstructionContent,
) -> Result<(), AllocError>
    requires { HasVariablesOf vars.now instruction.now }
    ensures { OnOk result (string_bytes out.new ≡ string_bytes out.old ++ imm_methods_text vars.now instruction.now) }
{
    if !instruction.inst_builder_imm_method() {
        return Ok(());
    }
    push_imm_builders(alloc, out, vars, instruction)?;
    push_gap(out)
}

#[tactic(auto, unfolding(crate::specs::BuilderText::methods_text))]
fn push_each_instruction(
    alloc: Global,
    out: &mut String,
    vars: &TypeVars,
    formats: &FormatTable,
    instructions: &[InstructionContent],
) -> Result<(), AllocError>
    requires { HaveVariablesOf vars.now instructions.now }
    ensures { OnOk result (string_bytes out.new ≡ string_bytes out.old ++ flat_map (methods_text vars.now formats.now) instructions.now) }
{
    for instruction in instructions {
        push_method(alloc, out, vars, formats, instruction)?;
        push_imm_methods(alloc, out, vars, instruction)?;
    }
    Ok(())
}

#[tactic(auto, unfolding(crate::specs::BuilderText::constructor_at))]
fn push_constructor_at(
    alloc: Global,
    out: &mut String,
    formats: &FormatTable,
    number: FormatId,
) -> Result<(), AllocError>
    ensures { OnOk result (string_bytes out.new ≡ string_bytes out.old ++ constructor_at formats.now number) }
{
    if !formats.is_of(number) {
        return Ok(());
    }
    push_constructor(alloc, out, formats.get(number))
}

/// Adds the constructors of the formats with these numbers, with an empty line between each two.
#[tactic(auto, unfolding(crate::specs::BuilderText::constructors_text))]
fn push_constructors(
    alloc: Global,
    out: &mut String,
    formats: &FormatTable,
    numbers: &[FormatId],
) -> Result<(), AllocError>
    ensures { OnOk result (string_bytes out.new ≡ string_bytes out.old ++ constructors_text formats.now numbers.now) }
{
    let [first, others @ ..] = numbers else {
        return Ok(());
    };
    push_constructor_at(alloc, out, formats, *first)?;
    for number in others {
        push_gap(out)?;
        push_constructor_at(alloc, out, formats, *number)?;
    }
    Ok(())
}

#[tactic(auto, unfolding(crate::specs::BuilderText::trait_head))]
fn push_trait_head(out: &mut String) -> Result<(), AllocError>
    ensures { OnOk result (string_bytes out.new ≡ string_bytes out.old ++ trait_head) }
{
    push_text(
        out,
        "/// Convenience methods for building instructions.
pub trait InstBuilder<'f>: InstBuilderBase<'f> {
",
    )
}

/// Makes the text of the instruction builder, as `gen_builder` of the crate's `gen_inst.rs` does: a trait with the methods that build each
/// instruction, in order, and the constructors of the formats in use, by their names. The fixed methods, which don't come from
/// declarations, are left out. The empty line between the two parts of these methods stays.
#[tactic(auto, unfolding(crate::specs::BuilderText::builder_text))]
pub fn builder_text(alloc: Global, built: &Built<'_>) -> Result<String, AllocError>
    ensures { IfOk result (λ text. string_bytes text ≡ builder_text built.now) }
{
    let declarations = built.declarations();
    let (vars, formats) = (variables(declarations), declarations.formats());
    let mut out = String::new(alloc);
    push_trait_head(&mut out)?;
    push_each_instruction(alloc, &mut out, vars, formats, built.instructions())?;
    push_gap(&mut out)?;
    push_constructors(alloc, &mut out, formats, built.formats())?;
    push_item_end(&mut out)?;
    Ok(out)
}
