ghost use Rattle.std.specs.Prelude.{◌≡◌, ◌++◌, IfOk, OnOk, string_bytes};
ghost use Rattle.meta_rust_text.specs.MethodBody.{passed_control, passed_at, passed_operands, call_of};

use super::names::operand_name;
use super::operands::variable_name;
use meta_inst::{InstructionContent, PolymorphicInfo};
use meta_operands::{InstructionFormat, Operand};
use meta_typevar::TypeVars;
use std::alloc::{AllocError, Global};

fn passed_control(vars: &TypeVars, info: Option<PolymorphicInfo>) -> &str
    ensures { result.now ≡ passed_control vars.now info }
{
    let Some(info) = info else {
        return "types::INVALID";
    };
    if info.use_typevar_operand {
        return "ctrl_typevar";
    }
    variable_name(vars, info.ctrl_typevar)
}

fn push_passed(out: &mut String, inputs: &[Operand], places: &[usize]) -> Result<(), AllocError>
    ensures { OnOk result (string_bytes out.new ≡ string_bytes out.old ++ passed_at inputs.now places.now) }
{
    for place in places {
        let name = operand_name(inputs, *place);
        write!(out, ", {name}")?;
    }
    Ok(())
}

/// What is passed after the control: the immediates and entities, and then the values, as one list if the format has one.
#[tactic(auto, unfolding(crate::specs::MethodBody::passed_operands))]
fn passed_operands(
    alloc: Global,
    instruction: &InstructionContent,
    format: &InstructionFormat,
) -> Result<String, AllocError>
    ensures { IfOk result (λ text. string_bytes text ≡ passed_operands instruction.now format.now) }
{
    let mut out = String::new(alloc);
    let inputs = instruction.operands_in();
    push_passed(&mut out, inputs, instruction.imm_opnums())?;
    if format.has_value_list {
        out.push_str(", vlist")?;
        return Ok(out);
    }
    push_passed(&mut out, inputs, instruction.value_opnums())?;
    Ok(out)
}

#[tactic(auto, unfolding(crate::specs::MethodBody::call_text))]
pub(crate) fn push_call(
    alloc: Global,
    out: &mut String,
    vars: &TypeVars,
    instruction: &InstructionContent,
    format: &InstructionFormat,
) -> Result<(), AllocError>
    ensures { OnOk result (string_bytes out.new ≡ string_bytes out.old ++ call_of vars.now instruction.now format.now) }
{
    let control = passed_control(vars, instruction.polymorphic_info());
    let operands = passed_operands(alloc, instruction, format)?;
    let (constructor, opcode) = (format.name.as_str(), instruction.camel_name().as_str());
    write!(
        out,
        "        let (inst, dfg) = self.{constructor}(Opcode::{opcode}, {control}{operands});
        crate::trace!(\"inserted {{inst:?}}: {{}}\", dfg.display_inst(inst));
"
    )
}
