ghost use Rattle.std.specs.Prelude.{◌≡◌};
ghost use Rattle.std.specs.Option.{option_map};
ghost use Rattle.meta_query_lines.specs.Told.{told_by, instruction_at, name_at, value_name, operand_name, has_mark};

use meta_file_syntax::Property;
use meta_inst::InstructionContent;
use meta_operands::Operand;
use meta_types::Text;

/// The instruction of an opcode. `None` if the instructions aren't known, or there is no such opcode.
pub(crate) fn instruction_at<'a>(
    told: Option<&'a [InstructionContent]>,
    opcode: u16,
) -> Option<&'a InstructionContent>
    ensures { option_map (λ b. b.now) result ≡ instruction_at (told_by told.entry) opcode }
{
    match told {
        Some(instructions) if opcode > 0 => instructions.get(opcode as usize - 1),
        _ => None,
    }
}

fn name_at<'a>(operands: &'a [Operand], places: &[usize], k: usize) -> Option<&'a Text>
    ensures { option_map (λ name. name.now) result ≡ name_at operands.now places.now k }
{
    let Some(place) = places.get(k) else {
        return None;
    };
    match operands.get(*place) {
        Some(operand) => Some(&operand.name),
        None => None,
    }
}

/// The name of the `k`-th operand that is a value, from 0: of the results in order, and then of the value inputs.
fn value_name(instruction: &InstructionContent, k: usize) -> Option<&Text>
    ensures { option_map (λ name. name.now) result ≡ value_name instruction.now k }
{
    let results = instruction.value_results();
    if k < results.len() {
        return name_at(instruction.operands_out(), results, k);
    }
    name_at(
        instruction.operands_in(),
        instruction.value_opnums(),
        k - results.len(),
    )
}

/// The name of that operand of an opcode. `None` if the instructions aren't known, or there is no such operand.
pub(crate) fn operand_name<'a>(
    told: Option<&'a [InstructionContent]>,
    opcode: u16,
    k: usize,
) -> Option<&'a Text>
    ensures { option_map (λ name. name.now) result ≡ operand_name (told_by told.entry) opcode k }
{
    match instruction_at(told, opcode) {
        Some(instruction) => value_name(instruction, k),
        None => None,
    }
}

/// Whether the instruction has the mark.
pub(crate) fn has_mark(instruction: &InstructionContent, mark: Property) -> bool
    ensures { result ≡ has_mark mark instruction.now.marks }
{
    match mark {
        Property::TerminatesBlock => instruction.is_terminator(),
        Property::Branches => instruction.is_branch(),
        Property::Call => instruction.is_call(),
        Property::Returns => instruction.is_return(),
        Property::CanLoad => instruction.can_load(),
        Property::CanStore => instruction.can_store(),
        Property::CanTrap => instruction.can_trap(),
        Property::OtherSideEffects => instruction.other_side_effects(),
        Property::SideEffectsIdempotent => instruction.side_effects_idempotent(),
        Property::ImmMethod => instruction.inst_builder_imm_method(),
    }
}
