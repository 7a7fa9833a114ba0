ghost use Rattle.std.specs.Prelude.{◌≡◌, ◌++◌, IfOk, OnOk, string_bytes};
ghost use Rattle.std.specs.List.{flat_map};
ghost use Rattle.meta_rust_insts.specs.Accessors.{has_mark, mark_name, mark_doc, mark_arm, accessor_text, accessors_text};

use meta_inst::InstructionContent;
use meta_text::fill;
use std::alloc::{AllocError, Global};

/// A mark of instructions for which `Opcode` has a method.
#[derive(Clone, Copy)]
enum Mark {
    IsTerminator,
    IsBranch,
    IsCall,
    IsReturn,
    CanLoad,
    CanStore,
    CanTrap,
    OtherSideEffects,
    SideEffectsIdempotent,
}

/// The marks, in the order of their methods.
const TOLD_MARKS: [Mark; 9] = [
    Mark::IsTerminator,
    Mark::IsBranch,
    Mark::IsCall,
    Mark::IsReturn,
    Mark::CanLoad,
    Mark::CanStore,
    Mark::CanTrap,
    Mark::OtherSideEffects,
    Mark::SideEffectsIdempotent,
];

const ACCESSOR: &str = "    /// $doc$
    pub fn $name$(self) -> bool {
        match self {
$arms$            _ => false,
        }
    }

";

const ACCESSOR_HOLES: [&str; 3] = ["doc", "name", "arms"];

impl Mark {
    fn is_of(self, instruction: &InstructionContent) -> bool
        ensures { result ≡ has_mark self instruction.now.marks }
    {
        match self {
            Mark::IsTerminator => instruction.is_terminator(),
            Mark::IsBranch => instruction.is_branch(),
            Mark::IsCall => instruction.is_call(),
            Mark::IsReturn => instruction.is_return(),
            Mark::CanLoad => instruction.can_load(),
            Mark::CanStore => instruction.can_store(),
            Mark::CanTrap => instruction.can_trap(),
            Mark::OtherSideEffects => instruction.other_side_effects(),
            Mark::SideEffectsIdempotent => instruction.side_effects_idempotent(),
        }
    }

    fn name(&self) -> &str
        ensures { result.now ≡ mark_name self.now }
    {
        match self {
            Mark::IsTerminator => "is_terminator",
            Mark::IsBranch => "is_branch",
            Mark::IsCall => "is_call",
            Mark::IsReturn => "is_return",
            Mark::CanLoad => "can_load",
            Mark::CanStore => "can_store",
            Mark::CanTrap => "can_trap",
            Mark::OtherSideEffects => "other_side_effects",
            Mark::SideEffectsIdempotent => "side_effects_idempotent",
        }
    }

    fn doc(&self) -> &str
        ensures { result.now ≡ mark_doc self.now }
    {
        match self {
            Mark::IsTerminator => "True for instructions that terminate the block",
            Mark::IsBranch => "True for all branch or jump instructions.",
            Mark::IsCall => "Is this a call instruction?",
            Mark::IsReturn => "Is this a return instruction?",
            Mark::CanLoad => "Can this instruction read from memory?",
            Mark::CanStore => "Can this instruction write to memory?",
            Mark::CanTrap => "Can this instruction cause a trap?",
            Mark::OtherSideEffects => {
                "Does this instruction have other side effects besides can_* flags?"
            }
            Mark::SideEffectsIdempotent => {
                "Despite having side effects, is this instruction okay to GVN?"
            }
        }
    }
}

#[tactic(auto, unfolding(crate::specs::Accessors::mark_arm))]
fn push_arm(
    out: &mut String,
    mark: Mark,
    instruction: &InstructionContent,
) -> Result<(), AllocError>
    ensures { OnOk result (string_bytes out.new ≡ string_bytes out.old ++ mark_arm mark instruction.now) }
{
    if mark.is_of(instruction) {
        let name = instruction.camel_name().as_str();
        return write!(out, "            Self::{name} => true,\n");
    }
    Ok(())
}

fn arms(
    alloc: Global,
    mark: Mark,
    instructions: &[InstructionContent],
) -> Result<String, AllocError>
    ensures { IfOk result (λ text. string_bytes text ≡ flat_map (mark_arm mark) instructions.now) }
{
    let mut text = String::new(alloc);
    for instruction in instructions {
        push_arm(&mut text, mark, instruction)?;
    }
    Ok(text)
}

#[tactic(auto, using(crate::proofs::EnumTemplates::accessor_steps))]
fn each_accessor(
    alloc: Global,
    marks: &[Mark],
    instructions: &[InstructionContent],
) -> Result<String, AllocError>
    ensures { IfOk result (λ text. string_bytes text ≡ flat_map (λ mark. accessor_text mark instructions.now) marks.now) }
{
    let mut text = String::new(alloc);
    for mark in marks {
        let arms = arms(alloc, *mark, instructions)?;
        fill(
            &mut text,
            ACCESSOR,
            &ACCESSOR_HOLES,
            &[mark.doc(), mark.name(), arms.as_str()],
        )?;
    }
    Ok(text)
}

#[tactic(auto, unfolding(crate::specs::Accessors::accessors_text))]
pub(crate) fn accessors(
    alloc: Global,
    instructions: &[InstructionContent],
) -> Result<String, AllocError>
    ensures { IfOk result (λ text. string_bytes text ≡ accessors_text instructions.now) }
{
    each_accessor(alloc, &TOLD_MARKS, instructions)
}
