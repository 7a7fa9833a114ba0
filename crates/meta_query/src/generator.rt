ghost use Rattle.std.specs.Prelude.{◌≡◌, ◌+◌, ◌++◌, ◌∷◌, [], IfOk, OnOk};
ghost use Rattle.meta_build.specs.AllDeclared.{AreValid};
ghost use Rattle.meta_query.specs.Synth.{IsSynth};

use super::formats::Formats;
use super::instructions::instruction;
use super::laws::synth_is_valid;
use meta_gen::Declarations;
use meta_inst::{AllInstructions, InstructionBuilder, InstructionGroupBuilder};
use meta_operands::FormatTable;
use meta_typevar::TypeVars;
use std::alloc::{AllocError, Global};

/// How many instructions the declarations of a number have.
const INSTRUCTIONS: u16 = 255;

fn push(instructions: &mut AllInstructions, builder: InstructionBuilder) -> Result<(), AllocError>
    ensures { OnOk result (instructions.new ≡ instructions.old ++ builder ∷ []) }
{
    let mut group = InstructionGroupBuilder::new(instructions);
    group.push(builder)
}

/// Makes declarations from a number: 255 instructions `op_1` to `op_255` of the formats `NullAry`, `Unary` and `Binary`, and no groups of
/// settings. The declarations are valid for every number. Numbers that differ by a multiple of 24 give the same declarations.
pub fn synth(alloc: Global, n: u32) -> Result<Declarations, AllocError>
    ensures declarations { IfOk result (λ d. IsSynth n d) }
    ensures valid { IfOk result (λ d. AreValid d) }
{
    synth_is_valid();
    let mut vars = TypeVars::new(alloc);
    let mut table = FormatTable::new(alloc);
    let formats = Formats::new(alloc, &mut table)?;
    let mut instructions = AllInstructions::new(alloc);
    for place in 0..INSTRUCTIONS {
        let builder = instruction(alloc, &mut vars, &formats, n, place + 1)?;
        push(&mut instructions, builder)?;
    }
    // The clause of this call says that they are a registry.
    let _count = vars.len();
    Ok(Declarations::new(vars, table, instructions, Vec::new(alloc)))
}
