ghost use Rattle.std.specs.Prelude.{◌≡◌, IfOk, string_bytes};
ghost use Rattle.meta_rust_text.specs.InstructionsText.{instructions_text};
ghost use Rattle.meta_rust_text.specs.Written.{WritesMade};

use super::written::write_made;
use meta_build::Built;
use meta_rust_insts::{formats_in_use, push_data, push_data_impl, push_formats, push_opcodes};
use meta_text::{Sink, WriteError, push_gap};
use std::alloc::{AllocError, Global};

/// Makes the text of instructions as Rust source: the formats in use, the data of an instruction of each format with its methods, and the
/// opcodes with theirs. The crate's `gen_formats`, `gen_instruction_data`, `gen_instruction_data_impl` and `gen_opcodes` of `gen_inst.rs`
/// write it too; their two tables are in the text of tables.
///
/// The text is made in one pass over the instructions, and for each method in one pass over the formats.
#[tactic(auto, unfolding(crate::specs::InstructionsText::instructions_text))]
pub fn instructions_text(alloc: Global, built: &Built<'_>) -> Result<String, AllocError>
    ensures { IfOk result (λ text. string_bytes text ≡ instructions_text built.now) }
{
    let mut text = String::new(alloc);
    let formats = formats_in_use(alloc, built)?;
    push_formats(alloc, &mut text, built)?;
    push_data(alloc, &mut text, built)?;
    push_data_impl(alloc, &mut text, formats.as_slice())?;
    push_gap(&mut text)?;
    push_opcodes(alloc, &mut text, built)?;
    Ok(text)
}

/// Writes the text of instructions to the sink, as `instructions_text` makes it.
///
/// `OutOfMemory` comes before anything is written. `WriteFault` comes only where a write failed; the sink has then taken a front of the
/// text.
pub fn write_instructions<K: Sink>(
    alloc: Global,
    built: &Built<'_>,
    sink: &mut K,
) -> Result<(), WriteError>
    ensures { WritesMade K.taken K.faults (instructions_text built.now) result sink.old sink.new }
{
    write_made(instructions_text(alloc, built), sink)
}
