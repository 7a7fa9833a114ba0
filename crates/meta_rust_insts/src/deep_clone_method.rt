ghost use Rattle.std.specs.Prelude.{◌≡◌, ◌++◌, OnOk, IfOk, string_bytes};
ghost use Rattle.meta_rust_insts.specs.Held.{values_of};
ghost use Rattle.meta_rust_insts.specs.Members.{member_filled};
ghost use Rattle.meta_rust_insts.specs.DeepCloneMethod.{clone_pattern, cloned_members, clone_arm};

use super::held::{Values, blocks_of, raw_block_member, values_of};
use super::members::{
    BY_REFERENCE, KEPT, PLAIN, REBUILT, REBUILT_HOLES, pattern, push_fields, push_member,
};
use meta_operands::InstructionFormat;
use meta_text::fill;
use std::alloc::{AllocError, Global};

const ARG: &str = "                    arg,\n";

const ARGS: &str = "                    args,\n";

const CLONED_ARGS: &str = "                    args: args.deep_clone(pool),\n";

const CLONED_BLOCK: &str = "                    destination: destination.deep_clone(pool),\n";

const CLONED_BLOCKS: &str =
    "                    blocks: [blocks[0].deep_clone(pool), blocks[1].deep_clone(pool)],\n";

/// The pattern of a format: a list of values is taken by reference.
fn clone_pattern(alloc: Global, format: &InstructionFormat) -> Result<String, AllocError>
    ensures { IfOk result (λ text. string_bytes text
        ≡ clone_pattern (member_filled BY_REFERENCE.now) (member_filled PLAIN.now) (values_of format.now) format.now) }
{
    match values_of(format) {
        Values::Absent | Values::One | Values::Several(_) => {
            pattern(alloc, "opcode", PLAIN, PLAIN, PLAIN, format)
        }
        Values::Listed => pattern(alloc, "opcode", BY_REFERENCE, PLAIN, PLAIN, format),
    }
}

/// The members of a format: a list of values and blocks are copied, and all else stays.
#[tactic(auto, unfolding(crate::specs::Rebuilt::kept))]
fn cloned_members(alloc: Global, format: &InstructionFormat) -> Result<String, AllocError>
    ensures { IfOk result (λ text. string_bytes text ≡ cloned_members (member_filled KEPT.now) format.now) }
{
    let mut text = String::new(alloc);
    text.push_str(values_of(format).text(ARG, ARGS, CLONED_ARGS))?;
    text.push_str(blocks_of(format).text(CLONED_BLOCK, CLONED_BLOCKS))?;
    push_member(&mut text, KEPT, raw_block_member(format))?;
    push_fields(&mut text, KEPT, format.imm_fields.as_slice())?;
    Ok(text)
}

pub(crate) fn push_clone_arm(
    alloc: Global,
    out: &mut String,
    format: &InstructionFormat,
) -> Result<(), AllocError>
    ensures { OnOk result (string_bytes out.new ≡ string_bytes out.old ++ clone_arm format.now) }
{
    let pattern = clone_pattern(alloc, format)?;
    let members = cloned_members(alloc, format)?;
    fill(
        out,
        REBUILT,
        &REBUILT_HOLES,
        &[format.name.as_str(), pattern.as_str(), members.as_str()],
    )
}
