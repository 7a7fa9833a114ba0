ghost use Rattle.std.specs.Prelude.{◌≡◌, ◌++◌, OnOk, IfOk, string_bytes};
ghost use Rattle.meta_rust_insts.specs.Held.{values_of, blocks_of};
ghost use Rattle.meta_rust_insts.specs.Members.{member_filled};
ghost use Rattle.meta_rust_insts.specs.HashMethod.{hashed_values, hashed_blocks, hashed_members, hash_arm};

use super::held::{Blocks, Values, blocks_of, raw_block_member, values_of};
use super::members::{BY_REFERENCE, PLAIN, pattern, push_fields, push_member};
use meta_operands::InstructionFormat;
use meta_text::fill;
use std::alloc::{AllocError, Global};

const HASH_ARM: &str = "            Self::$name${$pattern$} => {
                ::core::hash::Hash::hash( &::core::mem::discriminant(self), state);
                ::core::hash::Hash::hash(&opcode, state);
$members$            }
";

const HASH_ARM_HOLES: [&str; 3] = ["name", "pattern", "members"];

const HASHED: &str = "                ::core::hash::Hash::hash(&$member$, state);\n";

/// The count of the values is hashed, and then each of them.
const EACH_VALUE: &str = "                ::core::hash::Hash::hash(&$count$, state);
                for &arg in $args$ {
                    ::core::hash::Hash::hash(&arg, state);
                }
";

const EACH_VALUE_HOLES: [&str; 2] = ["count", "args"];

/// The count of the blocks is hashed, and then each of them with its arguments.
const EACH_BLOCK: &str = "                ::core::hash::Hash::hash(&$count$, state);
                for &block in $blocks$ {
                    ::core::hash::Hash::hash(&block.block(pool), state);
                    for arg in block.args(pool) {
                        ::core::hash::Hash::hash(&arg, state);
                    }
                }
";

const EACH_BLOCK_HOLES: [&str; 2] = ["count", "blocks"];

#[tactic(auto, using(crate::proofs::MethodTemplates::hash_steps))]
fn push_hashed_values(out: &mut String, values: Values) -> Result<(), AllocError>
    ensures { OnOk result (string_bytes out.new ≡ string_bytes out.old ++ hashed_values values) }
{
    match values {
        Values::Absent => push_member(out, HASHED, Some("0")),
        Values::One => fill(
            out,
            EACH_VALUE,
            &EACH_VALUE_HOLES,
            &["1", "core::slice::from_ref(arg)"],
        ),
        Values::Several(_) => fill(out, EACH_VALUE, &EACH_VALUE_HOLES, &["args.len()", "args"]),
        Values::Listed => fill(
            out,
            EACH_VALUE,
            &EACH_VALUE_HOLES,
            &["args.len(pool)", "args.as_slice(pool)"],
        ),
    }
}

#[tactic(auto, using(crate::proofs::MethodTemplates::hash_steps))]
fn push_hashed_blocks(out: &mut String, blocks: Blocks) -> Result<(), AllocError>
    ensures { OnOk result (string_bytes out.new ≡ string_bytes out.old ++ hashed_blocks blocks) }
{
    match blocks {
        Blocks::Absent => Ok(()),
        Blocks::One => fill(
            out,
            EACH_BLOCK,
            &EACH_BLOCK_HOLES,
            &["1", "core::slice::from_ref(destination)"],
        ),
        Blocks::Two => fill(
            out,
            EACH_BLOCK,
            &EACH_BLOCK_HOLES,
            &["blocks.len()", "blocks"],
        ),
    }
}

fn hashed_members(alloc: Global, format: &InstructionFormat) -> Result<String, AllocError>
    ensures { IfOk result (λ text. string_bytes text ≡ hashed_members (member_filled HASHED.now) format.now) }
{
    let mut text = String::new(alloc);
    push_fields(&mut text, HASHED, format.imm_fields.as_slice())?;
    push_hashed_values(&mut text, values_of(format))?;
    push_hashed_blocks(&mut text, blocks_of(format))?;
    push_member(&mut text, HASHED, raw_block_member(format))?;
    Ok(text)
}

/// Adds the arm of a format. Values and blocks are taken by reference.
pub(crate) fn push_hash_arm(
    alloc: Global,
    out: &mut String,
    format: &InstructionFormat,
) -> Result<(), AllocError>
    ensures { OnOk result (string_bytes out.new ≡ string_bytes out.old ++ hash_arm format.now) }
{
    let pattern = pattern(alloc, "opcode", BY_REFERENCE, BY_REFERENCE, PLAIN, format)?;
    let members = hashed_members(alloc, format)?;
    fill(
        out,
        HASH_ARM,
        &HASH_ARM_HOLES,
        &[format.name.as_str(), pattern.as_str(), members.as_str()],
    )
}
