ghost use Rattle.std.specs.Prelude.{◌≡◌, ◌++◌, OnOk, IfOk, string_bytes};
ghost use Rattle.meta_rust_insts.specs.Members.{member_filled};
ghost use Rattle.meta_rust_insts.specs.EqMethod.{equal_members, eq_arm};

use super::held::{blocks_of, raw_block_member, values_of};
use super::members::{pattern, push_fields, push_member};
use meta_operands::InstructionFormat;
use meta_text::fill;
use std::alloc::{AllocError, Global};

/// The arm of a format: the patterns of both instructions, and what is equal.
const EQ_ARM: &str = "            (&Self::$name$ { $first$ }, &Self::$name$ { $second$ }) => {
                opcode1 == opcode2
$members$            }
";

const EQ_ARM_HOLES: [&str; 4] = ["name", "first", "second", "members"];

/// A member in the pattern of the first instruction, and in that of the second.
const FIRST: &str = ", $member$: ref $member$1";

const SECOND: &str = ", $member$: ref $member$2";

const EQUAL: &str = "                && $member$1 == $member$2\n";

/// What is equal if there is one value, an array of values, or a list of them.
const EQUAL_ARG: &str = "                && arg1 == arg2\n";

const EQUAL_ARGS: &str = "                && args1.iter().zip(args2.iter()).all(|(a, b)| a == b)\n";

const EQUAL_LIST: &str =
    "                && args1.as_slice(pool).iter().zip(args2.as_slice(pool).iter()).all(|(a, b)| a == b)\n";

/// What is equal if there is one block, or if there are two.
const EQUAL_BLOCK: &str = "                && destination1 == destination2\n";

const EQUAL_BLOCKS: &str =
    "                && blocks1.iter().zip(blocks2.iter()).all(|(a, b)| a.block(pool) == b.block(pool))\n";

fn equal_members(alloc: Global, format: &InstructionFormat) -> Result<String, AllocError>
    ensures { IfOk result (λ text. string_bytes text ≡ equal_members (member_filled EQUAL.now) format.now) }
{
    let mut text = String::new(alloc);
    push_fields(&mut text, EQUAL, format.imm_fields.as_slice())?;
    text.push_str(values_of(format).text(EQUAL_ARG, EQUAL_ARGS, EQUAL_LIST))?;
    text.push_str(blocks_of(format).text(EQUAL_BLOCK, EQUAL_BLOCKS))?;
    push_member(&mut text, EQUAL, raw_block_member(format))?;
    Ok(text)
}

pub(crate) fn push_eq_arm(
    alloc: Global,
    out: &mut String,
    format: &InstructionFormat,
) -> Result<(), AllocError>
    ensures { OnOk result (string_bytes out.new ≡ string_bytes out.old ++ eq_arm format.now) }
{
    let first = pattern(alloc, "opcode: ref opcode1", FIRST, FIRST, FIRST, format)?;
    let second = pattern(alloc, "opcode: ref opcode2", SECOND, SECOND, SECOND, format)?;
    let members = equal_members(alloc, format)?;
    fill(
        out,
        EQ_ARM,
        &EQ_ARM_HOLES,
        &[
            format.name.as_str(),
            first.as_str(),
            second.as_str(),
            members.as_str(),
        ],
    )
}
