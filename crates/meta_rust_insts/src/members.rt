ghost use Rattle.std.specs.Prelude.{◌≡◌, ◌++◌, map, IsTrue, IfOk, OnOk, string_bytes};
ghost use Rattle.std.specs.Option.{option_copied};
ghost use Rattle.meta_text.specs.Filled.{fits};
ghost use Rattle.meta_rust_insts.specs.Members.{member_filled, of_member, of_fields, pattern_text};
ghost use Rattle.meta_rust_insts.specs.Rebuilt.{kept};

use super::held::{blocks_of, raw_block_member, values_of};
use meta_operands::{FormatField, InstructionFormat};
use meta_text::fill;
use std::alloc::{AllocError, Global};

/// The only hole of a text of a member is its name.
const MEMBER_HOLES: [&str; 1] = ["member"];

/// A member in a pattern, as it is and by reference.
pub(crate) const PLAIN: &str = ", $member$";

pub(crate) const BY_REFERENCE: &str = ", ref $member$";

/// The arm of a format that makes an instruction of this format again, with the same opcode.
pub(crate) const REBUILT: &str = "            Self::$name${$pattern$} => {
                Self::$name$ {
                    opcode,
$members$                }
            }
";

pub(crate) const REBUILT_HOLES: [&str; 3] = ["name", "pattern", "members"];

pub(crate) const KEPT: &str = "                    $member$,\n";

pub(crate) fn push_member(
    out: &mut String,
    text: &str,
    member: Option<&str>,
) -> Result<(), AllocError>
    requires { IsTrue (fits text.now (map (λ h. h.now) MEMBER_HOLES)) }
    ensures { OnOk result (string_bytes out.new ≡ string_bytes out.old ++ of_member (member_filled text.now) (option_copied member.entry)) }
{
    match member {
        Some(member) => fill(out, text, &MEMBER_HOLES, &[member]),
        None => Ok(()),
    }
}

pub(crate) fn push_fields(
    out: &mut String,
    text: &str,
    fields: &[FormatField],
) -> Result<(), AllocError>
    requires { IsTrue (fits text.now (map (λ h. h.now) MEMBER_HOLES)) }
    ensures { OnOk result (string_bytes out.new ≡ string_bytes out.old ++ of_fields (member_filled text.now) fields.now) }
{
    for field in fields {
        fill(out, text, &MEMBER_HOLES, &[field.member.as_str()])?;
    }
    Ok(())
}

/// The pattern of a format. `opcode` is the text of the opcode. The other texts are those of a member: `values` of the member of the
/// values, `blocks` of that of the blocks, and `others` of each other member.
pub(crate) fn pattern(
    alloc: Global,
    opcode: &str,
    values: &str,
    blocks: &str,
    others: &str,
    format: &InstructionFormat,
) -> Result<String, AllocError>
    requires of_values { IsTrue (fits values.now (map (λ h. h.now) MEMBER_HOLES)) }
    requires of_blocks { IsTrue (fits blocks.now (map (λ h. h.now) MEMBER_HOLES)) }
    requires of_others { IsTrue (fits others.now (map (λ h. h.now) MEMBER_HOLES)) }
    ensures { IfOk result (λ text. string_bytes text ≡ pattern_text opcode.now
        (member_filled values.now) (member_filled blocks.now) (member_filled others.now) format.now) }
{
    let mut text = String::from_str(alloc, opcode)?;
    push_member(&mut text, values, values_of(format).member())?;
    push_member(&mut text, blocks, blocks_of(format).member())?;
    push_member(&mut text, others, raw_block_member(format))?;
    push_fields(&mut text, others, format.imm_fields.as_slice())?;
    Ok(text)
}

#[tactic(auto, using(crate::proofs::MethodTemplates::kept_same))]
pub(crate) fn push_kept(out: &mut String, member: &str) -> Result<(), AllocError>
    ensures { OnOk result (string_bytes out.new ≡ string_bytes out.old ++ kept member.now) }
{
    push_member(out, KEPT, Some(member))
}
