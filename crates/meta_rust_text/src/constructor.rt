ghost use Rattle.std.specs.Prelude.{◌≡◌, ◌++◌, IfOk, OnOk, string_bytes};
ghost use Rattle.meta_rust_text.specs.Constructor.{member_text, array_member_text, field_members, value_member};
ghost use Rattle.meta_rust_text.specs.Constructor.{block_member, raw_block_member, members_text, needs_masking};
ghost use Rattle.meta_rust_text.specs.Constructor.{mut_mark, masking_text, constructor_with, constructor_text};

use super::arguments::{constructor_arguments, numbered_names};
use meta_operands::{FormatField, InstructionFormat};
use meta_text::{fill, push_text};
use std::alloc::{AllocError, Global};

const CONSTRUCTOR: &str = "    /// $format$
    #[allow(non_snake_case, reason = \"generated code\")]
    fn $name$(self, opcode: Opcode, ctrl_typevar: Type$arguments$) -> (Inst, &'f mut ir::DataFlowGraph) {
        let$mut$ data = ir::InstructionData::$name$ {
            opcode,
$members$        }
        ;
$masking$        debug_assert_eq!(opcode.format(), InstructionFormat::from(&data), \"Wrong InstructionFormat for Opcode: {opcode}\");
        self.build(data, ctrl_typevar)
    }
";

const CONSTRUCTOR_HOLES: [&str; 6] = ["name", "format", "arguments", "mut", "members", "masking"];

#[tactic(auto, unfolding(crate::specs::Constructor::member_text))]
fn push_member(out: &mut String, member: &str) -> Result<(), AllocError>
    ensures { OnOk result (string_bytes out.new ≡ string_bytes out.old ++ member_text member.now) }
{
    write!(out, "            {member},\n")
}

#[tactic(auto, unfolding(crate::specs::Constructor::array_member_text))]
fn push_array(out: &mut String, member: &str, names: &str) -> Result<(), AllocError>
    ensures { OnOk result (string_bytes out.new ≡ string_bytes out.old ++ array_member_text member.now names.now) }
{
    write!(out, "            {member}: [{names}],\n")
}

#[tactic(auto, unfolding(crate::specs::Constructor::field_members))]
fn push_field_members(out: &mut String, fields: &[FormatField]) -> Result<(), AllocError>
    ensures { OnOk result (string_bytes out.new ≡ string_bytes out.old ++ field_members fields.now) }
{
    for field in fields {
        push_member(out, field.member.as_str())?;
    }
    Ok(())
}

#[tactic(auto, unfolding(crate::specs::Constructor::value_member))]
fn push_value_member(
    alloc: Global,
    out: &mut String,
    has_value_list: bool,
    count: u32,
) -> Result<(), AllocError>
    ensures { OnOk result (string_bytes out.new ≡ string_bytes out.old ++ value_member has_value_list count) }
{
    if has_value_list {
        return push_member(out, "args");
    }
    if count == 0 {
        return Ok(());
    }
    if count == 1 {
        return push_member(out, "arg: arg0");
    }
    let names = numbered_names(alloc, "arg", count)?;
    push_array(out, "args", names.as_str())
}

#[tactic(auto, unfolding(crate::specs::Constructor::block_member))]
fn push_block_member(alloc: Global, out: &mut String, count: u32) -> Result<(), AllocError>
    ensures { OnOk result (string_bytes out.new ≡ string_bytes out.old ++ block_member count) }
{
    if count == 0 {
        return Ok(());
    }
    if count == 1 {
        return push_text(out, "            destination: block0\n");
    }
    let names = numbered_names(alloc, "block", count)?;
    push_array(out, "blocks", names.as_str())
}

/// Adds the member for the block without arguments, if there is one.
#[tactic(auto, unfolding(crate::specs::Constructor::raw_block_member))]
fn push_raw_block_member(out: &mut String, count: u32) -> Result<(), AllocError>
    ensures { OnOk result (string_bytes out.new ≡ string_bytes out.old ++ raw_block_member count) }
{
    if count == 1 {
        return push_member(out, "block: block0");
    }
    Ok(())
}

/// The members after the opcode (`gen_member_inits` of `gen_inst.rs`).
#[tactic(auto, unfolding(crate::specs::Constructor::members_text))]
fn members(alloc: Global, format: &InstructionFormat) -> Result<String, AllocError>
    ensures { IfOk result (λ text. string_bytes text ≡ members_text format.now) }
{
    let mut text = String::new(alloc);
    push_field_members(&mut text, format.imm_fields.as_slice())?;
    push_value_member(
        alloc,
        &mut text,
        format.has_value_list,
        format.num_value_operands,
    )?;
    push_block_member(alloc, &mut text, format.num_block_operands)?;
    push_raw_block_member(&mut text, format.num_raw_block_operands)?;
    Ok(text)
}

/// Whether a field holds a number of 64 bits, which has to be masked.
fn needs_masking(fields: &[FormatField]) -> bool
    ensures { result ≡ needs_masking fields.now }
{
    fields
        .iter()
        .any(|f| f.kind.rust_type.as_str() == "ir::immediates::Imm64")
}

fn mut_mark(masked: bool) -> &'static str
    ensures { result.now ≡ mut_mark masked }
{
    if masked {
        return " mut";
    }
    ""
}

fn masking(masked: bool) -> &'static str
    ensures { result.now ≡ masking_text masked }
{
    if masked {
        return "        data.mask_immediates(ctrl_typevar);\n";
    }
    ""
}

#[tactic(auto, using(crate::proofs::ConstructorTemplates::constructor_same))]
fn push_whole(
    out: &mut String,
    name: &str,
    displayed: &str,
    arguments: &str,
    mark: &str,
    members: &str,
    masking: &str,
) -> Result<(), AllocError>
    ensures { OnOk result (string_bytes out.new ≡ string_bytes out.old
        ++ constructor_with name.now displayed.now arguments.now mark.now members.now masking.now) }
{
    fill(
        out,
        CONSTRUCTOR,
        &CONSTRUCTOR_HOLES,
        &[name, displayed, arguments, mark, members, masking],
    )
}

/// Adds the constructor of a format, without an empty line around it, as `gen_format_constructor` of the crate's `gen_inst.rs` writes it.
#[tactic(auto, unfolding(crate::specs::Constructor::constructor_text))]
pub(crate) fn push_constructor(
    alloc: Global,
    out: &mut String,
    format: &InstructionFormat,
) -> Result<(), AllocError>
    ensures { OnOk result (string_bytes out.new ≡ string_bytes out.old ++ constructor_text format.now) }
{
    let displayed = format.to_string(alloc)?;
    let arguments = constructor_arguments(alloc, format)?;
    let members = members(alloc, format)?;
    let masked = needs_masking(format.imm_fields.as_slice());
    push_whole(
        out,
        format.name.as_str(),
        displayed.as_str(),
        arguments.as_str(),
        mut_mark(masked),
        members.as_str(),
        masking(masked),
    )
}
