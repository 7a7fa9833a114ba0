ghost use Rattle.std.specs.Prelude.{◌≡◌, ◌++◌, IfOk, OnOk, map, string_bytes};
ghost use Rattle.std.specs.List.{flat_map};
ghost use Rattle.meta_rust_insts.specs.DataText.{values_text, blocks_text, members_text};
ghost use Rattle.meta_rust_insts.specs.DataText.{variant_text, data_text};

use super::formats::formats_in_use;
use super::held::{Values, raw_block_member, values_of};
use super::members::push_member;
use meta_build::Built;
use meta_operands::InstructionFormat;
use meta_text::{fill, push_text};
use std::alloc::{AllocError, Global};

/// The enum of the data of instructions (`gen_instruction_data`).
const DATA: &str = "#[derive(Copy, Clone, Debug, PartialEq, Eq, Hash)]
#[allow(missing_docs, reason = \"generated code\")]
pub enum InstructionData {
$variants$}

";

const DATA_HOLES: [&str; 1] = ["variants"];

const VARIANT: &str = "    $name$ {
        opcode: Opcode,
$members$    }
    ,
";

const VARIANT_HOLES: [&str; 2] = ["name", "members"];

/// The member for a block without arguments.
const RAW_BLOCK: &str = "        $member$: ir::Block,\n";

fn push_values(out: &mut String, values: Values) -> Result<(), AllocError>
    ensures { OnOk result (string_bytes out.new ≡ string_bytes out.old ++ values_text values) }
{
    match values {
        Values::Absent => Ok(()),
        Values::One => push_text(out, "        arg: Value,\n"),
        Values::Several(count) => write!(out, "        args: [Value; {count}],\n"),
        Values::Listed => push_text(out, "        args: ValueList,\n"),
    }
}

#[tactic(auto, unfolding(crate::specs::DataText::blocks_text))]
fn push_blocks(out: &mut String, count: u32) -> Result<(), AllocError>
    ensures { OnOk result (string_bytes out.new ≡ string_bytes out.old ++ blocks_text count) }
{
    match count {
        0 => Ok(()),
        1 => push_text(out, "        destination: ir::BlockCall,\n"),
        _ => write!(out, "        blocks: [ir::BlockCall; {count}],\n"),
    }
}

/// The members of the variant of a format after its opcode.
#[tactic(auto, unfolding(crate::specs::DataText::field_line))]
fn members(alloc: Global, format: &InstructionFormat) -> Result<String, AllocError>
    ensures { IfOk result (λ text. string_bytes text ≡ members_text format.now) }
{
    let fields = format.imm_fields.as_slice();
    let mut text = String::new(alloc);
    push_values(&mut text, values_of(format))?;
    push_blocks(&mut text, format.num_block_operands)?;
    push_member(&mut text, RAW_BLOCK, raw_block_member(format))?;
    for field in fields {
        let (name, rust_type) = (field.member.as_str(), field.kind.rust_type.as_str());
        write!(&mut text, "        {name}: {rust_type},\n")?;
    }
    Ok(text)
}

#[tactic(auto, using(crate::proofs::EnumTemplates::variant_steps))]
fn variants(alloc: Global, formats: &[&InstructionFormat]) -> Result<String, AllocError>
    ensures { IfOk result (λ text. string_bytes text ≡ flat_map variant_text (map (λ f. f.now) formats.now)) }
{
    let mut text = String::new(alloc);
    for format in formats {
        let members = members(alloc, format)?;
        fill(
            &mut text,
            VARIANT,
            &VARIANT_HOLES,
            &[format.name.as_str(), members.as_str()],
        )?;
    }
    Ok(text)
}

/// Adds the text of the data of instructions: the enum `InstructionData`, with a variant for each format in use, by their names. The text
/// ends with an empty line, which separates the enum from its implementation. It is that of `gen_instruction_data` of the crate's
/// `gen_inst.rs`.
pub fn push_data(alloc: Global, out: &mut String, built: &Built<'_>) -> Result<(), AllocError>
    ensures { OnOk result (string_bytes out.new ≡ string_bytes out.old ++ data_text built.now) }
{
    let formats = formats_in_use(alloc, built)?;
    let variants = variants(alloc, formats.as_slice())?;
    fill(out, DATA, &DATA_HOLES, &[variants.as_str()])
}
