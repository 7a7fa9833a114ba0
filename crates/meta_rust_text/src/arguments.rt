ghost use Rattle.std.specs.Prelude.{◌≡◌, ◌++◌, IfOk, OnOk, string_bytes};
ghost use Rattle.std.specs.Fmt.{decimal};
ghost use Rattle.meta_rust_text.specs.Arguments.{argument_text, numbered_argument, numbered_arguments, field_arguments};
ghost use Rattle.meta_rust_text.specs.Arguments.{numbered_names, value_arguments, constructor_arguments};

use meta_operands::{FormatField, InstructionFormat};
use std::alloc::{AllocError, Global};

#[tactic(auto, unfolding(crate::specs::Arguments::argument_text))]
pub(crate) fn push_argument(out: &mut String, name: &str, ty: &str) -> Result<(), AllocError>
    ensures { OnOk result (string_bytes out.new ≡ string_bytes out.old ++ argument_text name.now ty.now) }
{
    write!(out, ", {name}: {ty}")
}

#[tactic(auto, unfolding(crate::specs::Arguments::numbered_argument))]
fn push_numbered_argument(
    out: &mut String,
    stem: &str,
    ty: &str,
    number: u32,
) -> Result<(), AllocError>
    ensures { OnOk result (string_bytes out.new ≡ string_bytes out.old ++ numbered_argument stem.now ty.now number) }
{
    write!(out, ", {stem}{number}: {ty}")
}

/// Adds `count` arguments of one type, numbered from 0.
#[tactic(auto, unfolding(crate::specs::Arguments::numbered_arguments))]
fn push_numbered_arguments(
    out: &mut String,
    stem: &str,
    ty: &str,
    count: u32,
) -> Result<(), AllocError>
    ensures { OnOk result (string_bytes out.new ≡ string_bytes out.old ++ numbered_arguments stem.now ty.now count) }
{
    for number in 0..count {
        push_numbered_argument(out, stem, ty, number)?;
    }
    Ok(())
}

#[tactic(auto, unfolding(crate::specs::Arguments::field_arguments))]
fn push_field_arguments(out: &mut String, fields: &[FormatField]) -> Result<(), AllocError>
    ensures { OnOk result (string_bytes out.new ≡ string_bytes out.old ++ field_arguments fields.now) }
{
    for field in fields {
        push_argument(out, field.member.as_str(), field.kind.rust_type.as_str())?;
    }
    Ok(())
}

/// Adds the arguments for the values: one list, or one argument for each value.
#[tactic(auto, unfolding(crate::specs::Arguments::value_arguments))]
fn push_value_arguments(
    out: &mut String,
    has_value_list: bool,
    count: u32,
) -> Result<(), AllocError>
    ensures { OnOk result (string_bytes out.new ≡ string_bytes out.old ++ value_arguments has_value_list count) }
{
    if has_value_list {
        return push_argument(out, "args", "ir::ValueList");
    }
    push_numbered_arguments(out, "arg", "Value", count)
}

/// The arguments of the constructor of a format after the first three, each after a comma and a space.
#[tactic(auto, unfolding(crate::specs::Arguments::constructor_arguments))]
pub(crate) fn constructor_arguments(
    alloc: Global,
    format: &InstructionFormat,
) -> Result<String, AllocError>
    ensures { IfOk result (λ text. string_bytes text ≡ constructor_arguments format.now) }
{
    let mut text = String::new(alloc);
    push_numbered_arguments(
        &mut text,
        "block",
        "ir::Block",
        format.num_raw_block_operands,
    )?;
    push_field_arguments(&mut text, format.imm_fields.as_slice())?;
    push_numbered_arguments(
        &mut text,
        "block",
        "ir::BlockCall",
        format.num_block_operands,
    )?;
    push_value_arguments(&mut text, format.has_value_list, format.num_value_operands)?;
    Ok(text)
}

fn push_numbered_name(out: &mut String, stem: &str, number: u32) -> Result<(), AllocError>
    ensures { OnOk result (string_bytes out.new ≡ string_bytes out.old ++ (stem.now ++ decimal number)) }
{
    write!(out, "{stem}{number}")
}

/// The names that are the stem and a number, from 0, `count` of them, separated by a comma and a space.
#[tactic(auto, unfolding(crate::specs::Arguments::numbered_names))]
pub(crate) fn numbered_names(alloc: Global, stem: &str, count: u32) -> Result<String, AllocError>
    ensures { IfOk result (λ text. string_bytes text ≡ numbered_names stem.now count) }
{
    let mut text = String::new(alloc);
    if count == 0 {
        return Ok(text);
    }
    push_numbered_name(&mut text, stem, 0)?;
    for number in 1..count {
        text.push_str(", ")?;
        push_numbered_name(&mut text, stem, number)?;
    }
    Ok(text)
}
