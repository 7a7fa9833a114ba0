ghost use Rattle.std.specs.Prelude.{◌≡◌, ◌++◌, ℕ, true, false, List, map, slice_get, string_bytes, IfOk, OnOk, Some};
ghost use Rattle.meta_query_lines.specs.SettingLine.{BoolFacts, NumFacts, EnumFacts, PresetFacts, line_of_facts, list_of_names};
ghost use Rattle.meta_query_lines.specs.SettingLine.{first_name_of};
ghost use Rattle.meta_query_lines.specs.SettingLine.{line_in};
ghost use Rattle.meta_query_lines.specs.Answer.{IsLineInTables, SettingReply};
ghost use Rattle.meta_gen.specs.declared.reply.Reply.TheVariants.{Unknown};

use meta_gen::Tables;
use meta_setting_tables::{Descriptor, Detail, GroupTables};
use meta_types::Text;
use std::alloc::{AllocError, Global};

/// The names, separated by commas, or `-` if there are no names.
fn listed(alloc: Global, names: &[&str]) -> Result<String, AllocError>
    ensures { IfOk result (λ t. string_bytes t ≡ list_of_names (map (λ name. name.now) names.now)) }
{
    if names.is_empty() {
        return String::from_str(alloc, "-");
    }
    names.join(alloc, ",")
}

fn push_bool_line(
    out: &mut String,
    entry: &Descriptor,
    bit: u8,
    default: bool,
) -> Result<(), AllocError>
    ensures { OnOk result (string_bytes out.new ≡ string_bytes out.old ++ line_of_facts entry.now.name
        (BoolFacts entry.now.offset bit default)) }
{
    let (name, byte) = (entry.name.as_str(), entry.offset);
    write!(out, "{name} bool byte {byte} bit {bit} default {default}")
}

fn push_num_line(out: &mut String, entry: &Descriptor, default: u8) -> Result<(), AllocError>
    ensures { OnOk result (string_bytes out.new ≡ string_bytes out.old ++ line_of_facts entry.now.name
        (NumFacts entry.now.offset default)) }
{
    let (name, byte) = (entry.name.as_str(), entry.offset);
    write!(out, "{name} num byte {byte} default {default}")
}

fn strs_of(alloc: Global, texts: &[Text]) -> Result<Vec<&str>, AllocError>
    ensures { IfOk result (λ v. map (λ text. text.now) v.items ≡ texts.now) }
{
    let mut strs = Vec::with_capacity(alloc, texts.len())?;
    for text in texts {
        strs.push(text.as_str())?;
    }
    Ok(strs)
}

/// The first of the texts. It is empty if there are no texts.
fn first_of(texts: &[Text]) -> &str
    ensures { result.now ≡ first_name_of texts.now }
{
    match texts {
        [first, ..] => first.as_str(),
        [] => "",
    }
}

fn push_enum_line(
    alloc: Global,
    out: &mut String,
    entry: &Descriptor,
    values: &[Text],
) -> Result<(), AllocError>
    ensures { OnOk result (string_bytes out.new ≡ string_bytes out.old ++ line_of_facts entry.now.name
        (EnumFacts entry.now.offset values.now)) }
{
    let (name, byte) = (entry.name.as_str(), entry.offset);
    let default = first_of(values);
    let strs = strs_of(alloc, values)?;
    let all = listed(alloc, strs.as_slice())?;
    let all = all.as_str();
    write!(
        out,
        "{name} enum byte {byte} default {default} values {all}"
    )
}

fn push_preset_line(
    alloc: Global,
    out: &mut String,
    entry: &Descriptor,
    names: &[&str],
) -> Result<(), AllocError>
    ensures { OnOk result (string_bytes out.new ≡ string_bytes out.old ++ line_of_facts entry.now.name
        (PresetFacts (map (λ name. name.now) names.now))) }
{
    let name = entry.name.as_str();
    let names = listed(alloc, names)?;
    let names = names.as_str();
    write!(out, "{name} preset enables {names}")
}

fn push_line_of(
    alloc: Global,
    out: &mut String,
    group: &GroupTables,
    number: u16,
    entry: &Descriptor,
) -> Result<(), AllocError>
    ensures { slice_get group.now.descriptors number ≡ Some entry.now
        → OnOk result (string_bytes out.new ≡ string_bytes out.old ++ line_in group.now entry.now) }
{
    let default = group.default_value(number).unwrap_or(0);
    match entry.detail {
        Detail::Bool { bit } => push_bool_line(out, entry, bit, default == 1),
        Detail::Enum { .. } => push_enum_line(alloc, out, entry, group.values(number)),
        Detail::Num => push_num_line(out, entry, default),
        Detail::Preset => {
            let names = group.names_on(alloc, number)?;
            push_preset_line(alloc, out, entry, names.as_slice())
        }
    }
}

/// Adds the line of the entry of group 0 that has the name. It answers false, and adds nothing, exactly if no entry has the name or there
/// is no such group.
pub(crate) fn push_setting_line(
    alloc: Global,
    out: &mut String,
    tables: &Tables,
    name: &[u8],
) -> Result<bool, AllocError>
    ensures found { IfOk result (λ there. there ≡ true → (line : List ℕ) × IsLineInTables tables.now name.now line
        × (string_bytes out.new ≡ string_bytes out.old ++ line)) }
    ensures none { IfOk result (λ there. there ≡ false → SettingReply tables.now name.now Unknown) }
    ensures kept { IfOk result (λ there. there ≡ false → string_bytes out.new ≡ string_bytes out.old) }
{
    let Some(group) = tables.group(0) else {
        return Ok(false);
    };
    let Some(number) = group.find_setting(name) else {
        return Ok(false);
    };
    let Some(entry) = group.descriptor(number) else {
        return Ok(false);
    };
    push_line_of(alloc, out, group, number, entry)?;
    Ok(true)
}
