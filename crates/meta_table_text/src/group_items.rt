ghost use Rattle.std.specs.Prelude.{◌≡◌, ◌++◌, OnOk, IfOk, string_bytes};
ghost use Rattle.meta_table_text.specs.GroupItems.{descriptor_text, slot_text, pair_text, hex_text, bytes_text, template_text};

use meta_setting_tables::{Descriptor, Detail};
use std::alloc::{AllocError, Global};
use std::fmt;

/// The kind of an entry, with its numbers, as the text has it.
#[derive(Clone, Copy)]
struct DetailText(Detail);

impl fmt::Display for DetailText {
    ghost use Rattle.std.specs.Prelude.{Some};
    ghost use Rattle.meta_table_text.specs.GroupItems.{detail_text};

    ghost output = { λ d. Some (detail_text d.0) };

    fn fmt<W: fmt::Write>(&self, f: &mut fmt::Formatter<W>) -> fmt::Result {
        match self.0 {
            Detail::Bool { bit } => write!(f, "detail::Detail::Bool {{ bit: {bit} }}"),
            Detail::Enum { last, enumerators } => write!(
                f,
                "detail::Detail::Enum {{ last: {last}, enumerators: {enumerators} }}"
            ),
            Detail::Num => write!(f, "detail::Detail::Num"),
            Detail::Preset => write!(f, "detail::Detail::Preset"),
        }
    }
}

#[tactic(auto, unfolding(crate::specs::GroupItems::descriptor_block))]
pub(crate) fn push_descriptor(out: &mut String, entry: &Descriptor) -> Result<(), AllocError>
    ensures { OnOk result (string_bytes out.new ≡ string_bytes out.old ++ descriptor_text entry.now) }
{
    let (name, description) = (entry.name.as_str(), entry.description.as_str());
    let (offset, detail) = (entry.offset, DetailText(entry.detail));
    write!(
        out,
        "    detail::Descriptor {{
        name: \"{name}\",
        description: \"{description}\",
        offset: {offset},
        detail: {detail},
    }}
    ,
"
    )
}

#[tactic(auto, unfolding(crate::specs::GroupItems::slot_text))]
pub(crate) fn push_slot(out: &mut String, slot: Option<u16>) -> Result<(), AllocError>
    ensures { OnOk result (string_bytes out.new ≡ string_bytes out.old ++ slot_text slot) }
{
    match slot {
        Some(number) => write!(out, "    {number},\n"),
        None => out.push_str("    0xffff,\n"),
    }
}

/// Adds the mask and the value of a preset in a setting byte. They are equal.
#[tactic(auto, unfolding(crate::specs::GroupItems::pair_text), using(crate::proofs::GroupDigits::binary_byte))]
pub(crate) fn push_pair(out: &mut String, mask: u8) -> Result<(), AllocError>
    ensures { OnOk result (string_bytes out.new ≡ string_bytes out.old ++ pair_text mask) }
{
    write!(out, "    (0b{mask:08b}, 0b{mask:08b}),\n")
}

/// Adds a byte as `0x` and two hexadecimal digits.
#[tactic(auto, using(std::proofs::lemmas::Fmt::hex_byte))]
pub(crate) fn push_hex(out: &mut String, byte: u8) -> Result<(), AllocError>
    ensures { OnOk result (string_bytes out.new ≡ string_bytes out.old ++ hex_text byte) }
{
    write!(out, "0x{byte:02x}")
}

/// The text of bytes as hexadecimal digits, separated by a comma and a space.
fn hex_bytes(alloc: Global, bytes: &[u8]) -> Result<String, AllocError>
    ensures { IfOk result (λ text. string_bytes text ≡ bytes_text bytes.now) }
{
    let mut text = String::new(alloc);
    let [first, rest @ ..] = bytes else {
        return Ok(text);
    };
    push_hex(&mut text, *first)?;
    for byte in rest {
        text.push_str(", ")?;
        push_hex(&mut text, *byte)?;
    }
    Ok(text)
}

#[tactic(auto, unfolding(crate::specs::GroupItems::template_text))]
pub(crate) fn push_template(
    alloc: Global,
    out: &mut String,
    name: &str,
    defaults: &[u8],
) -> Result<(), AllocError>
    ensures { OnOk result (string_bytes out.new ≡ string_bytes out.old ++ template_text name.now (bytes_text defaults.now)) }
{
    let shown = hex_bytes(alloc, defaults)?;
    let defaults = shown.as_str();
    write!(
        out,
        "static TEMPLATE: detail::Template = detail::Template {{
    name: \"{name}\",
    descriptors: &DESCRIPTORS,
    enumerators: &ENUMERATORS,
    hash_table: &HASH_TABLE,
    defaults: &[{defaults}],
    presets: &PRESETS,
}}
;
"
    )
}
