ghost use Rattle.std.specs.Prelude.{◌≡◌, ◌++◌, OnOk, slice_get};
ghost use Rattle.std.specs.List.{flat_map};
ghost use Rattle.meta_rust_names.specs.Known.{known};
ghost use Rattle.meta_rust_names.specs.Formats.{format_name_why, of_format, format_refused};

use super::fields::push_fields;
use super::methods::is_base_method;
use super::names::Names;
use super::refused::{Part, RefusedName, Why, push_refused};
use super::words::is_keyword;
use meta_operands::{FormatId, FormatTable, InstructionFormat};
use meta_types::Place;
use std::alloc::{AllocError, Global};

/// Why a format can't have the name, where these are the methods of the instructions and those that take an immediate.
#[tactic(auto, unfolding(crate::specs::Formats::format_name_why))]
fn format_name_why(methods: &Names, imm_methods: &Names, name: &str) -> Option<Why>
    ensures { result ≡ format_name_why (known methods.now) (known imm_methods.now) name.now }
{
    if is_keyword(name.as_bytes()) {
        return Some(Why::Keyword);
    }
    if is_base_method(name.as_bytes()) {
        return Some(Why::FixedMethod);
    }
    if name == "from" {
        return Some(Why::FixedMethod);
    }
    if methods.has(name) {
        return Some(Why::InstructionMethod);
    }
    if imm_methods.has(name) {
        return Some(Why::ImmMethod);
    }
    None
}

#[tactic(auto, unfolding(crate::specs::Formats::of_format))]
fn push_format(
    alloc: Global,
    out: &mut Vec<RefusedName>,
    methods: &Names,
    imm_methods: &Names,
    format: &InstructionFormat,
    place: Place,
) -> Result<(), AllocError>
    ensures { OnOk result (out.new.items ≡ out.old.items ++ of_format (known methods.now) (known imm_methods.now) format.now place) }
{
    let why = format_name_why(methods, imm_methods, format.name.as_str());
    push_refused(out, place, Part::Name, why)?;
    push_fields(alloc, out, format, format.imm_fields.as_slice(), place)
}

#[tactic(auto, unfolding(crate::specs::Formats::format_refused))]
fn push_format_at(
    alloc: Global,
    out: &mut Vec<RefusedName>,
    methods: &Names,
    imm_methods: &Names,
    formats: &FormatTable,
    id: FormatId,
) -> Result<(), AllocError>
    ensures { OnOk result (out.new.items ≡ out.old.items ++ format_refused (known methods.now) (known imm_methods.now) formats.now id) }
{
    if !formats.is_of(id) {
        return Ok(());
    }
    let place = Place::Format(u64::from(id.number()));
    push_format(alloc, out, methods, imm_methods, formats.get(id), place)
}

pub(crate) fn push_formats(
    alloc: Global,
    out: &mut Vec<RefusedName>,
    methods: &Names,
    imm_methods: &Names,
    formats: &FormatTable,
    ids: &[FormatId],
) -> Result<(), AllocError>
    ensures { OnOk result (out.new.items ≡ out.old.items
        ++ flat_map (format_refused (known methods.now) (known imm_methods.now) formats.now) ids.now) }
{
    for id in ids {
        push_format_at(alloc, out, methods, imm_methods, formats, *id)?;
    }
    Ok(())
}
