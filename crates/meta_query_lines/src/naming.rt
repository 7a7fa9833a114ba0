ghost use Rattle.std.specs.Prelude.{◌≡◌, ◌↔◌, ◌++◌, ℕ, List, IsTrue, IfOk, IfSome, IfNone, OnOk, map, string_bytes, None};
ghost use Rattle.std.specs.Option.{option_map};
ghost use Rattle.meta_gen.specs.Contents.{IsOpcode};
ghost use Rattle.meta_explain.specs.Listed.{AreListed, IsLess};
ghost use Rattle.meta_query_lines.specs.SettingLine.{list_of_names};
ghost use Rattle.meta_query_lines.specs.Explanation.{opcode_text, AreNamesOf, AreOfFormat, AreOfWord, AreNames, mark_named, IsMarked};
ghost use Rattle.meta_query_lines.specs.NamesOf.{IsListedBy};
ghost use Rattle.meta_query_lines.specs.Told.{told_by};

use super::finding::push_opcode;
use super::listed::{push_comma, push_dash, push_text};
use super::told::{has_mark, instruction_at};
use meta_file_syntax::Property;
use meta_gen::{OpcodeTables, Reply};
use meta_inst::InstructionContent;
use std::alloc::{AllocError, Global};

/// Which opcodes are listed.
#[derive(Clone, Copy)]
pub(crate) enum NamesOf<'a> {
    All,
    Marked(Option<&'a [InstructionContent]>, Property),
    OfFormat(&'a [u8]),
}

fn is_marked(told: Option<&[InstructionContent]>, mark: Property, opcode: u16) -> bool
    ensures { IsTrue result ↔ IsMarked (told_by told.entry) mark opcode }
{
    match instruction_at(told, opcode) {
        Some(instruction) => has_mark(instruction, mark),
        None => false,
    }
}

fn is_listed(tables: &OpcodeTables, names: NamesOf<'_>, opcode: u16) -> bool
    requires { IsOpcode tables.now opcode }
    ensures { IsTrue result ↔ IsListedBy tables.now names.entry opcode }
{
    match names {
        NamesOf::All => true,
        NamesOf::Marked(told, mark) => is_marked(told, mark, opcode),
        NamesOf::OfFormat(name) => match tables.opcode_format(opcode) {
            Some(format) => format.as_bytes() == name,
            None => false,
        },
    }
}

/// The opcodes that are listed, in order.
fn opcodes_listed(
    alloc: Global,
    tables: &OpcodeTables,
    names: NamesOf<'_>,
) -> Result<Vec<u16>, AllocError>
    ensures { IfOk result (λ v. AreListed IsLess (IsListedBy tables.now names.entry) v.items) }
{
    let mut opcodes = Vec::new(alloc);
    for before in 0..tables.opcode_count() {
        if is_listed(tables, names, before + 1) {
            opcodes.push(before + 1)?;
        }
    }
    Ok(opcodes)
}

/// Adds the names of opcodes, as a list.
fn push_opcodes(out: &mut String, tables: &OpcodeTables, opcodes: &[u16]) -> Result<(), AllocError>
    ensures { OnOk result (string_bytes out.new ≡ string_bytes out.old ++ list_of_names (map (opcode_text tables.now) opcodes.now)) }
{
    for k in 0..opcodes.len() {
        push_comma(out, k)?;
        push_opcode(out, tables, opcodes[k])?;
    }
    push_dash(out, opcodes.len())
}

fn push_listed(
    alloc: Global,
    out: &mut String,
    tables: &OpcodeTables,
    names: NamesOf<'_>,
) -> Result<(), AllocError>
    ensures { OnOk result ((text : List ℕ) × AreNamesOf tables.now (IsListedBy tables.now names.entry) text
        × (string_bytes out.new ≡ string_bytes out.old ++ text)) }
{
    let opcodes = opcodes_listed(alloc, tables, names)?;
    push_opcodes(out, tables, &opcodes)
}

fn push_of_format(
    alloc: Global,
    out: &mut String,
    tables: &OpcodeTables,
    name: &[u8],
) -> Result<(), AllocError>
    ensures { OnOk result ((text : List ℕ) × AreOfFormat tables.now name.now text
        × (string_bytes out.new ≡ string_bytes out.old ++ text)) }
{
    let opcodes = opcodes_listed(alloc, tables, NamesOf::OfFormat(name))?;
    let listed = opcodes.as_slice();
    if listed.is_empty() {
        return push_text(out, &Reply::Unknown);
    }
    push_opcodes(out, tables, listed)
}

/// The mark that a name is. `None` also if the instructions aren't known.
fn mark_named(told: Option<&[InstructionContent]>, name: &[u8]) -> Option<Property>
    ensures { result ≡ mark_named (told_by told.entry) name.now }
{
    match told {
        Some(_) => Property::of(name),
        None => None,
    }
}

/// Adds the names of all instructions, or of those that have the mark or the format of the name.
pub(crate) fn push_names(
    alloc: Global,
    out: &mut String,
    tables: &OpcodeTables,
    told: Option<&[InstructionContent]>,
    name: Option<&[u8]>,
) -> Result<(), AllocError>
    ensures { OnOk result ((text : List ℕ)
        × AreNames tables.now (told_by told.entry) (option_map (λ name. name.now) name.entry) text
        × (string_bytes out.new ≡ string_bytes out.old ++ text)) }
{
    let Some(name) = name else {
        return push_listed(alloc, out, tables, NamesOf::All);
    };
    match mark_named(told, name) {
        Some(mark) => push_listed(alloc, out, tables, NamesOf::Marked(told, mark)),
        None => push_of_format(alloc, out, tables, name),
    }
}
