ghost use Rattle.std.specs.Prelude.{◌≡◌, ◌++◌, OnOk, string_bytes};
ghost use Rattle.meta_table_text.specs.OpcodeText.{slot_line};
ghost use Rattle.meta_table_text.specs.TableText.{formats_part, slots_part, sets_list, sets_part, constraints_part, entries_part, opcodes_text};

use super::constraint_text::push_constraint;
use super::opcode_block::{camel_of, format_of, name_of, push_opcode};
use super::table_list::{TableList, push_list};
use super::type_set_text::push_set;
use super::version::Version;
use meta_gen::Tables;
use std::alloc::{AllocError, Global};

#[tactic(auto, unfolding(crate::specs::OpcodeText::format_line))]
fn push_formats(alloc: Global, out: &mut String, tables: &Tables) -> Result<(), AllocError>
    ensures { OnOk result (string_bytes out.new ≡ string_bytes out.old ++ formats_part tables.now.opcodes) }
{
    let mut lines = String::new(alloc);
    let count = tables.opcode_count();
    for before in 0..count {
        let (format, name) = (format_of(tables, before + 1), name_of(tables, before + 1));
        write!(&mut lines, "    InstructionFormat::{format}, // {name}\n")?;
    }
    push_list(out, TableList::Formats, count as usize, lines.as_str())
}

#[tactic(auto, unfolding(crate::specs::OpcodeText::slot_line))]
fn push_slot(
    alloc: Global,
    out: &mut String,
    tables: &Tables,
    slot: Option<u16>,
) -> Result<(), AllocError>
    ensures { OnOk result (string_bytes out.new ≡ string_bytes out.old ++ slot_line tables.now.opcodes slot) }
{
    let Some(opcode) = slot else {
        return out.push_str("    None,\n");
    };
    let camel = camel_of(alloc, tables, opcode)?;
    let name = camel.as_str();
    write!(out, "    Some(Opcode::{name}),\n")
}

fn push_slots(alloc: Global, out: &mut String, tables: &Tables) -> Result<(), AllocError>
    ensures { OnOk result (string_bytes out.new ≡ string_bytes out.old ++ slots_part tables.now.opcodes) }
{
    let mut lines = String::new(alloc);
    let slots = tables.opcode_slots();
    for slot in slots {
        push_slot(alloc, &mut lines, tables, *slot)?;
    }
    push_list(out, TableList::OpcodeSlots, slots.len(), lines.as_str())
}

fn push_sets_list(alloc: Global, out: &mut String, tables: &Tables) -> Result<(), AllocError>
    ensures { OnOk result (string_bytes out.new ≡ string_bytes out.old ++ sets_list tables.now.opcodes) }
{
    let sets = tables.type_sets();
    let mut lines = String::new(alloc);
    for set in sets {
        push_set(&mut lines, set)?;
    }
    push_list(out, TableList::TypeSets, sets.len(), lines.as_str())
}

/// Adds the list of the type sets, if there are any.
#[tactic(auto, unfolding(crate::specs::TableText::sets_part))]
fn push_sets(alloc: Global, out: &mut String, tables: &Tables) -> Result<(), AllocError>
    ensures { OnOk result (string_bytes out.new ≡ string_bytes out.old ++ sets_part tables.now.opcodes) }
{
    if tables.type_sets().is_empty() {
        return Ok(());
    }
    push_sets_list(alloc, out, tables)
}

fn push_constraints(alloc: Global, out: &mut String, tables: &Tables) -> Result<(), AllocError>
    ensures { OnOk result (string_bytes out.new ≡ string_bytes out.old ++ constraints_part tables.now.opcodes) }
{
    let mut lines = String::new(alloc);
    let constraints = tables.operand_constraints();
    for constraint in constraints {
        push_constraint(alloc, &mut lines, *constraint)?;
    }
    push_list(
        out,
        TableList::Constraints,
        constraints.len(),
        lines.as_str(),
    )
}

/// Adds the list of the four numbers of each opcode.
fn push_entries(
    alloc: Global,
    out: &mut String,
    version: Version,
    tables: &Tables,
) -> Result<(), AllocError>
    ensures { OnOk result (string_bytes out.new ≡ string_bytes out.old ++ entries_part version tables.now.opcodes) }
{
    let mut lines = String::new(alloc);
    let count = tables.opcode_count();
    for before in 0..count {
        push_opcode(alloc, &mut lines, version, tables, before + 1)?;
    }
    push_list(out, TableList::Entries, count as usize, lines.as_str())
}

pub(crate) fn push_opcodes(
    alloc: Global,
    out: &mut String,
    version: Version,
    tables: &Tables,
) -> Result<(), AllocError>
    ensures { OnOk result (string_bytes out.new ≡ string_bytes out.old ++ opcodes_text version tables.now.opcodes) }
{
    let number = version.number();
    write!(out, "// Table text version {number}.\n")?;
    push_formats(alloc, out, tables)?;
    push_slots(alloc, out, tables)?;
    push_sets(alloc, out, tables)?;
    push_constraints(alloc, out, tables)?;
    push_entries(alloc, out, version, tables)
}
