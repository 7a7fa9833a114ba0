ghost use Rattle.std.specs.Prelude.{◌≡◌, ◌++◌, OnOk, IfOk, map, string_bytes};
ghost use Rattle.meta_gen.specs.Constraint.{number_constraint_of, entry_of};
ghost use Rattle.meta_gen.specs.Contents.{IsOpcode};
ghost use Rattle.meta_table_text.specs.OpcodeText.{name_at, format_at, camel_at, place_line, second_line, entry_fields, flags_comment};
ghost use Rattle.meta_table_text.specs.OpcodeText.{constraints_of, control_comment, entry_comments, opcode_block};

use super::constraint_text::push_constraints_comment;
use super::group_items::push_hex;
use super::type_set_text::push_set_comment;
use super::version::Version;
use meta_gen::{Constraint, NO_TYPE_SET, OpcodeConstraints, Tables, constraints_from};
use meta_types::{Text, camel_case};
use std::alloc::{AllocError, Global};

/// The name of an opcode. It is empty if the number isn't that of an opcode.
pub(crate) fn name_of(tables: &Tables, opcode: u16) -> &str
    ensures { result.now ≡ name_at tables.now.opcodes opcode }
{
    match tables.opcode_name(opcode) {
        Some(name) => name.as_str(),
        None => "",
    }
}

/// The name of the format of an opcode. It is empty if the number isn't that of an opcode.
pub(crate) fn format_of(tables: &Tables, opcode: u16) -> &str
    ensures { result.now ≡ format_at tables.now.opcodes opcode }
{
    match tables.opcode_format(opcode) {
        Some(name) => name.as_str(),
        None => "",
    }
}

/// The camel case of the name of an opcode. It is empty if the number isn't that of an opcode.
#[tactic(auto, unfolding(crate::specs::OpcodeText::camel_at))]
pub(crate) fn camel_of(alloc: Global, tables: &Tables, opcode: u16) -> Result<Text, AllocError>
    ensures { IfOk result (λ t. t ≡ camel_at tables.now.opcodes opcode) }
{
    match tables.opcode_name(opcode) {
        Some(name) => camel_case(alloc, name),
        None => Text::new(alloc, ""),
    }
}

#[tactic(auto, unfolding(crate::specs::OpcodeText::place_line))]
fn push_place(out: &mut String, field: &str, place: u16) -> Result<(), AllocError>
    ensures { OnOk result (string_bytes out.new ≡ string_bytes out.old ++ place_line field.now place) }
{
    write!(out, "        {field}: {place},\n")
}

/// Adds the line with the place of the second control's type set, if the version has this line.
#[tactic(auto, unfolding(crate::specs::OpcodeText::second_line))]
fn push_second(
    out: &mut String,
    version: Version,
    entry: OpcodeConstraints,
) -> Result<(), AllocError>
    ensures { OnOk result (string_bytes out.new ≡ string_bytes out.old ++ second_line version (entry_of entry)) }
{
    match version {
        Version::One => Ok(()),
        Version::Two | Version::Three => {
            push_place(out, "second_offset", version.shown(entry.second_offset))
        }
    }
}

#[tactic(auto, unfolding(crate::specs::OpcodeText::entry_fields))]
fn push_fields(
    out: &mut String,
    version: Version,
    entry: OpcodeConstraints,
) -> Result<(), AllocError>
    ensures { OnOk result (string_bytes out.new ≡ string_bytes out.old ++ entry_fields version (entry_of entry)) }
{
    out.push_str("    OpcodeConstraints {\n        flags: ")?;
    push_hex(out, entry.flags)?;
    out.push_str(",\n")?;
    push_place(out, "typeset_offset", version.shown(entry.typeset_offset))?;
    push_second(out, version, entry)?;
    push_place(out, "constraint_offset", entry.constraint_offset)
}

#[tactic(auto, unfolding(crate::specs::OpcodeText::flags_comment))]
fn push_flags_comment(
    out: &mut String,
    name: &str,
    entry: OpcodeConstraints,
) -> Result<(), AllocError>
    ensures { OnOk result (string_bytes out.new ≡ string_bytes out.old ++ flags_comment name.now entry.flags) }
{
    let (results, values) = (entry.result_count(), entry.value_count());
    let (designated, differs) = (entry.designated_controls(), entry.first_result_differs());
    write!(
        out,
        "        // {name}: fixed_results={results}, use_typevar_operand={designated}, requires_typevar_operand={differs}, fixed_values={values}\n"
    )
}

fn constraints_of(tables: &Tables, entry: OpcodeConstraints) -> &[Constraint]
    ensures { map number_constraint_of result.now ≡ constraints_of tables.now.opcodes (entry_of entry) }
{
    let count = entry.result_count() + entry.value_count();
    constraints_from(
        tables.operand_constraints(),
        entry.constraint_offset as usize,
        count,
    )
}

/// Adds the comment on a control whose type set has this place, and nothing if there is no such control.
#[tactic(auto, unfolding(crate::specs::OpcodeText::control_comment))]
fn push_control_comment(
    out: &mut String,
    tables: &Tables,
    about: &str,
    offset: u16,
) -> Result<(), AllocError>
    ensures { OnOk result (string_bytes out.new ≡ string_bytes out.old ++ control_comment tables.now.opcodes about.now offset) }
{
    if offset == NO_TYPE_SET {
        return Ok(());
    }
    push_set_comment(out, about, tables.type_sets().get(offset as usize))
}

#[tactic(auto, unfolding(crate::specs::OpcodeText::entry_comments))]
fn push_comments(
    alloc: Global,
    out: &mut String,
    version: Version,
    tables: &Tables,
    opcode: u16,
    entry: OpcodeConstraints,
) -> Result<(), AllocError>
    ensures { OnOk result (string_bytes out.new ≡ string_bytes out.old
        ++ entry_comments version tables.now.opcodes opcode (entry_of entry)) }
{
    let name = camel_of(alloc, tables, opcode)?;
    push_flags_comment(out, name.as_str(), entry)?;
    push_constraints_comment(alloc, out, constraints_of(tables, entry))?;
    push_control_comment(out, tables, "Polymorphic over ", entry.typeset_offset)?;
    match version {
        Version::One => Ok(()),
        Version::Two | Version::Three => {
            push_control_comment(out, tables, "Second control over ", entry.second_offset)
        }
    }
}

#[tactic(auto, unfolding(crate::specs::OpcodeText::opcode_block))]
pub(crate) fn push_opcode(
    alloc: Global,
    out: &mut String,
    version: Version,
    tables: &Tables,
    opcode: u16,
) -> Result<(), AllocError>
    ensures { IsOpcode tables.now.opcodes opcode
        → OnOk result (string_bytes out.new ≡ string_bytes out.old ++ opcode_block version tables.now.opcodes opcode) }
{
    let Some(entry) = tables.constraints(opcode) else {
        return Ok(());
    };
    push_fields(out, version, entry)?;
    push_comments(alloc, out, version, tables, opcode, entry)?;
    out.push_str("    }\n    ,\n")
}
