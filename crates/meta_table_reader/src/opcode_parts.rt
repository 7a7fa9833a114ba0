ghost use Rattle.std.specs.Prelude.{◌≡◌, ◌<◌, ◌^◌, ℕ, List, ◌++◌, IfOk, All, length};
ghost use Rattle.meta_types.specs.Name.{IsName};
ghost use Rattle.meta_inst.specs.Tables.{TableContents};
ghost use Rattle.meta_table_text.specs.declared.version.Version.{Version};
ghost use Rattle.meta_table_text.specs.OpcodeText.{each_opcode, format_line};
ghost use Rattle.meta_table_text.specs.TableText.{version_line, formats_part, slots_part, sets_part, constraints_part, opcodes_text};
ghost use Rattle.meta_table_reader.specs.OpcodeLists.{HaveOpcodeLists};
ghost use Rattle.meta_table_reader.specs.Shown.{AreNamed, AreShownLists, AreShownOpcodes};

use super::cursor::Cursor;
use super::entries::entries;
use super::item::{Item, list_count, list_of};
use meta_gen::{Constraint, OpcodeConstraints};
use meta_table_text::{LIST_END, TableList, Version};
use meta_types::Text;
use meta_typevar::Masks;
use std::alloc::{AllocError, Global};

/// Where the version stands on the first line of a text.
const VERSION_AT: usize = 22;

/// Where titles of lists differ: the place of a byte on their line.
const TITLE_AT: usize = 12;

/// The version that the first line names. It is version 3 if the line names no version.
pub(crate) fn version_of(cursor: &Cursor) -> Version
    ensures { (v : Version) (rest : List ℕ) → cursor.now ≡ version_line v ++ rest → result ≡ v }
{
    let digit = cursor.byte_at(VERSION_AT);
    if digit == b'1' {
        return Version::One;
    }
    if digit == b'2' {
        return Version::Two;
    }
    Version::Three
}

#[derive(Drop)]
pub(crate) struct OpcodeNames {
    pub(crate) names: Vec<Text>,
    pub(crate) formats: Vec<Text>,
}

fn format_lines(alloc: Global, cursor: &mut Cursor, count: usize) -> Result<OpcodeNames, AllocError>
    ensures { IfOk result (λ r. (t : TableContents) (rest : List ℕ) → All IsName t.names → All IsName t.formats
        → count ≡ length t.names → count ≡ length t.formats → cursor.old ≡ each_opcode (format_line t) count ++ rest
        → (r.names.items ≡ t.names) × (r.formats.items ≡ t.formats) × (cursor.new ≡ rest)) }
{
    let mut names = Vec::new(alloc);
    let mut formats = Vec::new(alloc);
    for _ in 0..cursor.len().min(count) {
        formats.push(cursor.text(alloc, "    InstructionFormat::", b',')?)?;
        names.push(cursor.text(alloc, ", // ", b'\n')?)?;
        cursor.pass("\n");
    }
    Ok(OpcodeNames { names, formats })
}

fn opcode_names(alloc: Global, cursor: &mut Cursor) -> Result<OpcodeNames, AllocError>
    ensures { IfOk result (λ r. (t : TableContents) (rest : List ℕ) → AreNamed t → cursor.old ≡ formats_part t ++ rest
        → (r.names.items ≡ t.names) × (r.formats.items ≡ t.formats) × (cursor.new ≡ rest)) }
{
    let count = list_count(cursor, TableList::Formats);
    let names = format_lines(alloc, cursor, count)?;
    cursor.pass(LIST_END);
    Ok(names)
}

/// Skips the list of the slots of the names, which follow from the names.
fn skip_slots(cursor: &mut Cursor)
    ensures { (t : TableContents) (rest : List ℕ) → All IsName t.names → length t.opcode_slots < 2 ^ 64
        → cursor.old ≡ slots_part t ++ rest → cursor.new ≡ rest }
{
    let count = list_count(cursor, TableList::OpcodeSlots);
    cursor.skip_lines(count);
    cursor.pass(LIST_END);
}

impl Item for Masks {
    ghost use Rattle.meta_table_text.specs.TypeSetText.{set_block};
    ghost use Rattle.meta_table_reader.specs.Shown.{AreShownMasks};
    ghost use Rattle.meta_table_reader.specs.Some.{set_some};

    ghost text = { set_block };

    ghost IsShown = { AreShownMasks };

    fn read(_alloc: Global, cursor: &mut Cursor) -> Result<Masks, AllocError> {
        let lanes = cursor.number_u16(
            "    ir::instructions::ValueTypeSet {\n        lanes: ScalarBitSet::<u16>(",
            b')',
        );
        let dynamic_lanes = cursor.number_u16(
            "),\n        dynamic_lanes: ScalarBitSet::<u16>(",
            b')',
        );
        let ints = cursor.number_u8("),\n        ints: ScalarBitSet::<u8>(", b')');
        let floats = cursor.number_u8("),\n        floats: ScalarBitSet::<u8>(", b')');
        cursor.pass("),\n");
        cursor.skip_lines(3);
        Ok(Masks {
            lanes,
            dynamic_lanes,
            ints,
            floats,
        })
    }

    ghost some = { set_some };
}

/// Reads the list of the type sets. It is left out if there are no type sets: then the list of the constraints comes next.
fn type_sets(alloc: Global, cursor: &mut Cursor) -> Result<Vec<Masks>, AllocError>
    ensures { IfOk result (λ v. (t : TableContents) (rest : List ℕ) → AreShownLists t
        → cursor.old ≡ sets_part t ++ (constraints_part t ++ rest) → (v.items ≡ t.type_sets) × (cursor.new ≡ constraints_part t ++ rest)) }
{
    let title = cursor.byte_at(TITLE_AT);
    if title == b'v' {
        return list_of::<Masks>(alloc, cursor, TableList::TypeSets);
    }
    Ok(Vec::new(alloc))
}

#[derive(Drop)]
pub(crate) struct OpcodeParts {
    pub(crate) names: OpcodeNames,
    pub(crate) type_sets: Vec<Masks>,
    pub(crate) operand_constraints: Vec<Constraint>,
    pub(crate) constraints: Vec<OpcodeConstraints>,
}

pub(crate) fn opcode_parts(
    alloc: Global,
    cursor: &mut Cursor,
    version: Version,
) -> Result<OpcodeParts, AllocError>
    ensures { IfOk result (λ r. (t : TableContents) (rest : List ℕ) → AreShownOpcodes version t
        → cursor.old ≡ opcodes_text version t ++ rest
        → HaveOpcodeLists t r.names.names.items r.names.formats.items r.type_sets.items r.operand_constraints.items
        r.constraints.items × (cursor.new ≡ rest)) }
{
    cursor.skip_line();
    let names = opcode_names(alloc, cursor)?;
    skip_slots(cursor);
    let type_sets = type_sets(alloc, cursor)?;
    let operand_constraints = list_of::<Constraint>(alloc, cursor, TableList::Constraints)?;
    let constraints = entries(alloc, cursor, version)?;
    Ok(OpcodeParts {
        names,
        type_sets,
        operand_constraints,
        constraints,
    })
}
