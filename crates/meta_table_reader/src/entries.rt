ghost use Rattle.std.specs.Prelude.{◌≡◌, ◌≤◌, ◌<◌, ◌^◌, ℕ, List, ◌++◌, IfOk, All, length, map, codes};
ghost use Rattle.std.specs.Fmt.{decimal};
ghost use Rattle.meta_inst.specs.Tables.{OpcodeNumbers, TableContents};
ghost use Rattle.meta_gen.specs.Constraint.{entry_of};
ghost use Rattle.meta_table_text.specs.Version.{offset_shown};
ghost use Rattle.meta_table_text.specs.OpcodeText.{each_opcode, second_line, entry_block, opcode_block};
ghost use Rattle.meta_table_text.specs.TableText.{entries_part};
ghost use Rattle.meta_table_reader.specs.EntryLines.{control_lines};
ghost use Rattle.meta_table_reader.specs.Shown.{IsShownOffset, IsShownSecond, IsShownEntry, IsShownConstraint, AreShownOpcodes};
ghost use Rattle.meta_types.specs.Name.{IsName};

use super::cursor::Cursor;
use super::item::list_count;
use meta_gen::{NO_TYPE_SET, OpcodeConstraints};
use meta_table_text::{LIST_END, TableList, Version};
use std::alloc::{AllocError, Global};

/// The place of a type set, or no type set, from the number that the version has for it.
fn offset_of(version: Version, shown: u16) -> u16
    ensures { (offset : ℕ) → IsShownOffset version offset → shown ≡ offset_shown version offset → result ≡ offset }
{
    if shown == version.none() {
        return NO_TYPE_SET;
    }
    shown
}

/// Skips as many bytes as `before` has, and reads a number and the end of the line.
fn place(cursor: &mut Cursor, before: &str) -> u16
    ensures { (n : ℕ) (rest : List ℕ) → n < 2 ^ 16 → cursor.old ≡ before.now ++ (decimal n ++ (codes ",\n" ++ rest))
        → (result ≡ n) × (cursor.new ≡ rest) }
{
    let place = cursor.number_u16(before, b',');
    cursor.pass(",\n");
    place
}

/// Reads a line as `place` does, with the place of a type set or what stands for no type set.
fn type_set_place(cursor: &mut Cursor, version: Version, before: &str) -> u16
    ensures { (offset : ℕ) (rest : List ℕ) → IsShownOffset version offset
        → cursor.old ≡ before.now ++ (decimal (offset_shown version offset) ++ (codes ",\n" ++ rest))
        → (result ≡ offset) × (cursor.new ≡ rest) }
{
    let shown = place(cursor, before);
    offset_of(version, shown)
}

/// Reads the line with the place of the second control's type set. Version 1 doesn't have this line.
fn second_place(cursor: &mut Cursor, version: Version) -> u16
    ensures { (e : OpcodeNumbers) (rest : List ℕ) → IsShownSecond version e.second_offset
        → cursor.old ≡ second_line version e ++ rest → (result ≡ e.second_offset) × (cursor.new ≡ rest) }
{
    match version {
        Version::One => NO_TYPE_SET,
        Version::Two => type_set_place(cursor, version, "        second_offset: "),
        Version::Three => type_set_place(cursor, version, "        second_offset: "),
    }
}

/// How many lines of comment there are on a control whose type set has this place.
fn control_lines(offset: u16) -> usize
    ensures value { result ≡ control_lines offset }
    ensures few { result ≤ 1 }
{
    if offset == NO_TYPE_SET { 0 } else { 1 }
}

/// Reads the fields of an opcode's block. It skips the comments, which repeat them, and the last two lines.
fn entry(cursor: &mut Cursor, version: Version) -> OpcodeConstraints
    ensures { (t : TableContents) (op : ℕ) (e : OpcodeNumbers) (rest : List ℕ) → All IsName t.names
        → All IsShownConstraint t.operand_constraints → IsShownEntry version e
        → cursor.old ≡ entry_block version t op e ++ rest → (entry_of result ≡ e) × (cursor.new ≡ rest) }
{
    let flags = cursor.hex("    OpcodeConstraints {\n        flags: 0x");
    let typeset_offset = type_set_place(cursor, version, ",\n        typeset_offset: ");
    let second_offset = second_place(cursor, version);
    let constraint_offset = place(cursor, "        constraint_offset: ");
    let control = control_lines(typeset_offset);
    let second = control_lines(second_offset);
    cursor.skip_lines(4 + control + second);
    OpcodeConstraints {
        flags,
        typeset_offset,
        second_offset,
        constraint_offset,
    }
}

fn blocks(
    alloc: Global,
    cursor: &mut Cursor,
    version: Version,
    count: usize,
) -> Result<Vec<OpcodeConstraints>, AllocError>
    ensures { IfOk result (λ v. (t : TableContents) (rest : List ℕ) → AreShownOpcodes version t
        → count ≡ length t.entries → cursor.old ≡ each_opcode (opcode_block version t) count ++ rest
        → (map entry_of v.items ≡ t.entries) × (cursor.new ≡ rest)) }
{
    let mut entries = Vec::new(alloc);
    for _ in 0..cursor.len().min(count) {
        entries.push(entry(cursor, version))?;
    }
    Ok(entries)
}

/// Reads the list of the four numbers of each opcode.
pub(crate) fn entries(
    alloc: Global,
    cursor: &mut Cursor,
    version: Version,
) -> Result<Vec<OpcodeConstraints>, AllocError>
    ensures { IfOk result (λ v. (t : TableContents) (rest : List ℕ) → AreShownOpcodes version t
        → cursor.old ≡ entries_part version t ++ rest → (map entry_of v.items ≡ t.entries) × (cursor.new ≡ rest)) }
{
    let count = list_count(cursor, TableList::Entries);
    let entries = blocks(alloc, cursor, version, count)?;
    cursor.pass(LIST_END);
    Ok(entries)
}
