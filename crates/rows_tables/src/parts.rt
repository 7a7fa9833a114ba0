use meta_gen::{
    Constraint, Descriptor, Detail, GroupParts, OpcodeConstraints, TableParts, Tables,
    opcodes_from_parts, tables_from_parts,
};
use meta_setting_tables::group_from_parts;
use meta_types::Text;
use meta_typevar::Masks;
use rows_base::{Answer, Case, Trouble};
use std::alloc::{AllocError, Global};

/// The most changes of a line.
const MOST_EDITS: usize = 20;

/// What is written of parts that make no tables.
const NONE: &str = "not well-formed";

fn entry_copy(alloc: Global, entry: &Descriptor) -> Result<Descriptor, AllocError> {
    match (entry.name.copy(alloc), entry.description.copy(alloc)) {
        (Ok(name), Ok(description)) => Ok(Descriptor {
            name,
            description,
            offset: entry.offset,
            detail: entry.detail,
        }),
        _ => Err(AllocError),
    }
}

fn fill_group(
    parts: &mut GroupParts,
    alloc: Global,
    tables: &Tables,
    group: usize,
) -> Result<(), AllocError> {
    for entry in tables.descriptors(group).unwrap_or(&[]) {
        parts.descriptors.push(entry_copy(alloc, entry)?)?;
    }
    for value in tables.enumerators(group).unwrap_or(&[]) {
        parts.enumerators.push(value.copy(alloc)?)?;
    }
    let defaults = tables.defaults(group).unwrap_or(&[]);
    parts.defaults.extend_from_slice(defaults)?;
    let masks = tables.preset_masks(group).unwrap_or(&[]);
    parts.preset_masks.extend_from_slice(masks)
}

fn push_group(
    groups: &mut Vec<GroupParts>,
    alloc: Global,
    tables: &Tables,
    group: usize,
) -> Answer {
    let Some(name) = tables.group_name(group) else {
        return Err(Trouble::Differ);
    };
    let mut parts = GroupParts {
        name: name.copy(alloc)?,
        descriptors: Vec::new(alloc),
        enumerators: Vec::new(alloc),
        defaults: Vec::new(alloc),
        preset_masks: Vec::new(alloc),
    };
    fill_group(&mut parts, alloc, tables, group)?;
    Ok(groups.push(parts)?)
}

fn push_opcode(parts: &mut TableParts, alloc: Global, tables: &Tables, opcode: u16) -> Answer {
    let found = (
        tables.opcode_name(opcode),
        tables.opcode_format(opcode),
        tables.constraints(opcode),
    );
    let (Some(name), Some(format), Some(entry)) = found else {
        return Err(Trouble::Differ);
    };
    parts.names.push(name.copy(alloc)?)?;
    parts.formats.push(format.copy(alloc)?)?;
    Ok(parts.constraints.push(entry)?)
}

/// Adds the parts of tables, and changes them by the words that are left.
fn fill(parts: &mut TableParts, alloc: Global, tables: &Tables, case: &mut Case<'_>) -> Answer {
    parts.type_sets.extend_from_slice(tables.type_sets())?;
    let constraints = tables.operand_constraints();
    parts.operand_constraints.extend_from_slice(constraints)?;
    for opcode in 1..=tables.opcode_count() {
        push_opcode(parts, alloc, tables, opcode)?;
    }
    for group in 0..tables.group_count() {
        push_group(&mut parts.groups, alloc, tables, group)?;
    }
    for _ in 0..MOST_EDITS {
        if case.has_more() {
            edit(alloc, parts, case)?;
        }
    }
    Ok(())
}

fn edited_parts(
    alloc: Global,
    tables: &Tables,
    case: &mut Case<'_>,
) -> Result<TableParts, Trouble> {
    let mut parts = TableParts {
        names: Vec::new(alloc),
        formats: Vec::new(alloc),
        type_sets: Vec::new(alloc),
        operand_constraints: Vec::new(alloc),
        constraints: Vec::new(alloc),
        groups: Vec::new(alloc),
    };
    fill(&mut parts, alloc, tables, case)?;
    Ok(parts)
}

fn put<T: Drop>(list: &mut Vec<T>, place: usize, item: T, case: &mut Case<'_>) {
    match list.get_mut(place) {
        Some(old) => *old = item,
        None => case.refuse(Trouble::NoCase),
    }
}

fn put_text(
    alloc: Global,
    list: &mut Vec<Text>,
    place: usize,
    case: &mut Case<'_>,
) -> Result<(), AllocError> {
    let text = Text::new(alloc, case.word())?;
    put(list, place, text, case);
    Ok(())
}

fn put_entry(
    alloc: Global,
    list: &mut Vec<Descriptor>,
    case: &mut Case<'_>,
) -> Result<(), AllocError> {
    let place = case.number();
    let (name, description) = (case.word(), case.word());
    let (Ok(name), Ok(description)) = (Text::new(alloc, name), Text::new(alloc, description)) else {
        return Err(AllocError);
    };
    let entry = Descriptor {
        name,
        description,
        offset: case.number(),
        detail: next_detail(case),
    };
    put(list, place, entry, case);
    Ok(())
}

fn put_byte(list: &mut Vec<u8>, case: &mut Case<'_>) {
    let (place, byte) = (case.number(), case.number());
    put(list, place, byte, case);
}

/// Gives a list this length. If it was shorter, its last item is repeated.
fn resize<T: Copy + Drop>(list: &mut Vec<T>, count: usize, case: &mut Case<'_>) {
    match list.last().copied() {
        Some(last) => case.note(list.resize(count, last)),
        None => case.refuse(Trouble::NoCase),
    }
}

fn resize_texts(alloc: Global, list: &mut Vec<Text>, count: usize) -> Answer {
    list.truncate(count);
    for _ in list.len()..count {
        let last = match list.last() {
            Some(last) => last.copy(alloc)?,
            None => return Err(Trouble::NoCase),
        };
        list.push(last)?;
    }
    Ok(())
}

fn next_masks(case: &mut Case<'_>) -> Masks {
    let (lanes, dynamic_lanes) = (case.number(), case.number());
    let (ints, floats) = (case.number(), case.number());
    Masks {
        lanes,
        dynamic_lanes,
        ints,
        floats,
    }
}

fn next_entry(case: &mut Case<'_>) -> OpcodeConstraints {
    let (flags, typeset_offset) = (case.number(), case.number());
    let (second_offset, constraint_offset) = (case.number(), case.number());
    OpcodeConstraints {
        flags,
        typeset_offset,
        second_offset,
        constraint_offset,
    }
}

fn next_detail(case: &mut Case<'_>) -> Detail {
    match case.word() {
        "bool" => Detail::Bool { bit: case.number() },
        "enum" => {
            let (last, enumerators) = (case.number(), case.number());
            Detail::Enum { last, enumerators }
        }
        "num" => Detail::Num,
        "preset" => Detail::Preset,
        _ => {
            case.refuse(Trouble::NoCase);
            Detail::Num
        }
    }
}

fn edit_group(alloc: Global, group: &mut GroupParts, word: &str, case: &mut Case<'_>) -> Answer {
    match word {
        "group" => group.name = Text::new(alloc, case.word())?,
        "setting" => put_entry(alloc, &mut group.descriptors, case)?,
        "settings" => group.descriptors.truncate(case.number()),
        "value" => put_text(alloc, &mut group.enumerators, case.number(), case)?,
        "values" => resize_texts(alloc, &mut group.enumerators, case.number())?,
        "default" => put_byte(&mut group.defaults, case),
        "defaults" => resize(&mut group.defaults, case.number(), case),
        "mask" => put_byte(&mut group.preset_masks, case),
        "masks" => resize(&mut group.preset_masks, case.number(), case),
        _ => return Err(Trouble::NoCase),
    }
    Ok(())
}

/// Changes a part: one of the list that a word names, at a place, or how many the list has, or a part of a group.
fn edit(alloc: Global, parts: &mut TableParts, case: &mut Case<'_>) -> Answer {
    let (word, number) = (case.word(), case.number());
    match word {
        "name" => put_text(alloc, &mut parts.names, number, case)?,
        "names" => resize_texts(alloc, &mut parts.names, number)?,
        "format" => put_text(alloc, &mut parts.formats, number, case)?,
        "formats" => resize_texts(alloc, &mut parts.formats, number)?,
        "set" => put(&mut parts.type_sets, number, next_masks(case), case),
        "sets" => resize(&mut parts.type_sets, number, case),
        "concrete" => {
            let constraint = Constraint::Concrete(case.number());
            put(&mut parts.operand_constraints, number, constraint, case);
        }
        "free" => {
            let constraint = Constraint::Free(case.number());
            put(&mut parts.operand_constraints, number, constraint, case);
        }
        "constraints" => resize(&mut parts.operand_constraints, number, case),
        "entry" => put(&mut parts.constraints, number, next_entry(case), case),
        "entries" => resize(&mut parts.constraints, number, case),
        "groups" => parts.groups.truncate(number),
        _ => match parts.groups.get_mut(number) {
            Some(group) => edit_group(alloc, group, word, case)?,
            None => return Err(Trouble::NoCase),
        },
    }
    Ok(())
}

fn makes_groups(alloc: Global, groups: Vec<GroupParts>) -> Result<bool, AllocError> {
    let mut makes = true;
    for group in groups {
        makes = group_from_parts(alloc, group)?.is_some() && makes;
    }
    Ok(makes)
}

/// Whether the tables of the opcodes, and those of each group, can be made each alone.
fn makes_each(alloc: Global, parts: TableParts) -> Result<bool, AllocError> {
    let makes = makes_groups(alloc, parts.groups)?;
    let opcodes = opcodes_from_parts(
        alloc,
        parts.names,
        parts.formats,
        parts.type_sets,
        parts.operand_constraints,
        parts.constraints,
    )?;
    Ok(opcodes.is_some() && makes)
}

fn made_of(alloc: Global, parts: TableParts, tables: &Tables) -> Result<&'static str, AllocError> {
    match tables_from_parts(alloc, parts)? {
        Some(made) if made.same(tables) && tables.same(&made) => Ok("same"),
        Some(_) => Ok("other"),
        None => Ok(NONE),
    }
}

/// Takes tables apart, changes the parts by the words that are left, and writes what the parts make, all together and each alone: the same
/// tables, others, or no tables.
pub(crate) fn write_made(alloc: Global, tables: &Tables, case: &mut Case<'_>) -> Answer {
    let taken = case.taken();
    let made = made_of(alloc, edited_parts(alloc, tables, case)?, tables)?;
    case.go_back(taken);
    if makes_each(alloc, edited_parts(alloc, tables, case)?)? == (made == NONE) {
        return Err(Trouble::Differ);
    }
    case.text(made);
    Ok(())
}
