use super::opcodes::{counted, write_found, write_slots};
use meta_gen::{Detail, Tables};
use rows_base::{Answer, Case, Trouble, numbers_of};
use std::alloc::Global;

/// Writes what the tables hold of a group apart from its entries, or `none`.
fn write_group(tables: &Tables, group: usize, case: &mut Case<'_>) {
    let Some(name) = tables.group_name(group) else {
        return case.text("none");
    };
    case.text(name.as_str());
    case.field(": size ", &tables.settings_size(group).unwrap_or(0));
    case.text(", defaults ");
    case.debugged(&tables.defaults(group).unwrap_or(&[]));
    case.text(", masks ");
    case.debugged(&tables.preset_masks(group).unwrap_or(&[]));
    case.text(", values ");
    let start = case.written();
    for value in tables.enumerators(group).unwrap_or(&[]) {
        case.item(start, value.as_str());
    }
    case.end_list(start);
    let slots = tables.setting_slots(group).unwrap_or(&[]);
    case.field(", slots ", &slots.len());
}

fn write_entry(tables: &Tables, group: usize, index: u16, case: &mut Case<'_>) {
    let Some(entry) = tables.descriptor(group, index) else {
        return case.text("none");
    };
    case.text(entry.name.as_str());
    case.field(" ", &entry.offset);
    match entry.detail {
        Detail::Bool { bit } => case.field(" bool ", &bit),
        Detail::Enum { last, enumerators } => {
            case.field(" enum ", &last);
            case.field(" ", &enumerators);
        }
        Detail::Num => case.text(" num"),
        Detail::Preset => case.text(" preset"),
    }
    if let Some(value) = tables.default_value(group, index) {
        case.field(" default ", &value);
    }
}

fn found_count(tables: &Tables, group: usize) -> u32 {
    let mut count: u32 = 0;
    for index in 0..=u16::MAX {
        let Some(entry) = tables.descriptor(group, index) else {
            break;
        };
        let name = entry.name.as_bytes();
        let both = (
            tables.find_setting(group, name),
            counted(tables, Some(group), name),
        );
        if both == (Some(index), Some(index)) {
            count = count.saturating_add(1);
        }
    }
    count
}

fn write_entries(tables: &Tables, group: usize, case: &mut Case<'_>) {
    case.text("entries:");
    for index in 0..=u16::MAX {
        if tables.descriptor(group, index).is_none() {
            break;
        }
        case.letter('\n');
        write_entry(tables, group, index, case);
    }
}

/// Writes what a word asks of groups: `groups` how many there are, and all else of the group with the next number. `holds`, `entries`
/// and `setting_slots` write what it holds, and `settings_found` how many names are found. `entry INDEX` is one of its entries,
/// `setting NAME` looks up a name, and `apply INDEX BYTES` writes what a preset makes of these bytes.
pub(crate) fn ask_groups(
    alloc: Global,
    tables: &Tables,
    word: &str,
    case: &mut Case<'_>,
) -> Answer {
    if word == "groups" {
        case.shown(&tables.group_count());
        case.text(" groups");
        return Ok(());
    }
    let group = case.number();
    match word {
        "holds" => write_group(tables, group, case),
        "entries" => write_entries(tables, group, case),
        "entry" => write_entry(tables, group, case.number(), case),
        "setting" => {
            let name = case.word().as_bytes();
            let found = tables.find_setting(group, name);
            write_found(found, counted(tables, Some(group), name), case);
        }
        "setting_slots" => match tables.setting_slots(group) {
            Some(all) => write_slots(all, case),
            None => case.text("none"),
        },
        "settings_found" => {
            case.shown(&found_count(tables, group));
            case.text(" found");
        }
        "apply" => {
            let preset = case.number();
            let mut bytes = numbers_of(alloc, case.word(), "-")?;
            case.shown(&tables.apply_preset(group, preset, &mut bytes));
            case.letter(' ');
            case.debugged(&bytes);
        }
        _ => return Err(Trouble::BadLine),
    }
    Ok(())
}
