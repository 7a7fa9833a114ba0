ghost use Rattle.std.specs.Prelude.{◌≡◌, ◌<◌, ◌^◌, ◌*◌, ℕ, List, ◌++◌, Option, IfOk, OnOk, All, length, count_by};
ghost use Rattle.std.specs.List.{flat_map};
ghost use Rattle.meta_setting_tables.specs.declared.descriptor.Descriptor.{Descriptor};
ghost use Rattle.meta_table_text.specs.GroupItems.{pair_text};
ghost use Rattle.meta_setting_tables.specs.EntryValues.{masks_from};
ghost use Rattle.meta_setting_tables.specs.WellFormed.{is_preset};
ghost use Rattle.meta_table_text.specs.GroupText.{slots_text, preset_text, presets_text};
ghost use Rattle.meta_table_reader.specs.ShownGroup.{IsByte, IsShownDescriptor, AreShownMasksOf, AreShownPresets};

use super::cursor::Cursor;
use super::item::list_count;
use meta_gen::{Descriptor, Detail};
use meta_table_text::{LIST_END, TableList};
use std::alloc::{AllocError, Global};

/// Skips the list of the slots of the names, which follow from the names.
pub(crate) fn skip_slots(cursor: &mut Cursor)
    ensures { (slots : List (Option ℕ)) (rest : List ℕ) → length slots < 2 ^ 64
        → cursor.old ≡ slots_text slots ++ rest → cursor.new ≡ rest }
{
    let count = list_count(cursor, TableList::SettingSlots);
    cursor.skip_lines(count);
    cursor.pass(LIST_END);
}

fn push_masks(masks: &mut Vec<u8>, cursor: &mut Cursor, count: usize) -> Result<(), AllocError>
    ensures { OnOk result ((ms : List ℕ) (rest : List ℕ) → All IsByte ms → count ≡ length ms
        → cursor.old ≡ flat_map pair_text ms ++ rest → (masks.new.items ≡ masks.old.items ++ ms) × (cursor.new ≡ rest)) }
{
    for _ in 0..cursor.len().min(count) {
        let mask = cursor.binary("    (0b");
        cursor.binary(", 0b");
        cursor.pass("),\n");
        masks.push(mask)?;
    }
    Ok(())
}

fn preset_lines(
    alloc: Global,
    cursor: &mut Cursor,
    presets: usize,
    size: usize,
) -> Result<Vec<u8>, AllocError>
    ensures { IfOk result (λ v. (booleans ds : List Descriptor) (masks rest : List ℕ) → All IsShownDescriptor booleans
        → All IsShownDescriptor ds → All (AreShownMasksOf size masks) ds → presets ≡ length ds
        → cursor.old ≡ flat_map (preset_text booleans size masks) ds ++ rest
        → (v.items ≡ flat_map (λ (d : Descriptor). masks_from size masks d.offset) ds) × (cursor.new ≡ rest)) }
{
    let mut masks = Vec::new(alloc);
    for _ in 0..presets {
        push_masks(&mut masks, cursor, size)?;
        cursor.skip_line();
    }
    Ok(masks)
}

fn is_preset(entry: &Descriptor) -> bool
    ensures { result ≡ is_preset entry.now.detail }
{
    match entry.detail {
        Detail::Bool { .. } | Detail::Enum { .. } | Detail::Num => false,
        Detail::Preset => true,
    }
}

fn preset_count(entries: &[Descriptor]) -> usize
    ensures { result ≡ count_by (λ (d : Descriptor). is_preset d.detail) entries.now }
{
    entries.iter().filter(|d| is_preset(d)).count()
}

fn size_of(pairs: usize, presets: usize) -> usize
    ensures { (size : ℕ) → 0 < presets → pairs ≡ presets * size → result ≡ size }
{
    if presets == 0 {
        return 0;
    }
    pairs / presets
}

/// Reads the masks of the presets. The entries say how many presets there are.
pub(crate) fn preset_masks(
    alloc: Global,
    cursor: &mut Cursor,
    entries: &[Descriptor],
) -> Result<Vec<u8>, AllocError>
    ensures { IfOk result (λ v. (size : ℕ) (masks rest : List ℕ) → All IsShownDescriptor entries.now
        → AreShownPresets entries.now size masks → cursor.old ≡ presets_text entries.now size masks ++ rest
        → (v.items ≡ masks) × (cursor.new ≡ rest)) }
{
    let pairs = list_count(cursor, TableList::Presets);
    let presets = preset_count(entries);
    let size = size_of(pairs, presets);
    let masks = preset_lines(alloc, cursor, presets, size)?;
    cursor.pass(LIST_END);
    Ok(masks)
}
