ghost use Rattle.std.specs.Prelude.{◌≡◌, ℕ, List, ◌++◌, IfOk, All};
ghost use Rattle.std.specs.List.{flat_map, AllZip};
ghost use Rattle.meta_setting_tables.specs.GroupTables.{GroupContents};
ghost use Rattle.meta_setting_tables.specs.Parts.{HasGroupParts};
ghost use Rattle.meta_table_text.specs.GroupItems.{bytes_text};
ghost use Rattle.meta_table_text.specs.GroupText.{group_text};
ghost use Rattle.meta_table_reader.specs.ShownGroup.{AreShownGroup, IsByte};

use super::cursor::Cursor;
use super::group_lists::{preset_masks, skip_slots};
use super::item::list_of;
use meta_gen::Descriptor;
use meta_setting_tables::GroupParts;
use meta_table_text::TableList;
use meta_types::Text;
use std::alloc::{AllocError, Global};

/// How many bytes of the text a default byte takes, with what separates it from the next.
const BYTE_LENGTH: usize = 6;

/// Reads bytes as hexadecimal digits, separated by a comma and a space.
fn bytes(alloc: Global, shown: &[u8]) -> Result<Vec<u8>, AllocError>
    ensures { IfOk result (λ v. (bs : List ℕ) → All IsByte bs → shown.now ≡ bytes_text bs → v.items ≡ bs) }
{
    let mut bytes = Vec::new(alloc);
    let mut cursor = Cursor::new(shown);
    for _ in 0..(shown.len() + 2) / BYTE_LENGTH {
        bytes.push(cursor.hex("0x"))?;
        cursor.skip(2);
    }
    Ok(bytes)
}

fn group(alloc: Global, cursor: &mut Cursor) -> Result<GroupParts, AllocError>
    ensures { IfOk result (λ parts. (g : GroupContents) (rest : List ℕ) → AreShownGroup g
        → cursor.old ≡ group_text g ++ rest → HasGroupParts parts g × (cursor.new ≡ rest)) }
{
    let name = cursor.text(alloc, "// Settings group ", b'.')?;
    cursor.pass(".\n");
    let enumerators = list_of::<Text>(alloc, cursor, TableList::Enumerators)?;
    let descriptors = list_of::<Descriptor>(alloc, cursor, TableList::Descriptors)?;
    skip_slots(cursor);
    let preset_masks = preset_masks(alloc, cursor, descriptors.as_slice())?;
    cursor.skip_lines(5);
    let shown = cursor.until("    defaults: &[", b']');
    cursor.pass("],\n    presets: &PRESETS,\n}\n;\n");
    let defaults = bytes(alloc, shown)?;
    Ok(GroupParts {
        name,
        descriptors,
        enumerators,
        defaults,
        preset_masks,
    })
}

pub(crate) fn groups(alloc: Global, cursor: &mut Cursor) -> Result<Vec<GroupParts>, AllocError>
    ensures { IfOk result (λ v. (gs : List GroupContents) → All AreShownGroup gs → cursor.old ≡ flat_map group_text gs
        → AllZip HasGroupParts v.items gs) }
{
    let mut groups = Vec::new(alloc);
    for _ in 0..cursor.len() {
        let left = cursor.len();
        if left == 0 {
            return Ok(groups);
        }
        groups.push(group(alloc, cursor)?)?;
    }
    Ok(groups)
}
