ghost use Rattle.std.specs.Prelude.{◌≡◌, [], ◌∷◌, ◌++◌, length, slice_get, Some, string_bytes, OnOk};
ghost use Rattle.std.specs.List.{flat_map};
ghost use Rattle.meta_setting_tables.specs.declared.descriptor.Descriptor.{Descriptor};
ghost use Rattle.meta_gen.specs.WholeTables.{OfGroup, HasNoGroup};
ghost use Rattle.meta_table_text.specs.GroupText.{enumerators_text, descriptors_text, slots_text, presets_in, preset_text};
ghost use Rattle.meta_table_text.specs.GroupText.{presets_text, group_text};

use super::group_items::{push_descriptor, push_pair, push_slot, push_template};
use super::table_list::{TableList, push_list};
use meta_gen::Tables;
use meta_setting_tables::{Descriptor, GroupTables};
use meta_types::Text;
use std::alloc::{AllocError, Global};

#[tactic(auto, unfolding(crate::specs::GroupItems::enumerator_text))]
fn push_enumerators(alloc: Global, out: &mut String, names: &[Text]) -> Result<(), AllocError>
    ensures { OnOk result (string_bytes out.new ≡ string_bytes out.old ++ enumerators_text names.now) }
{
    let mut lines = String::new(alloc);
    for name in names {
        let name = name.as_str();
        write!(&mut lines, "    \"{name}\",\n")?;
    }
    push_list(out, TableList::Enumerators, names.len(), lines.as_str())
}

fn push_descriptors(
    alloc: Global,
    out: &mut String,
    entries: &[Descriptor],
) -> Result<(), AllocError>
    ensures { OnOk result (string_bytes out.new ≡ string_bytes out.old ++ descriptors_text entries.now) }
{
    let mut lines = String::new(alloc);
    for entry in entries {
        push_descriptor(&mut lines, entry)?;
    }
    push_list(out, TableList::Descriptors, entries.len(), lines.as_str())
}

fn push_slots(alloc: Global, out: &mut String, slots: &[Option<u16>]) -> Result<(), AllocError>
    ensures { OnOk result (string_bytes out.new ≡ string_bytes out.old ++ slots_text slots.now) }
{
    let mut lines = String::new(alloc);
    for slot in slots {
        push_slot(&mut lines, *slot)?;
    }
    push_list(out, TableList::SettingSlots, slots.len(), lines.as_str())
}

#[tactic(auto, unfolding(crate::specs::GroupItems::comment_text))]
fn push_preset(
    alloc: Global,
    out: &mut String,
    group: &GroupTables,
    number: u16,
    name: &str,
) -> Result<(), AllocError>
    ensures { (d : Descriptor) → slice_get group.now.descriptors number ≡ Some d → name.now ≡ d.name
        → OnOk result (string_bytes out.new ≡ string_bytes out.old ++ flat_map
        (preset_text group.now.descriptors (length group.now.defaults) group.now.preset_masks) (presets_in (d ∷ []))) }
{
    let Some(masks) = group.masks_of(number) else {
        return Ok(());
    };
    for mask in masks {
        push_pair(out, *mask)?;
    }
    let booleans = group.names_on(alloc, number)?;
    let shown = booleans.as_slice().join(alloc, ", ")?;
    let enabled = shown.as_str();
    write!(out, "    // {name}: {enabled}\n")
}

/// Adds the list of the presets. Each preset has one mask for each setting byte.
fn push_presets(alloc: Global, out: &mut String, group: &GroupTables) -> Result<(), AllocError>
    ensures { OnOk result (string_bytes out.new ≡ string_bytes out.old ++ presets_text group.now.descriptors
        (length group.now.defaults) group.now.preset_masks) }
{
    let mut lines = String::new(alloc);
    let entries = group.descriptors();
    for k in 0..entries.len() {
        let name = entries[k].name.as_str();
        push_preset(alloc, &mut lines, group, k as u16, name)?;
    }
    push_list(
        out,
        TableList::Presets,
        group.preset_masks().len(),
        lines.as_str(),
    )
}

/// Adds the text of a group, and nothing if there is no such group. The cost is one pass over each list, and for each preset one more over
/// the settings.
#[tactic(auto, unfolding(crate::specs::GroupItems::head_text))]
pub(crate) fn push_group(
    alloc: Global,
    out: &mut String,
    tables: &Tables,
    place: usize,
) -> Result<(), AllocError>
    ensures text { OnOk result (OfGroup tables.now place (λ g. string_bytes out.new ≡ string_bytes out.old ++ group_text g)) }
    ensures no_group { HasNoGroup tables.now place → string_bytes out.new ≡ string_bytes out.old }
{
    let Some(group) = tables.group(place) else {
        return Ok(());
    };
    let name = group.name().as_str();
    write!(out, "// Settings group {name}.\n")?;
    push_enumerators(alloc, out, group.enumerators())?;
    push_descriptors(alloc, out, group.descriptors())?;
    push_slots(alloc, out, group.setting_slots())?;
    push_presets(alloc, out, group)?;
    push_template(alloc, out, name, group.defaults())
}
