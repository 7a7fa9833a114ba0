ghost use Rattle.std.specs.Prelude.{◌≡◌, ◌≤◌, [], length, map, slice_get, Some, None, IfOk};
ghost use Rattle.std.specs.Option.{option_map};
ghost use Rattle.meta_settings.specs.GroupDeclaration.{GroupDeclaration};
ghost use Rattle.meta_settings.specs.LaidOut.{built_of};
ghost use Rattle.meta_settings.specs.Layout.{PlacedSetting, BuiltPreset, Layout};
ghost use Rattle.meta_setting_tables.specs.declared.descriptor.Descriptor.{Descriptor};
ghost use Rattle.meta_setting_tables.specs.EntryValues.{values_in, masks_from, names_on, names_enabled};
ghost use Rattle.meta_setting_tables.specs.EnumeratorList.{built_values_of};
ghost use Rattle.meta_setting_tables.specs.FoundSetting.{entry_names, laid_entry_count};
ghost use Rattle.meta_setting_tables.specs.GroupTables.{names_in, IsPresetIn, IsPresetOf, AreTablesOfGroup};
ghost use Rattle.meta_setting_tables.specs.WellFormed.{ArePlaced};

use super::descriptor::{Descriptor, Detail};
use super::group_tables::GroupTables;
use meta_types::Text;
use std::alloc::{AllocError, Global};

/// The names of the booleans among the entries whose bits are on in the setting bytes. Booleans stand before presets.
fn names_on<'t>(
    alloc: Global,
    entries: &'t [Descriptor],
    bytes: &[u8],
) -> Result<Vec<&'t str>, AllocError>
    requires { ArePlaced entries.now }
    ensures { IfOk result (λ v. map (λ name. name.now) v.items ≡ names_on entries.now bytes.now) }
{
    let mut names = Vec::new(alloc);
    for entry in entries {
        if entry.detail.is_preset() {
            return Ok(names);
        }
        if entry.is_on(bytes) {
            names.push(entry.name.as_str())?;
        }
    }
    Ok(names)
}

impl GroupTables {
    /// How many entries there are.
    pub fn entry_count(&self) -> usize
        ensures count { result ≡ length self.now.descriptors }
        ensures few { result ≤ 65535 }
        ensures meaning { (g : Layout) → AreTablesOfGroup g self.now → result ≡ laid_entry_count g }
    {
        self.descriptors().len()
    }

    /// The name of the entry with the number `index`, from 0. `None` exactly if there is no such entry.
    pub fn entry_name(&self, index: u16) -> Option<&Text>
        ensures name { option_map (λ name. name.now) result ≡ slice_get (names_in self.now.descriptors) index }
        ensures meaning { (g : Layout) → AreTablesOfGroup g self.now
            → option_map (λ name. name.now) result ≡ slice_get (entry_names g) index }
    {
        Some(&self.descriptor(index)?.name)
    }

    /// The names of the values of the entry with the number `index`, in order. The first is the default. The list is empty if the entry
    /// isn't an enum or there is no such entry.
    pub fn values(&self, index: u16) -> &[Text]
        ensures entry { (d : Descriptor) → slice_get self.now.descriptors index ≡ Some d
            → result.now ≡ values_in self.now.enumerators d.detail }
        ensures absent { slice_get self.now.descriptors index ≡ None → result.now ≡ [] }
        ensures meaning { (g : Layout) (s : PlacedSetting) → AreTablesOfGroup g self.now
            → slice_get g.settings index ≡ Some s → result.now ≡ built_values_of s.specific }
    {
        let Some(entry) = self.descriptors().get(index as usize) else {
            return &[];
        };
        match entry.detail {
            Detail::Enum { last, enumerators } => {
                let place = usize::from(enumerators);
                &self.enumerators()[place..place + (usize::from(last) + 1)]
            }
            Detail::Bool { .. } => &[],
            Detail::Num => &[],
            Detail::Preset => &[],
        }
    }

    /// The names of the booleans that a preset turns on, in order of their numbers. `preset` is the number of its entry. The list is empty
    /// if that isn't a preset. The cost is one pass over the settings.
    pub fn names_on(&self, alloc: Global, preset: u16) -> Result<Vec<&str>, AllocError>
        ensures entry { (d : Descriptor) → IsPresetIn self.now.descriptors preset d
            → IfOk result (λ v. map (λ name. name.now) v.items ≡ names_on self.now.descriptors
            (masks_from (length self.now.defaults) self.now.preset_masks d.offset)) }
        ensures other { ((d : Descriptor) → IsPresetIn self.now.descriptors preset d → ⊥) → IfOk result (λ v. v.items ≡ []) }
        ensures meaning { (g : GroupDeclaration) (p : BuiltPreset) → AreTablesOfGroup (built_of g) self.now
            → IsPresetOf (built_of g) preset p
            → IfOk result (λ v. map (λ name. name.now) v.items ≡ names_enabled (built_of g) p) }
    {
        match self.masks_of(preset) {
            Some(masks) => names_on(alloc, self.descriptors(), masks),
            None => Ok(Vec::new(alloc)),
        }
    }
}
