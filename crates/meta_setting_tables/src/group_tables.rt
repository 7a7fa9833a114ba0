ghost use Rattle.std.specs.Prelude.{◌≡◌, ◌↔◌, ◌+◌, ◌*◌, ◌≤◌, ◌<◌, ℕ, List, [], length, map, take, drop, slice_get, slice_index_or};
ghost use Rattle.std.specs.Prelude.{option_map, Contains, All, Some, None, false, IsTrue, IsSome, IfSome, IfNone, IfOk, OnOk};
ghost use Rattle.meta_types.specs.SharedNames.{AreDifferentNames};
ghost use Rattle.meta_settings.specs.declared.setting.SpecificSetting.TheVariants.{Enum};
ghost use Rattle.meta_settings.specs.Layout.{PlacedSetting, BuiltPreset, Layout, IsSized};
ghost use Rattle.meta_setting_tables.specs.declared.descriptor.Descriptor.{Descriptor};
ghost use Rattle.meta_setting_tables.specs.BuiltLayout.{HaveNumbers, IsBuiltLayout};
ghost use Rattle.meta_setting_tables.specs.Descriptor.{IsDetailOf, DescribesSetting, DescribesEntry, preset_descriptor};
ghost use Rattle.meta_setting_tables.specs.EnumeratorList.{enumerators_of, built_values_of, with_values, HasGrown};
ghost use Rattle.meta_unique.specs.NameSlots.{AreNameSlots, NameAnswers, IsNameLookup};
ghost use Rattle.meta_setting_tables.specs.FoundSetting.{entry_names, laid_entry_count, FindsEntry};
ghost use Rattle.meta_setting_tables.specs.DefaultBytes.{AreDefaultsOf};
ghost use Rattle.meta_setting_tables.specs.PresetMasks.{AreJoined, ArePresetMasks};
ghost use Rattle.meta_setting_tables.specs.WellFormed.{preset_count, IsWellFormedGroup};
ghost use Rattle.meta_setting_tables.specs.Parts.{HasGroupParts, AreGoodParts};
ghost use Rattle.meta_setting_tables.specs.GroupTables.{names_in, IsInside, IsPresetIn, AreTablesOfGroup, default_in, AnswersDefault};
ghost use Rattle.meta_setting_tables.specs.GroupTables.{Applies};

use super::default_bytes::default_bytes;
use super::descriptor::{Descriptor, Detail, same_descriptors};
use super::enumerators::Enumerators;
use super::parts::GroupParts;
use super::preset_masks::{join, preset_masks};
use meta_settings::{Preset, Setting, SettingGroup, SpecificSetting};
use meta_types::{Text, same_texts};
use meta_unique::{Steps, name_slots, probe, probe_counted, same_slots, simple_hash};
use std::alloc::{AllocError, Global};
use std::marker::Model;
use std::sync::ledger::Ledger;

/// The tables of a group of settings: its entries, which are its settings by byte and bit and then its presets, and what a look-up of an
/// entry needs. In the crate `gen_descriptors` and `gen_template` of `gen_settings.rs` write them as text.
#[derive(Debug, Drop)]
pub struct GroupTables {
    name: Text,
    descriptors: Vec<Descriptor>,
    enumerators: Vec<Text>,
    defaults: Vec<u8>,
    preset_masks: Vec<u8>,
    slots: Vec<Option<u16>>,
}

impl Model for GroupTables {
    ghost use Rattle.meta_setting_tables.specs.GroupTables.{GroupContents};
    ghost use Rattle.meta_setting_tables.specs.WellFormed.{AreKeptOfGroup};

    ghost Value = { GroupContents };

    ghost view = { λ t. record {
      name = t.name;
      descriptors = t.descriptors.items;
      enumerators = t.enumerators.items;
      defaults = t.defaults.items;
      preset_masks = t.preset_masks.items;
      slots = t.slots.items;
    } };

    ghost invariant = { λ t. AreKeptOfGroup (record {
      name = t.name;
      descriptors = t.descriptors.items;
      enumerators = t.enumerators.items;
      defaults = t.defaults.items;
      preset_masks = t.preset_masks.items;
      slots = t.slots.items;
    }) };
}

fn default_of(defaults: &[u8], descriptor: &Descriptor) -> Option<u8>
    requires { (masks : ℕ) × IsInside (length defaults.now) masks descriptor.now.offset descriptor.now.detail }
    ensures { result ≡ default_in (slice_index_or defaults.now descriptor.now.offset 0) descriptor.now.detail }
{
    let offset = descriptor.offset as usize;
    match descriptor.detail {
        Detail::Bool { bit } => Some(defaults[offset] >> bit & 1),
        Detail::Enum { .. } => Some(0),
        Detail::Num => Some(defaults[offset]),
        Detail::Preset => None,
    }
}

/// The kind of a setting. The values of an enum are added to the enumerators.
fn detail_of<'g>(
    alloc: Global,
    specific: &'g SpecificSetting,
    enumerators: &mut Enumerators<'g>,
) -> Result<Detail, AllocError>
    requires { (values : List (List ℕ)) → specific.now ≡ Enum values → (length enumerators.old < 65536) × HaveNumbers values }
    ensures detail { (before : List PlacedSetting) → enumerators.old ≡ enumerators_of before
        → IfOk result (λ d. IsDetailOf enumerators.new before specific.now d) }
    ensures added { OnOk result (enumerators.new ≡ with_values enumerators.old (built_values_of specific.now)) }
    ensures grown { OnOk result (HasGrown enumerators.old enumerators.new) }
{
    match specific {
        SpecificSetting::Bool(boolean) => Ok(Detail::Bool {
            bit: boolean.bit_offset,
        }),
        SpecificSetting::Enum(names) => {
            let values = names.as_slice();
            let place = enumerators.add(alloc, values)?;
            Ok(Detail::Enum {
                last: (values.len() - 1) as u8,
                enumerators: place as u16,
            })
        }
        SpecificSetting::Num(_) => Ok(Detail::Num),
    }
}

fn describe_settings<'g>(
    alloc: Global,
    settings: &'g [Setting],
    enumerators: &mut Enumerators<'g>,
) -> Result<Vec<Descriptor>, AllocError>
    requires empty { enumerators.old ≡ [] }
    requires enums { (k : ℕ) (s : PlacedSetting) (values : List (List ℕ)) → slice_get settings.now k ≡ Some s
        → s.specific ≡ Enum values → (k < 255) × HaveNumbers values }
    ensures enumerators { OnOk result (enumerators.new ≡ enumerators_of settings.now) }
    ensures names { IfOk result (λ v. names_in v.items ≡ map (λ (s : PlacedSetting). s.name) settings.now) }
    ensures described { IfOk result (λ v. (k : ℕ) (s : PlacedSetting) (d : Descriptor)
        → slice_get settings.now k ≡ Some s → slice_get v.items k ≡ Some d → DescribesSetting enumerators.new (take k settings.now) s d) }
{
    let mut descriptors = Vec::with_capacity(alloc, settings.len())?;
    for setting in settings {
        let detail = detail_of(alloc, setting.specific(), enumerators)?;
        descriptors.push(Descriptor {
            name: setting.name().copy(alloc)?,
            description: setting.description().copy(alloc)?,
            offset: u32::from(setting.byte_offset()),
            detail,
        })?;
    }
    Ok(descriptors)
}

fn describe_presets(
    alloc: Global,
    presets: &[Preset],
    size: u8,
) -> Result<Vec<Descriptor>, AllocError>
    requires { length presets.now ≤ 65535 }
    ensures names { IfOk result (λ v. names_in v.items ≡ map (λ (p : BuiltPreset). p.name) presets.now) }
    ensures described { IfOk result (λ v. (k : ℕ) (p : BuiltPreset) → slice_get presets.now k ≡ Some p
        → slice_get v.items k ≡ Some (preset_descriptor size k p)) }
{
    let mut descriptors = Vec::with_capacity(alloc, presets.len())?;
    for (k, preset) in presets.iter().enumerate() {
        descriptors.push(Descriptor {
            name: preset.name().copy(alloc)?,
            description: preset.description().copy(alloc)?,
            offset: u32::from(k as u16) * u32::from(size),
            detail: Detail::Preset,
        })?;
    }
    Ok(descriptors)
}

/// The descriptors of a group, and the values that those of its enums point to.
#[derive(Drop)]
struct DescribedEntries {
    descriptors: Vec<Descriptor>,
    enumerators: Vec<Text>,
}

fn described_by<'g>(
    alloc: Global,
    group: &'g SettingGroup,
    enumerators: &mut Enumerators<'g>,
) -> Result<DescribedEntries, AllocError>
    requires built { IsBuiltLayout group.now }
    requires empty { enumerators.old ≡ [] }
    ensures sized { IsSized group.now.settings group.now.bool_start_byte_offset group.now.settings_size }
    ensures small { group.now.settings_size ≤ 255 }
    ensures enumerators { IfOk result (λ d. d.enumerators.items ≡ enumerators_of group.now.settings) }
    ensures names { IfOk result (λ d. names_in d.descriptors.items ≡ entry_names group.now) }
    ensures entries { IfOk result (λ d. (e : ℕ) (own : Descriptor) → slice_get d.descriptors.items e ≡ Some own
        → DescribesEntry group.now d.enumerators.items e own) }
{
    let size = group.settings_size();
    let mut descriptors = describe_settings(alloc, group.settings(), enumerators)?;
    let mut presets = describe_presets(alloc, group.presets(), size)?;
    descriptors.append(&mut presets)?;
    Ok(DescribedEntries {
        enumerators: enumerators.copied(alloc)?,
        descriptors,
    })
}

fn described(alloc: Global, group: &SettingGroup) -> Result<DescribedEntries, AllocError>
    requires { IsBuiltLayout group.now }
    ensures sized { IsSized group.now.settings group.now.bool_start_byte_offset group.now.settings_size }
    ensures small { group.now.settings_size ≤ 255 }
    ensures enumerators { IfOk result (λ d. d.enumerators.items ≡ enumerators_of group.now.settings) }
    ensures names { IfOk result (λ d. names_in d.descriptors.items ≡ entry_names group.now) }
    ensures entries { IfOk result (λ d. (e : ℕ) (own : Descriptor) → slice_get d.descriptors.items e ≡ Some own
        → DescribesEntry group.now d.enumerators.items e own) }
{
    let mut enumerators = Enumerators::new(alloc);
    described_by(alloc, group, &mut enumerators)
}

#[derive(Drop)]
struct SettingBytes {
    defaults: Vec<u8>,
    preset_masks: Vec<u8>,
}

fn bytes(alloc: Global, group: &SettingGroup) -> Result<SettingBytes, AllocError>
    requires { IsBuiltLayout group.now }
    ensures defaults { IfOk result (λ b. AreDefaultsOf group.now b.defaults.items) }
    ensures bytes { IfOk result (λ b. All (λ n. n < 256) b.defaults.items) }
    ensures masks { IfOk result (λ b. ArePresetMasks group.now b.preset_masks.items) }
{
    let defaults = default_bytes(alloc, group)?;
    Ok(SettingBytes {
        preset_masks: preset_masks(alloc, group)?,
        defaults,
    })
}

fn entry_slots(alloc: Global, descriptors: &[Descriptor]) -> Result<Vec<Option<u16>>, AllocError>
    requires { length descriptors.now ≤ 65535 }
    ensures slots { IfOk result (λ v. AreNameSlots 0 (names_in descriptors.now) v.items) }
    ensures vacant { IfOk result (λ v. Contains v.items None) }
{
    let mut names = Vec::with_capacity(alloc, descriptors.len())?;
    for descriptor in descriptors {
        names.push(descriptor.name.as_bytes())?;
    }
    name_slots(alloc, names.as_slice(), 0)
}

impl GroupTables {
    /// Makes the tables of a group. `SettingGroupBuilder::build` answers only groups that have tables.
    pub fn of(alloc: Global, group: &SettingGroup) -> Result<GroupTables, AllocError>
        requires { IsBuiltLayout group.now }
        ensures tables { IfOk result (λ t. AreTablesOfGroup group.now t) }
        ensures well_formed { IfOk result IsWellFormedGroup }
    {
        let described = described(alloc, group)?;
        let slots = entry_slots(alloc, described.descriptors.as_slice())?;
        let bytes = bytes(alloc, group)?;
        Ok(GroupTables {
            name: group.name().copy(alloc)?,
            descriptors: described.descriptors,
            enumerators: described.enumerators,
            defaults: bytes.defaults,
            preset_masks: bytes.preset_masks,
            slots,
        })
    }

    pub(crate) fn with_parts(alloc: Global, parts: GroupParts) -> Result<GroupTables, AllocError>
        requires { AreGoodParts parts }
        ensures parts { IfOk result (HasGroupParts parts) }
        ensures well_formed { IfOk result IsWellFormedGroup }
    {
        let slots = entry_slots(alloc, parts.descriptors.as_slice())?;
        Ok(GroupTables {
            name: parts.name,
            descriptors: parts.descriptors,
            enumerators: parts.enumerators,
            defaults: parts.defaults,
            preset_masks: parts.preset_masks,
            slots,
        })
    }

    /// Whether these tables and the others are equal in all parts.
    pub fn same(&self, other: &GroupTables) -> bool
        ensures { IsTrue result ↔ (self.now ≡ other.now) }
    {
        if self.name != other.name {
            return false;
        }
        if !same_descriptors(&self.descriptors, &other.descriptors) {
            return false;
        }
        if !same_texts(&self.enumerators, &other.enumerators) {
            return false;
        }
        if self.defaults != other.defaults {
            return false;
        }
        if self.preset_masks != other.preset_masks {
            return false;
        }
        same_slots(&self.slots, &other.slots)
    }

    /// The name of the group.
    pub fn name(&self) -> &Text
        ensures { result.now ≡ self.now.name }
    {
        &self.name
    }

    /// How many bytes the settings take, which is the count of default bytes.
    pub fn settings_size(&self) -> u8
        ensures size { result ≡ length self.now.defaults }
        ensures meaning { (g : Layout) → AreTablesOfGroup g self.now → result ≡ g.settings_size }
    {
        self.defaults.len() as u8
    }

    /// The entries, at most 65,535: the settings by byte and bit, then the presets.
    pub fn descriptors(&self) -> &[Descriptor]
        ensures entries { result.now ≡ self.now.descriptors }
        ensures few { length result.now ≤ 65535 }
        ensures well_formed { IsWellFormedGroup self.now }
    {
        self.descriptors.as_slice()
    }

    /// The names of the values of all enums, in one list. The descriptor of an enum says where its own begin.
    pub fn enumerators(&self) -> &[Text]
        ensures { result.now ≡ self.now.enumerators }
    {
        self.enumerators.as_slice()
    }

    /// The default bytes, one for each setting byte. Declared defaults of booleans are joined in a byte.
    pub fn defaults(&self) -> &[u8]
        ensures { result.now ≡ self.now.defaults }
    {
        self.defaults.as_slice()
    }

    /// The masks of the presets, preset after preset, each with one mask for each setting byte.
    pub fn preset_masks(&self) -> &[u8]
        ensures masks { result.now ≡ self.now.preset_masks }
        ensures count { length result.now ≡ preset_count self.now.descriptors * length self.now.defaults }
    {
        self.preset_masks.as_slice()
    }

    /// The slots of the names of the entries. They hold the numbers of entries.
    pub fn setting_slots(&self) -> &[Option<u16>]
        ensures slots { result.now ≡ self.now.slots }
        ensures names { AreNameSlots 0 (names_in self.now.descriptors) self.now.slots }
    {
        self.slots.as_slice()
    }

    /// The entry with the number `index`, from 0. `None` exactly if there is no such entry.
    pub fn descriptor(&self, index: u16) -> Option<&Descriptor>
        ensures entry { option_map (λ d. d.now) result ≡ slice_get self.now.descriptors index }
        ensures none { (g : Layout) → AreTablesOfGroup g self.now → (IsSome result ↔ (index < laid_entry_count g)) }
        ensures meaning { (g : Layout) → AreTablesOfGroup g self.now
            → IfSome result (λ d. DescribesEntry g self.now.enumerators index d.now) }
    {
        self.descriptors.get(index as usize)
    }

    /// The default of the setting with the number `index`: 0 or 1 for a boolean, 0 for an enum, which is its first value, and the declared
    /// number. `None` exactly if the entry is a preset, or there is no such entry.
    pub fn default_value(&self, index: u16) -> Option<u8>
        ensures entry { (d : Descriptor) → slice_get self.now.descriptors index ≡ Some d
            → result ≡ default_in (slice_index_or self.now.defaults d.offset 0) d.detail }
        ensures absent { slice_get self.now.descriptors index ≡ None → result ≡ None }
        ensures meaning { (g : Layout) → AreTablesOfGroup g self.now → AnswersDefault g index result }
    {
        default_of(&self.defaults, self.descriptors.get(index as usize)?)
    }

    fn is_named(&self, index: u16, name: &[u8]) -> bool
        ensures { NameAnswers 0 (names_in self.now.descriptors) name.now index result }
    {
        match self.descriptors.get(index as usize) {
            Some(descriptor) => descriptor.name.as_bytes() == name,
            None => false,
        }
    }

    /// The number of the entry that has the name, or of the first one if there are several. `None` exactly if no entry has it. In a group
    /// that is built at most one has it, as `built_groups_have_tables` says.
    pub fn find_setting(&self, name: &[u8]) -> Option<u16>
        ensures found { FindsEntry (names_in self.now.descriptors) name.now result }
        ensures meaning { (g : Layout) → AreTablesOfGroup g self.now → FindsEntry (entry_names g) name.now result }
        ensures exact { (g : Layout) → AreTablesOfGroup g self.now → AreDifferentNames (entry_names g) → (e : ℕ)
            → ((result ≡ Some e) ↔ (slice_get (entry_names g) e ≡ Some name.now)) }
    {
        probe(self.slots.as_slice(), simple_hash(name), |index| {
            self.is_named(index, name)
        })
    }

    /// Finds an entry as `find_setting` does. `steps` rises by the number of slots that were looked at.
    pub fn find_setting_counted<L: Ledger>(&self, name: &[u8], steps: &mut Steps<L>) -> Option<u16>
        ensures found { FindsEntry (names_in self.now.descriptors) name.now result }
        ensures meaning { (g : Layout) → AreTablesOfGroup g self.now → FindsEntry (entry_names g) name.now result }
        ensures exact { (g : Layout) → AreTablesOfGroup g self.now → AreDifferentNames (entry_names g) → (e : ℕ)
            → ((result ≡ Some e) ↔ (slice_get (entry_names g) e ≡ Some name.now)) }
        ensures counted { (last : ℕ) × IsNameLookup 0 (names_in self.now.descriptors) self.now.slots name.now result
            last × (steps.new ≡ steps.old + (last + 1)) }
        ensures most { steps.new ≤ steps.old + length self.now.slots }
    {
        probe_counted(
            self.slots.as_slice(),
            simple_hash(name),
            |index| self.is_named(index, name),
            steps,
        )
    }

    /// The masks of a preset, one for each setting byte: the bits of what it turns on are on. `preset` is the number of its entry. `None`
    /// exactly if that isn't a preset.
    pub fn masks_of(&self, preset: u16) -> Option<&[u8]>
        ensures masks { IfSome result (λ masks. (d : Descriptor) × IsPresetIn self.now.descriptors preset d
            × (masks.now ≡ take (length self.now.defaults) (drop d.offset self.now.preset_masks))) }
        ensures size { IfSome result (λ masks. length masks.now ≡ length self.now.defaults) }
        ensures none { IfNone result ((d : Descriptor) → IsPresetIn self.now.descriptors preset d → ⊥) }
    {
        let descriptor = self.descriptors.get(preset as usize)?;
        if !descriptor.detail.is_preset() {
            return None;
        }
        let start = descriptor.offset as usize;
        Some(&self.preset_masks[start..start + self.defaults.len()])
    }

    /// Turns on the bits of a preset in the setting bytes. `preset` is the number of its entry. It answers false, and changes nothing,
    /// exactly if that isn't a preset of the group, or the length of `bytes` isn't `settings_size`.
    pub fn apply_preset(&self, preset: u16, bytes: &mut [u8]) -> bool
        ensures answer { IsTrue result ↔ (((d : Descriptor) × IsPresetIn self.now.descriptors preset d)
            × (length bytes.old ≡ length self.now.defaults)) }
        ensures joined { IsTrue result → (d : Descriptor) → IsPresetIn self.now.descriptors preset d
            → AreJoined bytes.old (take (length self.now.defaults) (drop d.offset self.now.preset_masks)) bytes.new }
        ensures unchanged { result ≡ false → bytes.new ≡ bytes.old }
        ensures meaning { (g : Layout) → AreTablesOfGroup g self.now → Applies g preset bytes.old bytes.new result }
    {
        let Some(masks) = self.masks_of(preset) else {
            return false;
        };
        if bytes.len() != masks.len() {
            return false;
        }
        join(bytes, masks);
        true
    }
}
