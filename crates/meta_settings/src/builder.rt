ghost use Rattle.std.specs.Prelude.{◌≡◌, ◌≢◌, ◌↔◌, ◌+◌, ◌<◌, ◌^◌, [], IsTrue, IfOk, IfErr, OnOk, OnErr, length, slice_get, Some};
ghost use Rattle.meta_types.specs.declared.fault.DefinitionError.TheVariants.{OutOfMemory};
ghost use Rattle.meta_settings.specs.declared.proto.ProtoSpecificSetting.TheVariants.{Bool, Enum, Num};
ghost use Rattle.meta_settings.specs.GroupDeclaration.{boolean_count, byte_count, entry_count, entries_of};
ghost use Rattle.meta_settings.specs.Declaring.{with_setting, with_preset};
ghost use Rattle.meta_settings.specs.GroupFaults.{IsFirstGroupFault, IsValidGroup};
ghost use Rattle.meta_settings.specs.LaidOut.{built_of};

use super::entry::Entry;
use super::fault::group_fault;
use super::group::SettingGroup;
use super::index::{BoolSettingIndex, PresetIndex, PresetType};
use super::layout::laid_out_group;
use super::proto::{ProtoPreset, ProtoSetting, ProtoSpecificSetting};
use super::value_names::ValueNames;
use meta_types::{DefinitionError, Text};
use std::alloc::{AllocError, Global};
use std::marker::Model;

/// A group of settings that is being declared. It keeps what it was given, in order.
#[derive(Debug, Drop)]
pub struct SettingGroupBuilder {
    pub(crate) name: Text,
    pub(crate) settings: Vec<ProtoSetting>,
    pub(crate) presets: Vec<ProtoPreset>,
    booleans: u32,
}

impl Model for SettingGroupBuilder {
    ghost use Rattle.meta_settings.specs.GroupDeclaration.{GroupDeclaration};
    ghost use Rattle.meta_settings.specs.Declaring.{IsCounted};

    ghost Value = { GroupDeclaration };

    ghost view = { λ b. record { name = b.name; settings = b.settings.items; presets = b.presets.items } };

    ghost invariant = { λ b. IsCounted b.settings.items b.presets.items b.booleans };
}

impl SettingGroupBuilder {
    /// Makes a group with this name, without settings or presets.
    pub fn new(alloc: Global, name: Text) -> Self
        ensures { result ≡ record { name = name; settings = []; presets = [] } }
    {
        SettingGroupBuilder {
            name,
            settings: Vec::new(alloc),
            presets: Vec::new(alloc),
            booleans: 0,
        }
    }

    /// Whether a setting or a preset can be added: the group has fewer than 2^32 - 1 of them together.
    pub fn has_room(&self) -> bool
        ensures { IsTrue result ↔ (entry_count self.now + 1 < 2 ^ 32) }
    {
        self.entry_count() < 0xffff_ffff
    }

    /// Adds a boolean with its default. It answers the boolean's number among the booleans of the group, from 0. If memory runs out, the
    /// group stays as it was.
    pub fn add_bool(
        &mut self,
        name: Text,
        description: Text,
        comment: Text,
        default: bool,
    ) -> Result<BoolSettingIndex, AllocError>
        requires { entry_count self.old + 1 < 2 ^ 32 }
        ensures number { IfOk result (λ index. index ≡ boolean_count self.old) }
        ensures added { OnOk result (self.new ≡ with_setting self.old
            (record { name = name; description = description; comment = comment; specific = Bool default })) }
        ensures unchanged { OnErr result (self.new ≡ self.old) }
    {
        let number = self.booleans;
        let specific = ProtoSpecificSetting::Bool(default);
        self.settings
            .push(ProtoSetting::new(name, description, comment, specific))?;
        self.booleans += 1;
        Ok(BoolSettingIndex { number })
    }

    /// Adds an enum with the names of its values. The first of these is the default. If memory runs out, the group stays as it was.
    pub fn add_enum(
        &mut self,
        name: Text,
        description: Text,
        comment: Text,
        values: Vec<Text>,
    ) -> Result<(), AllocError>
        requires { entry_count self.old + 1 < 2 ^ 32 }
        ensures added { OnOk result (self.new ≡ with_setting self.old
            (record { name = name; description = description; comment = comment; specific = Enum values.items })) }
        ensures unchanged { OnErr result (self.new ≡ self.old) }
    {
        let specific = ProtoSpecificSetting::Enum(ValueNames::from(values));
        self.settings
            .push(ProtoSetting::new(name, description, comment, specific))?;
        Ok(())
    }

    /// Adds a number with its default. If memory runs out, the group stays as it was.
    pub fn add_num(
        &mut self,
        name: Text,
        description: Text,
        comment: Text,
        default: u8,
    ) -> Result<(), AllocError>
        requires { entry_count self.old + 1 < 2 ^ 32 }
        ensures added { OnOk result (self.new ≡ with_setting self.old
            (record { name = name; description = description; comment = comment; specific = Num default })) }
        ensures unchanged { OnErr result (self.new ≡ self.old) }
    {
        let specific = ProtoSpecificSetting::Num(default);
        self.settings
            .push(ProtoSetting::new(name, description, comment, specific))?;
        Ok(())
    }

    /// Adds a preset. `args` are the booleans and presets that it names. It answers the preset's number among the presets of the group,
    /// from 0. If memory runs out, the group stays as it was.
    pub fn add_preset(
        &mut self,
        name: Text,
        description: Text,
        args: Vec<PresetType>,
    ) -> Result<PresetIndex, AllocError>
        requires { entry_count self.old + 1 < 2 ^ 32 }
        ensures number { IfOk result (λ index. index ≡ length self.old.presets) }
        ensures added { OnOk result (self.new ≡ with_preset self.old
            (record { name = name; description = description; args = args.items })) }
        ensures unchanged { OnErr result (self.new ≡ self.old) }
    {
        let number = self.presets.len() as u32;
        self.presets.push(ProtoPreset {
            name,
            description,
            args,
        })?;
        Ok(PresetIndex { number })
    }

    /// Lays out the group. A group with a fault is refused, and no other: the error is its first fault, with `group` as the number of the
    /// group. First comes a bad name of the group; then, entry by entry, a bad name, a duplicate name, a bad enum, a bad preset; then too
    /// many settings. `OutOfMemory` may come in any case.
    pub fn build(&self, alloc: Global, group: u64) -> Result<SettingGroup, DefinitionError>
        ensures refused { IfErr result (λ e. e ≢ OutOfMemory → IsFirstGroupFault self.now group e) }
        ensures valid { OnOk result (IsValidGroup self.now) }
        ensures built { IfOk result (λ g. g ≡ built_of self.now) }
    {
        if let Some(fault) = group_fault(alloc, self, group)? {
            return Err(fault);
        }
        Ok(laid_out_group(alloc, self)?)
    }

    pub(crate) fn boolean_count(&self) -> u32
        ensures { result ≡ boolean_count self.now }
    {
        self.booleans
    }

    pub(crate) fn byte_count(&self) -> u64
        ensures { result ≡ byte_count self.now }
    {
        let booleans = u64::from(self.booleans);
        self.settings.len() as u64 - booleans + (booleans + 7) / 8
    }

    pub(crate) fn entry_count(&self) -> usize
        ensures { result ≡ entry_count self.now }
    {
        self.settings.len() + self.presets.len()
    }

    /// The setting at this place, or the preset, whose places come after those of the settings.
    pub(crate) fn entry(&self, place: usize) -> Entry<'_>
        requires { place < entry_count self.now }
        ensures { slice_get (entries_of self.now) place ≡ Some result }
    {
        if place < self.settings.len() {
            self.settings[place].entry()
        } else {
            self.presets[place - self.settings.len()].entry()
        }
    }
}
