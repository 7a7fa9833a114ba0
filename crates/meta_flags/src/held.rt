ghost use Rattle.std.specs.Prelude.{◌≡◌, ◌++◌, IfOk, OnOk, string_bytes};
ghost use Rattle.meta_setting_tables.specs.declared.descriptor.Descriptor.{Descriptor};
ghost use Rattle.meta_setting_tables.specs.GroupTables.{IsPresetIn};
ghost use Rattle.meta_flags.specs.Served.{served_in, initial, marks_in};
ghost use Rattle.meta_flags.specs.Changes.{Sets, Enables, Gets, with_marked_true};
ghost use Rattle.meta_flags.specs.Held.{got};
ghost use Rattle.meta_flags.specs.Toml.{toml_text};

use super::flag_error::FlagError;
use super::flag_value::FlagValue;
use super::toml::push_line;
use super::values::{default_of, turn_on, value_in};
use meta_setting_tables::{Detail, GroupTables};
use std::alloc::{AllocError, Global};
use std::marker::Model;

/// The values of the settings of a group of tables, in order of the entries. They begin with the declared defaults.
#[derive(Drop)]
pub struct Flags<'t> {
    group: &'t GroupTables,
    values: Vec<FlagValue<'t>>,
}

impl<'t> Model for Flags<'t> {
    ghost use Rattle.std.specs.Prelude.{map};
    ghost use Rattle.meta_flags.specs.Held.{FlagContents, value_of, AreHeld};

    ghost Value = { FlagContents };

    ghost view = { λ f. record { group = f.group.now; state = map value_of f.values.items } };

    ghost invariant = { λ f. AreHeld (record { group = f.group.now; state = map value_of f.values.items }) };
}

impl<'t> Flags<'t> {
    /// Makes the values of the group, each with its default.
    pub fn of(alloc: Global, group: &'t GroupTables) -> Result<Flags<'t>, AllocError>
        ensures state { IfOk result (λ f. f.state ≡ initial (served_in group.now)) }
        ensures group { IfOk result (λ f. f.group ≡ group.now) }
    {
        let entries = group.descriptors();
        let mut values = Vec::new(alloc);
        for index in 0..entries.len() {
            if let Some(value) = default_of(group, index as u16, &entries[index]) {
                values.push(value)?;
            }
        }
        Ok(Flags { group, values })
    }

    /// Gives the setting of this name the value that is written: `true` or `false` for a boolean, a decimal number from 0 to 255 without
    /// leading zeros for a number, or one of the values of an enum. It takes no memory. The cost is the look-up of the name, and for an
    /// enum one pass over its values.
    ///
    /// The error is `Unknown` exactly if no entry has the name, `Kind` exactly if it is a preset's, and `Value` exactly if the text writes
    /// no value of the setting. After an error nothing has changed.
    pub fn set(&mut self, name: &[u8], value: &[u8]) -> Result<(), FlagError>
        ensures set { Sets (served_in self.old.group) name.now value.now self.old.state result self.new.state }
        ensures group { self.new.group ≡ self.old.group }
    {
        let Some(index) = self.group.find_setting(name) else {
            return Err(FlagError::Unknown);
        };
        let Some(entry) = self.group.descriptor(index) else {
            return Err(FlagError::Unknown);
        };
        if entry.detail.is_preset() {
            return Err(FlagError::Kind);
        }
        let Some(written) = value_in(self.group, index, entry, value) else {
            return Err(FlagError::Value);
        };
        self.values[index as usize] = written;
        Ok(())
    }

    /// Makes the boolean of this name true, or each boolean that the preset of this name turns on, by itself or by the presets that it
    /// names. It takes no memory. The cost is the look-up of the name, and for a preset one pass over the settings.
    ///
    /// The error is `Unknown` exactly if no entry has the name, and `Kind` exactly if it is a number's or an enum's. After an error nothing
    /// has changed.
    pub fn enable(&mut self, name: &[u8]) -> Result<(), FlagError>
        ensures enabled { Enables (served_in self.old.group) name.now self.old.state result self.new.state }
        ensures group { self.new.group ≡ self.old.group }
    {
        let Some(index) = self.group.find_setting(name) else {
            return Err(FlagError::Unknown);
        };
        let Some(entry) = self.group.descriptor(index) else {
            return Err(FlagError::Unknown);
        };
        match entry.detail {
            Detail::Bool { .. } => {
                self.values[index as usize] = FlagValue::Bool(true);
                Ok(())
            }
            Detail::Enum { .. } => Err(FlagError::Kind),
            Detail::Num => Err(FlagError::Kind),
            Detail::Preset => {
                self.turn_on_by(index);
                Ok(())
            }
        }
    }

    /// Makes each boolean true that the preset with this number among the entries turns on.
    fn turn_on_by(&mut self, preset: u16)
        ensures on { (d : Descriptor) → IsPresetIn self.old.group.descriptors preset d
            → self.new.state ≡ with_marked_true (marks_in self.old.group d.offset) self.old.state }
        ensures group { self.new.group ≡ self.old.group }
    {
        let Some(masks) = self.group.masks_of(preset) else {
            return;
        };
        let count = self.values.len();
        turn_on(&mut self.values, &self.group.descriptors()[..count], masks);
    }

    /// The value of the setting of this name. It takes no memory. The cost is the look-up of the name.
    ///
    /// The error is `Unknown` exactly if no entry has the name, and `Kind` exactly if it is a preset's.
    pub fn get(&self, name: &[u8]) -> Result<FlagValue<'t>, FlagError>
        ensures { Gets (served_in self.now.group) name.now self.now.state (got result) }
    {
        let Some(index) = self.group.find_setting(name) else {
            return Err(FlagError::Unknown);
        };
        match self.values.get(index as usize) {
            Some(value) => Ok(*value),
            None => Err(FlagError::Kind),
        }
    }

    /// Adds all values as text: `[GROUP]`, and for each setting, in order of the entries, a line `NAME = true`, `NAME = 12` or `NAME =
    /// "speed"`.
    pub(crate) fn push_toml(&self, out: &mut String) -> Result<(), AllocError>
        ensures { OnOk result (string_bytes out.new ≡ string_bytes out.old ++ toml_text (served_in self.now.group) self.now.state) }
    {
        let name = self.group.name().as_str();
        write!(out, "[{name}]\n")?;
        let entries = self.group.descriptors();
        for k in 0..self.values.len() {
            push_line(out, &entries[k].name, self.values[k])?;
        }
        Ok(())
    }
}
