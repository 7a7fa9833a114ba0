ghost use Rattle.std.specs.Prelude.{◌≡◌, IfOk};
ghost use Rattle.meta_settings.specs.Layout.{default_byte_of};
ghost use Rattle.meta_settings.specs.LaidOut.{placed_at};

use super::proto::{ProtoSetting, ProtoSpecificSetting};
use super::value_names::ValueNames;
use meta_types::Text;
use std::alloc::{AllocError, Global};
use std::marker::Model;

/// A boolean: its default, its bit in its byte, from 0, and its number among the booleans of its group, from 0 to 247.
#[derive(Clone, Copy, Debug, PartialEq, Eq, Hash)]
pub struct BoolSetting {
    pub default: bool,
    pub bit_offset: u8,
    pub predicate_number: u8,
}

/// What a setting is: a boolean, an enum with the names of its values, or a number with its default.
#[derive(Debug, Drop, PartialEq, Eq, Hash)]
pub enum SpecificSetting {
    Bool(BoolSetting),
    Enum(ValueNames),
    Num(u8),
}

/// A setting with its place. Only `SettingGroupBuilder::build` makes one.
#[derive(Debug, Drop, PartialEq, Eq, Hash)]
pub struct Setting {
    name: Text,
    description: Text,
    comment: Text,
    specific: SpecificSetting,
    byte_offset: u8,
}

impl Model for Setting {
    ghost use Rattle.std.specs.Prelude.{◌≡◌, ◌<◌};
    ghost use Rattle.meta_settings.specs.declared.setting.BoolSetting.{BoolSetting};
    ghost use Rattle.meta_settings.specs.declared.setting.SpecificSetting.TheVariants.{Bool};
    ghost use Rattle.meta_settings.specs.Layout.{PlacedSetting};

    ghost Value = { PlacedSetting };

    ghost view = { λ s. record {
      name = s.name;
      description = s.description;
      comment = s.comment;
      specific = s.specific;
      byte_offset = s.byte_offset;
    } };

    ghost invariant = { λ s. (b : BoolSetting) → s.specific ≡ Bool b → b.bit_offset < 8 };

    ghost inverse = { λ v. record {
      name = v.name;
      description = v.description;
      comment = v.comment;
      specific = v.specific;
      byte_offset = v.byte_offset;
    } };
}

impl Setting {
    /// The setting in this byte. A boolean gets this number.
    pub(crate) fn at(
        alloc: Global,
        declared: &ProtoSetting,
        byte_offset: u8,
        number: u8,
    ) -> Result<Setting, AllocError>
        ensures { IfOk result (λ s. s ≡ placed_at declared.now byte_offset number) }
    {
        let specific = match &declared.specific {
            ProtoSpecificSetting::Bool(default) => SpecificSetting::Bool(BoolSetting {
                default: *default,
                bit_offset: number % 8,
                predicate_number: number,
            }),
            ProtoSpecificSetting::Enum(values) => SpecificSetting::Enum(values.copy(alloc)?),
            ProtoSpecificSetting::Num(default) => SpecificSetting::Num(*default),
        };
        Ok(Setting {
            name: declared.name.copy(alloc)?,
            description: declared.description.copy(alloc)?,
            comment: declared.comment.copy(alloc)?,
            specific,
            byte_offset,
        })
    }

    /// The name of the setting.
    pub fn name(&self) -> &Text
        ensures { result.now ≡ self.now.name }
    {
        &self.name
    }

    /// The description of the setting.
    pub fn description(&self) -> &Text
        ensures { result.now ≡ self.now.description }
    {
        &self.description
    }

    /// The comment of the setting.
    pub fn comment(&self) -> &Text
        ensures { result.now ≡ self.now.comment }
    {
        &self.comment
    }

    /// Whether the setting is a boolean, an enum or a number, with what belongs to it.
    pub fn specific(&self) -> &SpecificSetting
        ensures { result.now ≡ self.now.specific }
    {
        &self.specific
    }

    /// The place of the setting's byte, from 0.
    pub fn byte_offset(&self) -> u8
        ensures { result ≡ self.now.byte_offset }
    {
        self.byte_offset
    }

    /// What the setting gives to its default byte: its bit if it is a boolean that is true, 0 if it is false; 0 for an enum; the default of
    /// a number.
    pub fn default_byte(&self) -> u8
        ensures { result ≡ default_byte_of self.now }
    {
        match &self.specific {
            SpecificSetting::Bool(b) => { if b.default { 1 << b.bit_offset } else { 0 } }
            SpecificSetting::Enum(_) => 0,
            SpecificSetting::Num(default) => *default,
        }
    }
}
