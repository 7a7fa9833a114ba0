ghost use Rattle.std.specs.Prelude.{◌≡◌};
ghost use Rattle.meta_settings.specs.GroupDeclaration.{is_bool, setting_entry, preset_entry};

use super::entry::Entry;
use super::index::PresetType;
use super::value_names::ValueNames;
use meta_types::Text;
use std::marker::Model;

/// What a setting is, as it is declared: a boolean with its default, an enum with the names of its values, the first of which
/// is the default, or a number with its default.
#[derive(Debug, Drop)]
pub enum ProtoSpecificSetting {
    Bool(bool),
    Enum(ValueNames),
    Num(u8),
}

/// A setting as it is declared.
#[derive(Debug, Drop)]
pub(crate) struct ProtoSetting {
    pub(crate) name: Text,
    pub(crate) description: Text,
    pub(crate) comment: Text,
    pub(crate) specific: ProtoSpecificSetting,
}

impl Model for ProtoSetting {
    ghost use Rattle.meta_settings.specs.GroupDeclaration.{SettingDeclaration};

    ghost Value = { SettingDeclaration };

    ghost view = { λ s. record { name = s.name; description = s.description; comment = s.comment; specific = s.specific } };
}

impl ProtoSetting {
    pub(crate) fn new(
        name: Text,
        description: Text,
        comment: Text,
        specific: ProtoSpecificSetting,
    ) -> ProtoSetting
        ensures { result ≡ record { name = name; description = description; comment = comment; specific = specific } }
    {
        ProtoSetting {
            name,
            description,
            comment,
            specific,
        }
    }

    pub(crate) fn is_bool(&self) -> bool
        ensures { result ≡ is_bool self.now }
    {
        match &self.specific {
            ProtoSpecificSetting::Bool(_) => true,
            ProtoSpecificSetting::Enum(_) => false,
            ProtoSpecificSetting::Num(_) => false,
        }
    }

    pub(crate) fn entry(&self) -> Entry<'_>
        ensures { result ≡ setting_entry self.now }
    {
        let values = match &self.specific {
            ProtoSpecificSetting::Bool(_) => None,
            ProtoSpecificSetting::Enum(values) => Some(values),
            ProtoSpecificSetting::Num(_) => None,
        };
        Entry {
            name: &self.name,
            description: &self.description,
            values,
            args: &[],
        }
    }
}

/// A preset as it is declared.
#[derive(Debug, Drop)]
pub(crate) struct ProtoPreset {
    pub(crate) name: Text,
    pub(crate) description: Text,
    pub(crate) args: Vec<PresetType>,
}

impl Model for ProtoPreset {
    ghost use Rattle.meta_settings.specs.GroupDeclaration.{PresetDeclaration};

    ghost Value = { PresetDeclaration };

    ghost view = { λ p. record { name = p.name; description = p.description; args = p.args.items } };
}

impl ProtoPreset {
    pub(crate) fn entry(&self) -> Entry<'_>
        ensures { result ≡ preset_entry self.now }
    {
        Entry {
            name: &self.name,
            description: &self.description,
            values: None,
            args: self.args.as_slice(),
        }
    }
}
