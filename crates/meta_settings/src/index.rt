ghost use Rattle.std.specs.Prelude.{◌≡◌};
ghost use Rattle.meta_settings.specs.declared.index.PresetType.TheVariants.{BoolSetting, OtherPreset};

use std::marker::Model;

/// The number of a boolean among the booleans of its group, from 0, below 2^32.
#[derive(Clone, Copy, Debug, PartialEq, Eq, Hash)]
pub struct BoolSettingIndex {
    pub(crate) number: u32,
}

impl Model for BoolSettingIndex {
    ghost use Rattle.std.specs.Prelude.{ℕ};

    ghost Value = { ℕ };

    ghost view = { λ i. i.number };

    ghost inverse = { λ n. record { number = n } };
}

impl BoolSettingIndex {
    /// The number, from 0.
    pub fn number(self) -> u32
        ensures { result ≡ self }
    {
        self.number
    }
}

/// The number of a preset among the presets of its group, from 0, below 2^32.
#[derive(Clone, Copy, Debug, PartialEq, Eq, Hash)]
pub struct PresetIndex {
    pub(crate) number: u32,
}

impl Model for PresetIndex {
    ghost use Rattle.std.specs.Prelude.{ℕ};

    ghost Value = { ℕ };

    ghost view = { λ i. i.number };

    ghost inverse = { λ n. record { number = n } };
}

impl PresetIndex {
    /// The number, from 0.
    pub fn number(self) -> u32
        ensures { result ≡ self }
    {
        self.number
    }
}

/// What a preset names: a boolean, or an earlier preset.
#[derive(Debug, Drop, PartialEq, Eq, Hash)]
pub enum PresetType {
    BoolSetting(BoolSettingIndex),
    OtherPreset(PresetIndex),
}

impl From<BoolSettingIndex> for PresetType {
    ghost from_gives = { λ index named. named ≡ BoolSetting index };

    fn from(index: BoolSettingIndex) -> PresetType {
        PresetType::BoolSetting(index)
    }
}

impl From<PresetIndex> for PresetType {
    ghost from_gives = { λ index named. named ≡ OtherPreset index };

    fn from(index: PresetIndex) -> PresetType {
        PresetType::OtherPreset(index)
    }
}

/// A list of what a preset names, as in `preset!(alloc; a && b)`: a `Vec<PresetType>` that has each name as `PresetType::from` gives it.
/// `preset!(alloc;)` names nothing. The macro stands in a function that answers a `Result`, which memory that runs out ends with the error.
#[macro_export]
macro_rules! preset {
    ($alloc:expr;) => {
        Vec::<$crate::PresetType>::new($alloc)
    };
    ($alloc:expr; $($name:tt)&&+) => {{
        let mut named = Vec::<$crate::PresetType>::new($alloc);
        $(named.push($crate::PresetType::from($name))?;)+
        named
    }};
}
