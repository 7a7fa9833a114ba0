ghost use Rattle.std.specs.Prelude.{◌≡◌, ◌↔◌, ◌<◌, IsTrue};
ghost use Rattle.meta_settings.specs.Layout.{booleans_in, IsSized};
ghost use Rattle.meta_settings.specs.PresetLayout.{HasAll};

use super::preset::Preset;
use super::setting::Setting;
use meta_types::Text;
use std::marker::Model;

/// A group of settings with its layout. Only `SettingGroupBuilder::build` makes one.
#[derive(Debug, Drop)]
pub struct SettingGroup {
    pub(crate) name: Text,
    pub(crate) settings: Vec<Setting>,
    pub(crate) bool_start_byte_offset: u8,
    pub(crate) settings_size: u8,
    pub(crate) presets: Vec<Preset>,
}

impl Model for SettingGroup {
    ghost use Rattle.meta_settings.specs.Layout.{Layout, IsSized};

    ghost Value = { Layout };

    ghost view = { λ g. record {
      name = g.name;
      settings = g.settings.items;
      bool_start_byte_offset = g.bool_start_byte_offset;
      settings_size = g.settings_size;
      presets = g.presets.items;
    } };

    ghost invariant = { λ g. IsSized g.settings.items g.bool_start_byte_offset g.settings_size };
}

impl SettingGroup {
    /// The name of the group.
    pub fn name(&self) -> &Text
        ensures { result.now ≡ self.now.name }
    {
        &self.name
    }

    /// The settings: first the enums and numbers, then the booleans, each in order of declaration.
    pub fn settings(&self) -> &[Setting]
        ensures { result.now ≡ self.now.settings }
    {
        self.settings.as_slice()
    }

    /// The place of the first byte that has booleans, which is the count of enums and numbers.
    pub fn bool_start_byte_offset(&self) -> u8
        ensures { result ≡ self.now.bool_start_byte_offset }
    {
        self.bool_start_byte_offset
    }

    /// How many bytes the settings take.
    pub fn settings_size(&self) -> u8
        ensures size { result ≡ self.now.settings_size }
        ensures sized { IsSized self.now.settings self.now.bool_start_byte_offset self.now.settings_size }
    {
        self.settings_size
    }

    /// How many bytes the settings take, as `settings_size`.
    pub fn byte_size(&self) -> u8
        ensures { result ≡ self.now.settings_size }
    {
        self.settings_size
    }

    /// The presets, in order of declaration.
    pub fn presets(&self) -> &[Preset]
        ensures { result.now ≡ self.now.presets }
    {
        self.presets.as_slice()
    }

    /// Whether the numbers of all booleans that the preset turns on are below the group's count of booleans.
    pub fn has(&self, preset: &Preset) -> bool
        ensures { IsTrue result ↔ HasAll self.now preset.now }
    {
        let count = self.booleans().len();
        preset
            .booleans()
            .iter()
            .all(|number| usize::from(*number) < count)
    }

    pub(crate) fn booleans(&self) -> &[Setting]
        ensures booleans { result.now ≡ booleans_in self.now }
        ensures sized { IsSized self.now.settings self.now.bool_start_byte_offset self.now.settings_size }
    {
        self.settings
            .split_at(self.bool_start_byte_offset as usize)
            .1
    }
}
