ghost use Rattle.std.specs.Prelude.{◌≡◌, ◌++◌, ℕ, length, map, slice_get, Some, IfOk, OnOk};
ghost use Rattle.meta_settings.specs.Layout.{BuiltPreset};
ghost use Rattle.meta_settings.specs.PresetLayout.{HasAll};
ghost use Rattle.meta_setting_tables.specs.PresetMasks.{ArePresetMasks, AreJoined};

use meta_settings::SettingGroup;
use std::alloc::{AllocError, Global};

fn add_masks(masks: &mut Vec<u8>, layout: &[(u8, u8)]) -> Result<(), AllocError>
    ensures { OnOk result (masks.new.items ≡ masks.old.items ++ map (λ pair. pair.0) layout.now) }
{
    for (mask, _value) in layout {
        masks.push(*mask)?;
    }
    Ok(())
}

/// The masks of the presets, preset after preset, each with one mask for each setting byte. A preset must turn on booleans of the group
/// alone.
pub(crate) fn preset_masks(alloc: Global, group: &SettingGroup) -> Result<Vec<u8>, AllocError>
    requires { (k : ℕ) (p : BuiltPreset) → slice_get group.now.presets k ≡ Some p → HasAll group.now p }
    ensures { IfOk result (λ v. ArePresetMasks group.now v.items) }
{
    let mut masks = Vec::new(alloc);
    for preset in group.presets() {
        let layout = preset.layout(alloc, group)?;
        add_masks(&mut masks, layout.as_slice())?;
    }
    Ok(masks)
}

pub(crate) fn join(bytes: &mut [u8], masks: &[u8])
    requires { length bytes.old ≡ length masks.now }
    ensures { AreJoined bytes.old masks.now bytes.new }
{
    for k in 0..bytes.len() {
        bytes[k] |= masks[k];
    }
}
