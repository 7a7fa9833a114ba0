ghost use Rattle.std.specs.Prelude.{◌≡◌, ◌≤◌, ◌+◌, ◌/◌, IfOk, length};
ghost use Rattle.meta_settings.specs.GroupDeclaration.{booleans_among, others_among};
ghost use Rattle.meta_settings.specs.TurnedOn.{built_presets};
ghost use Rattle.meta_settings.specs.GroupFaults.{IsValidGroup};
ghost use Rattle.meta_settings.specs.Searched.{AreAllMet};
ghost use Rattle.meta_settings.specs.LaidOut.{in_bytes, in_bits, built_of};

use super::builder::SettingGroupBuilder;
use super::group::SettingGroup;
use super::preset::Preset;
use super::proto::{ProtoPreset, ProtoSetting};
use super::setting::Setting;
use std::alloc::{AllocError, Global};

/// The enums and numbers of these settings, each with a byte of its own.
fn in_bytes(alloc: Global, settings: &[ProtoSetting]) -> Result<Vec<Setting>, AllocError>
    requires { length (others_among settings.now) ≤ 255 }
    ensures { IfOk result (λ v. v.items ≡ in_bytes 0 (others_among settings.now)) }
{
    let mut placed = Vec::new(alloc);
    for setting in settings {
        if setting.is_bool() {
            continue;
        }
        placed.push(Setting::at(alloc, setting, placed.len() as u8, 0)?)?;
    }
    Ok(placed)
}

/// The booleans of these settings, eight to a byte, from the byte `start` on.
fn in_bits(alloc: Global, settings: &[ProtoSetting], start: u8) -> Result<Vec<Setting>, AllocError>
    requires few { length (booleans_among settings.now) ≤ 248 }
    requires bytes { start + (length (booleans_among settings.now) + 7) / 8 ≤ 255 }
    ensures { IfOk result (λ v. v.items ≡ in_bits start 0 (booleans_among settings.now)) }
{
    let mut placed = Vec::new(alloc);
    for setting in settings {
        if !setting.is_bool() {
            continue;
        }
        let number = placed.len() as u8;
        placed.push(Setting::at(alloc, setting, start + number / 8, number)?)?;
    }
    Ok(placed)
}

fn with_booleans(alloc: Global, declared: &[ProtoPreset]) -> Result<Vec<Preset>, AllocError>
    requires { AreAllMet 256 declared.now }
    ensures { IfOk result (λ v. v.items ≡ built_presets declared.now) }
{
    let mut presets = Vec::new(alloc);
    for preset in declared {
        let built = Preset::of(alloc, preset, &presets)?;
        presets.push(built)?;
    }
    Ok(presets)
}

pub(crate) fn laid_out_group(
    alloc: Global,
    builder: &SettingGroupBuilder,
) -> Result<SettingGroup, AllocError>
    requires { IsValidGroup builder.now }
    ensures { IfOk result (λ g. g ≡ built_of builder.now) }
{
    let mut settings = in_bytes(alloc, &builder.settings)?;
    let start = settings.len() as u8;
    let mut booleans = in_bits(alloc, &builder.settings, start)?;
    settings.append(&mut booleans)?;
    let presets = with_booleans(alloc, &builder.presets)?;
    let size = builder.byte_count() as u8;
    Ok(SettingGroup {
        name: builder.name.copy(alloc)?,
        settings,
        bool_start_byte_offset: start,
        settings_size: size,
        presets,
    })
}
