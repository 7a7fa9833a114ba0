ghost use Rattle.std.specs.Prelude.{◌≡◌, ◌<◌, ℕ, length, slice_get, Some, IfOk, All};
ghost use Rattle.meta_settings.specs.Layout.{PlacedSetting};
ghost use Rattle.meta_setting_tables.specs.BuiltLayout.{IsBuiltLayout};
ghost use Rattle.meta_setting_tables.specs.DefaultBytes.{joined_at, AreDefaultsOf};

use meta_settings::{Setting, SettingGroup};
use std::alloc::{AllocError, Global};

fn zeros(alloc: Global, size: u8) -> Result<Vec<u8>, AllocError>
    ensures size { IfOk result (λ v. length v.items ≡ size) }
    ensures zero { IfOk result (λ v. (byte : ℕ) → byte < size → slice_get v.items byte ≡ Some 0) }
{
    vec![in alloc; 0; size as usize]
}

fn join_defaults(bytes: &mut [u8], settings: &[Setting])
    requires zero { (byte : ℕ) → byte < length bytes.old → slice_get bytes.old byte ≡ Some 0 }
    requires within { (k : ℕ) (s : PlacedSetting) → slice_get settings.now k ≡ Some s → s.byte_offset < length bytes.old }
    ensures joined { (byte : ℕ) → byte < length bytes.old → slice_get bytes.new byte ≡ Some (joined_at byte settings.now) }
    ensures bytes { All (λ b. b < 256) bytes.new }
{
    for setting in settings {
        bytes[setting.byte_offset() as usize] |= setting.default_byte();
    }
}

pub(crate) fn default_bytes(alloc: Global, group: &SettingGroup) -> Result<Vec<u8>, AllocError>
    requires { IsBuiltLayout group.now }
    ensures defaults { IfOk result (λ v. AreDefaultsOf group.now v.items) }
    ensures bytes { IfOk result (λ v. All (λ b. b < 256) v.items) }
{
    let mut bytes = zeros(alloc, group.settings_size())?;
    join_defaults(&mut bytes, group.settings());
    Ok(bytes)
}
