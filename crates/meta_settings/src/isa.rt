ghost use Rattle.std.specs.Prelude.{◌≡◌};

use super::group::SettingGroup;
use meta_types::Text;

/// A target with its own group of settings, as in the crate's `cdsl/isa.rs`.
#[derive(Drop)]
pub struct TargetIsa {
    pub name: Text,
    pub settings: SettingGroup,
}

impl TargetIsa {
    /// Makes the target with this name and these settings.
    pub fn new(name: Text, settings: SettingGroup) -> TargetIsa
        ensures { result ≡ record { name = name; settings = settings } }
    {
        TargetIsa { name, settings }
    }
}
