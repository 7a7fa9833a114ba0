ghost use Rattle.std.specs.Prelude.{◌≡◌, ◌∷◌, [], IfOk};
ghost use Rattle.meta_settings.specs.declared.index.PresetType.TheVariants.{BoolSetting, OtherPreset};

use meta_settings::{BoolSettingIndex, PresetIndex, PresetType, preset};
use std::alloc::{AllocError, Global};

/// What `preset!` makes of two booleans and a preset between them: these three, in this order. It does the same for any others.
pub(crate) fn named_in_order(
    alloc: Global,
    a: BoolSettingIndex,
    p: PresetIndex,
    b: BoolSettingIndex,
) -> Result<Vec<PresetType>, AllocError>
    ensures { IfOk result (λ v. v.items ≡ BoolSetting a ∷ OtherPreset p ∷ BoolSetting b ∷ []) }
{
    Ok(preset!(alloc; a && p && b))
}

/// What `preset!` makes of no names: nothing.
pub(crate) fn nothing_named(alloc: Global) -> Vec<PresetType>
    ensures { result.items ≡ [] }
{
    preset!(alloc;)
}
