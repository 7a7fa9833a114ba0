ghost use Rattle.std.specs.Prelude.{◌≡◌, ◌++◌, ℕ, IfOk, OnOk, Some, map, slice_get};
ghost use Rattle.meta_settings.specs.Layout.{Layout};
ghost use Rattle.meta_settings.specs.PresetLayout.{HasAll, names_turned_on};
ghost use Rattle.meta_file_reader.specs.Fits.{Fits, Every};
ghost use Rattle.meta_file_describe.specs.Wording.{name_for};
ghost use Rattle.meta_file_describe.specs.SettingItems.{item_of_setting, item_of_preset, items_of_group, items_of_groups, HasItsBooleans};

use super::texts::{docs_of, name_of, unless_same};
use meta_file_syntax::{BoolItem, EnumItem, Item, Listed, Name, NumItem, PresetItem};
use meta_settings::{Preset, Setting, SettingGroup, SpecificSetting};
use meta_types::Text;
use std::alloc::{AllocError, Global};

fn names_of(alloc: Global, texts: &[Text]) -> Result<Vec<Name>, AllocError>
    ensures { IfOk result (λ names. names.items ≡ map name_for texts.now) }
{
    let mut names = Vec::new(alloc);
    for text in texts {
        names.push(name_of(alloc, text.as_bytes())?)?;
    }
    Ok(names)
}

fn setting_of(alloc: Global, setting: &Setting) -> Result<Item, AllocError>
    ensures says { IfOk result (λ item. item ≡ item_of_setting setting.now) }
    ensures fits { IfOk result (λ item. Fits item) }
{
    let docs = docs_of(alloc, setting.description().as_bytes())?;
    let name = name_of(alloc, setting.name().as_bytes())?;
    let comment = unless_same(alloc, setting.comment().as_bytes(), b"")?;
    match setting.specific() {
        SpecificSetting::Bool(boolean) => Ok(Item::Bool(BoolItem {
            docs,
            name,
            default: boolean.default,
            comment,
        })),
        SpecificSetting::Enum(values) => Ok(Item::Enum(EnumItem {
            docs,
            name,
            values: Listed::of(names_of(alloc, values.as_slice())?),
            comment,
        })),
        SpecificSetting::Num(default) => Ok(Item::Num(NumItem {
            docs,
            name,
            default: *default,
            comment,
        })),
    }
}

/// The names of the booleans that a preset of the group turns on.
fn args_of(alloc: Global, group: &SettingGroup, preset: &Preset) -> Result<Vec<Name>, AllocError>
    requires { HasAll group.now preset.now }
    ensures { IfOk result (λ names. names.items ≡ map name_for (names_turned_on group.now preset.now)) }
{
    let mut args = Vec::new(alloc);
    for name in preset.setting_names(group) {
        args.push(name_of(alloc, name.as_bytes())?)?;
    }
    Ok(args)
}

fn preset_of(alloc: Global, group: &SettingGroup, preset: &Preset) -> Result<Item, AllocError>
    requires { HasAll group.now preset.now }
    ensures { IfOk result (λ item. item ≡ item_of_preset group.now preset.now) }
{
    Ok(Item::Preset(PresetItem {
        docs: docs_of(alloc, preset.description().as_bytes())?,
        name: name_of(alloc, preset.name().as_bytes())?,
        args: Listed::of(args_of(alloc, group, preset)?),
    }))
}

/// Adds the items of a group, its settings in the order of its layout, and its presets.
fn push_group(alloc: Global, group: &SettingGroup, items: &mut Vec<Item>) -> Result<(), AllocError>
    requires { HasItsBooleans group.now }
    ensures adds { OnOk result (items.new.items ≡ items.old.items ++ items_of_group group.now) }
    ensures fit { OnOk result (Every Fits (items_of_group group.now)) }
{
    items.push(Item::Group(name_of(alloc, group.name().as_bytes())?))?;
    for setting in group.settings() {
        items.push(setting_of(alloc, setting)?)?;
    }
    for preset in group.presets() {
        items.push(preset_of(alloc, group, preset)?)?;
    }
    Ok(())
}

pub(crate) fn push_groups(
    alloc: Global,
    groups: &[SettingGroup],
    items: &mut Vec<Item>,
) -> Result<(), AllocError>
    requires { (k : ℕ) (g : Layout) → slice_get groups.now k ≡ Some g → HasItsBooleans g }
    ensures adds { OnOk result (items.new.items ≡ items.old.items ++ items_of_groups groups.now) }
    ensures fit { OnOk result (Every Fits (items_of_groups groups.now)) }
{
    for group in groups {
        push_group(alloc, group, items)?;
    }
    Ok(())
}
