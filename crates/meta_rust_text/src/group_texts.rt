ghost use Rattle.std.specs.Prelude.{◌≡◌, ◌++◌, OnOk, IfOk, string_bytes};
ghost use Rattle.meta_rust_text.specs.SettingsText.{group_flags_text, settings_text};

use super::enum_types::push_enum_types;
use super::flags::{push_flags, push_flags_used};
use super::getters::push_getters;
use super::parent_group::ParentGroup;
use meta_settings::SettingGroup;
use std::alloc::{AllocError, Global};

/// Adds the text of a group with this parent (`gen_group`).
#[tactic(auto, unfolding(crate::specs::SettingsText::group_flags_text))]
fn push_group(
    alloc: Global,
    out: &mut String,
    parent: ParentGroup,
    group: &SettingGroup,
) -> Result<(), AllocError>
    ensures { OnOk result (string_bytes out.new ≡ string_bytes out.old ++ group_flags_text parent group.now) }
{
    let name = group.name().as_str();
    push_flags(alloc, out, group, parent.arguments())?;
    push_enum_types(alloc, out, name, group.settings())?;
    push_getters(alloc, out, group)?;
    push_flags_used(out, name)
}

/// Makes the text of groups of settings, as they are built, in Rust source. Each group has its flags, its enums and its getters, as
/// `gen_group` of the crate's `gen_settings.rs` writes them. The tables of `gen_descriptors` and the template of `gen_template` are not in
/// this text, but in the text of tables. The first group has no parent, and the others have the one that all targets share. The
/// documentation of a getter is the description of its setting, without white space at both ends.
///
/// The text is made in one pass over the settings.
pub fn settings_text(alloc: Global, groups: &[SettingGroup]) -> Result<String, AllocError>
    ensures { IfOk result (λ text. string_bytes text ≡ settings_text groups.now) }
{
    let mut text = String::new(alloc);
    let [first, others @ ..] = groups else {
        return Ok(text);
    };
    push_group(alloc, &mut text, ParentGroup::None, first)?;
    for group in others {
        push_group(alloc, &mut text, ParentGroup::Shared, group)?;
    }
    Ok(text)
}
