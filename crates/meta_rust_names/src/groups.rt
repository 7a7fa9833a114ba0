ghost use Rattle.std.specs.Prelude.{◌≡◌, ◌++◌, OnOk};
ghost use Rattle.meta_rust_names.specs.Groups.{is_table_static, group_name_why, is_flags_method, setting_name_why, is_type_beside};
ghost use Rattle.meta_rust_names.specs.Groups.{enum_name_why, value_why, value_refused, values_refused};
ghost use Rattle.meta_rust_names.specs.Groups.{specific_refused, setting_refused, settings_refused, group_refused, groups_refused};

use super::refused::{Part, RefusedName, Why, push_refused};
use super::words::{is_keyword, is_prelude_variant};
use meta_settings::{Setting, SettingGroup, SpecificSetting};
use meta_types::{Place, Text, camel_case};
use std::alloc::{AllocError, Global};

#[tactic(auto, unfolding(crate::specs::Groups::is_table_static))]
fn is_table_static(name: &[u8]) -> bool
    ensures { result ≡ is_table_static name.now }
{
    name == b"ENUMERATORS".as_slice()
        || name == b"DESCRIPTORS".as_slice()
        || name == b"HASH_TABLE".as_slice()
        || name == b"PRESETS".as_slice()
        || name == b"TEMPLATE".as_slice()
}

#[tactic(auto, unfolding(crate::specs::Groups::group_name_why))]
fn group_name_why(name: &[u8]) -> Option<Why>
    ensures { result ≡ group_name_why name.now }
{
    if is_keyword(name) {
        return Some(Why::Keyword);
    }
    if is_prelude_variant(name) {
        return Some(Why::InScope);
    }
    if is_table_static(name) {
        return Some(Why::InScope);
    }
    if name == b"bvec".as_slice() {
        return Some(Why::FixedLocal);
    }
    None
}

#[tactic(auto, unfolding(crate::specs::Groups::is_flags_method))]
fn is_flags_method(name: &[u8]) -> bool
    ensures { result ≡ is_flags_method name.now }
{
    name == b"new".as_slice()
        || name == b"iter".as_slice()
        || name == b"hash_key".as_slice()
        || name == b"numbered_predicate".as_slice()
}

#[tactic(auto, unfolding(crate::specs::Groups::setting_name_why))]
fn setting_name_why(name: &[u8]) -> Option<Why>
    ensures { result ≡ setting_name_why name.now }
{
    if is_keyword(name) {
        return Some(Why::Keyword);
    }
    if is_flags_method(name) {
        return Some(Why::FixedMethod);
    }
    None
}

/// Whether the name in camel case is that of a type beside the enums.
#[tactic(auto, unfolding(crate::specs::Groups::is_type_beside))]
fn is_type_beside(camel: &[u8]) -> bool
    ensures { result ≡ is_type_beside camel.now }
{
    camel == b"Flags".as_slice()
        || camel == b"Value".as_slice()
        || camel == b"Builder".as_slice()
        || camel == b"Result".as_slice()
        || camel == b"Iterator".as_slice()
}

#[tactic(auto, unfolding(crate::specs::Groups::enum_name_why))]
fn enum_name_why(camel: &[u8]) -> Option<Why>
    ensures { result ≡ enum_name_why camel.now }
{
    if camel == b"Self".as_slice() {
        return Some(Why::SelfType);
    }
    if is_type_beside(camel) {
        return Some(Why::TypeBeside);
    }
    None
}

#[tactic(auto, unfolding(crate::specs::Groups::value_why))]
fn value_why(camel: &[u8]) -> Option<Why>
    ensures { result ≡ value_why camel.now }
{
    if camel == b"Self".as_slice() {
        return Some(Why::SelfType);
    }
    if camel == b"Err".as_slice() {
        return Some(Why::ErrType);
    }
    None
}

#[tactic(auto, unfolding(crate::specs::Groups::value_refused))]
fn push_value(
    alloc: Global,
    out: &mut Vec<RefusedName>,
    place: Place,
    setting: usize,
    number: usize,
    value: &Text,
) -> Result<(), AllocError>
    ensures { OnOk result (out.new.items ≡ out.old.items ++ value_refused place setting (number, value.now)) }
{
    let camel = camel_case(alloc, value)?;
    let part = Part::Value(setting as u64, number as u64);
    push_refused(out, place, part, value_why(camel.as_bytes()))
}

fn push_values(
    alloc: Global,
    out: &mut Vec<RefusedName>,
    place: Place,
    setting: usize,
    values: &[Text],
) -> Result<(), AllocError>
    ensures { OnOk result (out.new.items ≡ out.old.items ++ values_refused place setting values.now) }
{
    for number in 0..values.len() {
        push_value(alloc, out, place, setting, number, &values[number])?;
    }
    Ok(())
}

#[tactic(auto, unfolding(crate::specs::Groups::enum_refused))]
fn push_specific(
    alloc: Global,
    out: &mut Vec<RefusedName>,
    place: Place,
    number: usize,
    name: &Text,
    specific: &SpecificSetting,
) -> Result<(), AllocError>
    ensures { OnOk result (out.new.items ≡ out.old.items ++ specific_refused place number name.now specific.now) }
{
    match specific {
        SpecificSetting::Bool(_) => Ok(()),
        SpecificSetting::Enum(values) => {
            let camel = camel_case(alloc, name)?;
            let why = enum_name_why(camel.as_bytes());
            push_refused(out, place, Part::SettingType(number as u64), why)?;
            push_values(alloc, out, place, number, values.as_slice())
        }
        SpecificSetting::Num(_) => Ok(()),
    }
}

#[tactic(auto, unfolding(crate::specs::Groups::setting_refused))]
fn push_setting(
    alloc: Global,
    out: &mut Vec<RefusedName>,
    place: Place,
    number: usize,
    setting: &Setting,
) -> Result<(), AllocError>
    ensures { OnOk result (out.new.items ≡ out.old.items ++ setting_refused place (number, setting.now)) }
{
    let why = setting_name_why(setting.name().as_bytes());
    push_refused(out, place, Part::Setting(number as u64), why)?;
    push_specific(
        alloc,
        out,
        place,
        number,
        setting.name(),
        setting.specific(),
    )
}

fn push_settings(
    alloc: Global,
    out: &mut Vec<RefusedName>,
    place: Place,
    settings: &[Setting],
) -> Result<(), AllocError>
    ensures { OnOk result (out.new.items ≡ out.old.items ++ settings_refused place settings.now) }
{
    for number in 0..settings.len() {
        push_setting(alloc, out, place, number, &settings[number])?;
    }
    Ok(())
}

#[tactic(auto, unfolding(crate::specs::Groups::group_refused))]
fn push_group(
    alloc: Global,
    out: &mut Vec<RefusedName>,
    number: usize,
    group: &SettingGroup,
) -> Result<(), AllocError>
    ensures { OnOk result (out.new.items ≡ out.old.items ++ group_refused (number, group.now)) }
{
    let place = Place::Group(number as u64);
    push_refused(
        out,
        place,
        Part::Name,
        group_name_why(group.name().as_bytes()),
    )?;
    push_settings(alloc, out, place, group.settings())
}

pub(crate) fn push_groups(
    alloc: Global,
    out: &mut Vec<RefusedName>,
    groups: &[SettingGroup],
) -> Result<(), AllocError>
    ensures { OnOk result (out.new.items ≡ out.old.items ++ groups_refused groups.now) }
{
    for number in 0..groups.len() {
        push_group(alloc, out, number, &groups[number])?;
    }
    Ok(())
}
