ghost use Rattle.std.specs.Prelude.{◌≡◌, ◌↔◌, ◌<◌, ◌+◌, ◌-◌, IsTrue, MatchOption, IfOk, IfNone, IfSome, All, take, option_map};
ghost use Rattle.meta_settings.specs.GroupDeclaration.{entry_count, names_of_entries};
ghost use Rattle.meta_settings.specs.GroupFaults.{IsPlainByte, IsWellNamed, IsGoodEnum, AreMet, EntryNameRule, OfEntry, OfCounts};
ghost use Rattle.meta_settings.specs.GroupFaults.{IsFirstGroupFault, IsValidGroup};
ghost use Rattle.meta_settings.specs.Searched.{IsGroupCleanBefore};

use super::builder::SettingGroupBuilder;
use super::entry::Entry;
use super::index::PresetType;
use super::value_names::ValueNames;
use meta_types::{DefinitionError, EarlierNames, Place, Text, are_distinct, are_names, is_name};
use std::alloc::{AllocError, Global};

const MAX_BOOLEANS: u64 = 248;
/// The most bytes that the settings of a group may take.
const MAX_BYTES: u64 = 255;
/// The most settings and presets together that a group may have.
const MAX_ENTRIES: u64 = 65_535;
/// The most values that an enum may have.
const MAX_VALUES: usize = 256;

/// Whether a setting may have this description, which then needs no escape: each byte is one of 0x20 to 0x7e, and none is a double quote or
/// a backslash.
pub fn is_plain_description(text: &Text) -> bool
    ensures { IsTrue result ↔ All IsPlainByte text.now }
{
    text.as_bytes()
        .iter()
        .all(|c| (0x20..=0x7e).contains(c) && *c != b'"' && *c != b'\\')
}

/// Whether the names of an entry and of its values may be declared, and its description needs no escape.
fn is_well_named(entry: &Entry<'_>) -> bool
    ensures { IsTrue result ↔ IsWellNamed entry.now }
{
    if !is_name(entry.name) {
        return false;
    }
    if !is_plain_description(entry.description) {
        return false;
    }
    match entry.values {
        Some(values) => are_names(values.as_slice()),
        None => true,
    }
}

/// Whether the values of an enum are good. An entry of another kind has none, and passes.
fn has_good_values(alloc: Global, values: Option<&ValueNames>) -> Result<bool, AllocError>
    ensures { IfOk result (λ b. IsTrue b ↔ IfSome (option_map (λ v. v.now) values.entry) IsGoodEnum) }
{
    let Some(values) = values else {
        return Ok(true);
    };
    let values = values.as_slice();
    if values.is_empty() || values.len() > MAX_VALUES {
        return Ok(false);
    }
    are_distinct(alloc, values)
}

/// Whether all that a preset names exists, if there are `booleans` booleans and `earlier` presets before it.
fn are_met(booleans: u32, earlier: usize, args: &[PresetType]) -> bool
    ensures { IsTrue result ↔ AreMet booleans earlier args.now }
{
    args.iter().all(|arg| match arg {
        PresetType::BoolSetting(index) => index.number() < booleans,
        PresetType::OtherPreset(index) => (index.number() as usize) < earlier,
    })
}

/// The first fault of the group if it is in the entry at this place, and no fault comes before. `names` has the names of the earlier
/// entries. If the entry has no fault, its name is added.
fn entry_fault<'b>(
    alloc: Global,
    builder: &'b SettingGroupBuilder,
    group: u64,
    place: usize,
    names: &mut EarlierNames<'b>,
) -> Result<Option<DefinitionError>, AllocError>
    requires within { place < entry_count builder.now }
    requires kept { names.old ≡ take place (names_of_entries builder.now) }
    requires clean { IsGroupCleanBefore builder.now (OfEntry place EntryNameRule) }
    ensures kept { IfOk result (λ o. IfNone o (names.new ≡ take (place + 1) (names_of_entries builder.now))) }
    ensures fault { IfOk result (λ o. MatchOption o (IsGroupCleanBefore builder.now
        (OfEntry (place + 1) EntryNameRule)) (IsFirstGroupFault builder.now group)) }
{
    let entry = builder.entry(place);
    let number = place as u64;
    if !is_well_named(&entry) {
        return Ok(Some(DefinitionError::BadName(Place::Entry(group, number))));
    }
    if let Some(earlier) = names.add(alloc, entry.name)? {
        let fault = DefinitionError::DuplicateName(Place::Entry(group, number), earlier as u64);
        return Ok(Some(fault));
    }
    if !has_good_values(alloc, entry.values)? {
        return Ok(Some(DefinitionError::BadEnum(group, number)));
    }
    let earlier = place.saturating_sub(builder.settings.len());
    if !are_met(builder.boolean_count(), earlier, entry.args) {
        return Ok(Some(DefinitionError::BadPreset(group, number)));
    }
    Ok(None)
}

fn entries_fault(
    alloc: Global,
    builder: &SettingGroupBuilder,
    group: u64,
) -> Result<Option<DefinitionError>, AllocError>
    requires { IsGroupCleanBefore builder.now (OfEntry 0 EntryNameRule) }
    ensures { IfOk result (λ o. MatchOption o (IsGroupCleanBefore builder.now OfCounts) (IsFirstGroupFault builder.now group)) }
{
    let mut names = EarlierNames::new(alloc);
    for place in 0..builder.entry_count() {
        if let Some(fault) = entry_fault(alloc, builder, group, place, &mut names)? {
            return Ok(Some(fault));
        }
    }
    Ok(None)
}

pub(crate) fn group_fault(
    alloc: Global,
    builder: &SettingGroupBuilder,
    group: u64,
) -> Result<Option<DefinitionError>, AllocError>
    ensures { IfOk result (λ o. MatchOption o (IsValidGroup builder.now) (IsFirstGroupFault builder.now group)) }
{
    if !is_name(&builder.name) {
        return Ok(Some(DefinitionError::BadName(Place::Group(group))));
    }
    if let Some(fault) = entries_fault(alloc, builder, group)? {
        return Ok(Some(fault));
    }
    let booleans = u64::from(builder.boolean_count());
    let bytes = builder.byte_count();
    let entries = builder.entry_count() as u64;
    if booleans > MAX_BOOLEANS || bytes > MAX_BYTES || entries > MAX_ENTRIES {
        return Ok(Some(DefinitionError::TooManySettings(group, booleans, bytes, entries)));
    }
    Ok(None)
}
