ghost use Rattle.std.specs.Prelude.{◌≡◌, ◌<◌, Bool, [], ◌∷◌, map, length, slice_get, Contains, Some, IfSome, IfNone};
ghost use Rattle.std.specs.Option.{option_map_or};
ghost use Rattle.meta_setting_tables.specs.EntryValues.{is_on};
ghost use Rattle.meta_setting_tables.specs.WellFormed.{IsWellFormedGroup};
ghost use Rattle.meta_flags.specs.Served.{SettingValue, BoolValue, BoolKind, default_of, kind_in};
ghost use Rattle.meta_flags.specs.Changes.{IsText, with_marked_true};
ghost use Rattle.meta_flags.specs.Held.{value_of};

use super::flag_value::FlagValue;
use meta_lines::number_u8;
use meta_setting_tables::{Descriptor, Detail, GroupTables};
use meta_types::Text;

/// The default of an entry of a group. It is `None` for a preset.
pub(crate) fn default_of<'t>(
    group: &'t GroupTables,
    index: u16,
    entry: &Descriptor,
) -> Option<FlagValue<'t>>
    requires well_formed { IsWellFormedGroup group.now }
    requires there { slice_get group.now.descriptors index ≡ Some entry.now }
    ensures { option_map_or (λ v. value_of v ∷ []) result [] ≡ default_of (kind_in group.now entry.now.offset entry.now.detail) }
{
    match entry.detail {
        Detail::Bool { .. } => Some(FlagValue::Bool(entry.is_on(group.defaults()))),
        Detail::Enum { .. } => match group.values(index) {
            [first, ..] => Some(FlagValue::Enum(first)),
            [] => None,
        },
        Detail::Num => {
            let default = group.default_value(index)?;
            Some(FlagValue::Num(default))
        }
        Detail::Preset => None,
    }
}

fn truth_in(word: &[u8]) -> Option<bool>
    ensures some { IfSome result (λ b. (d : Bool) → IsText (BoolKind d) word.now (BoolValue b)) }
    ensures none { IfNone result ((d : Bool) (v : SettingValue) → ¬ IsText (BoolKind d) word.now v) }
{
    if word == b"true".as_slice() {
        return Some(true);
    }
    if word == b"false".as_slice() {
        return Some(false);
    }
    None
}

/// The first of the texts that is equal to this one.
fn named<'t>(texts: &'t [Text], name: &[u8]) -> Option<&'t Text>
    ensures some { IfSome result (λ text. (text.now ≡ name.now) × Contains texts.now name.now) }
    ensures none { IfNone result (¬ Contains texts.now name.now) }
{
    for text in texts {
        if text.as_bytes() == name {
            return Some(text);
        }
    }
    None
}

pub(crate) fn value_in<'t>(
    group: &'t GroupTables,
    index: u16,
    entry: &Descriptor,
    word: &[u8],
) -> Option<FlagValue<'t>>
    requires { slice_get group.now.descriptors index ≡ Some entry.now }
    ensures some { IfSome result (λ v. IsText (kind_in group.now entry.now.offset entry.now.detail) word.now (value_of v)) }
    ensures none { IfNone result ((v : SettingValue) → ¬ IsText (kind_in group.now entry.now.offset entry.now.detail) word.now v) }
{
    match entry.detail {
        Detail::Bool { .. } => {
            let truth = truth_in(word)?;
            Some(FlagValue::Bool(truth))
        }
        Detail::Enum { .. } => {
            let value = named(group.values(index), word)?;
            Some(FlagValue::Enum(value))
        }
        Detail::Num => {
            let number = number_u8(word)?;
            Some(FlagValue::Num(number))
        }
        Detail::Preset => None,
    }
}

/// Makes those values true whose entries are booleans that are on in the setting bytes.
pub(crate) fn turn_on(values: &mut [FlagValue<'_>], entries: &[Descriptor], bytes: &[u8])
    requires { length values.old ≡ length entries.now }
    ensures { map value_of values.new ≡ with_marked_true (map (λ d. is_on bytes.now d.offset d.detail) entries.now)
        (map value_of values.old) }
{
    for k in 0..values.len() {
        if entries[k].is_on(bytes) {
            values[k] = FlagValue::Bool(true);
        }
    }
}
