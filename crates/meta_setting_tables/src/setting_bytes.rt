ghost use Rattle.std.specs.Prelude.{◌≡◌, ◌↔◌, ◌≤◌, ◌<◌, ◌*◌, ◌+◌, Some, IsTrue};
ghost use Rattle.std.specs.Int.{bit_at};
ghost use Rattle.meta_setting_tables.specs.declared.descriptor.Descriptor.{Descriptor};
ghost use Rattle.meta_setting_tables.specs.WellFormed.{IsBooleanBit, HoldsBooleansAlone, HasFirstValue, AreGoodDefaults, AreGoodMasks};
ghost use Rattle.meta_setting_tables.specs.Shape.{IsShapeOf, HasSmallCounts};

use super::descriptor::{Descriptor, Detail};
use super::shape::Shape;

fn is_boolean_bit(shape: &Shape, byte: usize, bit: u8) -> bool
    requires byte { byte ≤ 255 }
    requires bit { bit < 8 }
    ensures { IsTrue result ↔ IsBooleanBit shape.now.own_bytes shape.now.booleans byte bit }
{
    let Some(after) = byte.checked_sub(shape.own_bytes) else {
        return false;
    };
    after * 8 + usize::from(bit) < shape.booleans
}

fn is_off_or_boolean(shape: &Shape, byte: usize, value: u8, bit: u8) -> bool
    requires byte { byte ≤ 255 }
    requires bit { bit < 8 }
    ensures { IsTrue result ↔ (bit_at value bit ≡ 1 → IsBooleanBit shape.now.own_bytes shape.now.booleans byte bit) }
{
    if value >> bit & 1 == 0 {
        return true;
    }
    is_boolean_bit(shape, byte, bit)
}

fn holds_booleans_alone(shape: &Shape, byte: usize, value: u8) -> bool
    requires { byte ≤ 255 }
    ensures { IsTrue result ↔ HoldsBooleansAlone shape.now.own_bytes shape.now.booleans byte value }
{
    for bit in 0..8u8 {
        if !is_off_or_boolean(shape, byte, value, bit) {
            return false;
        }
    }
    true
}

fn has_first_value(defaults: &[u8], entry: &Descriptor) -> bool
    ensures { IsTrue result ↔ HasFirstValue defaults.now entry.now.offset entry.now.detail }
{
    match entry.detail {
        Detail::Bool { .. } => true,
        Detail::Enum { .. } => defaults.get(entry.offset as usize) == Some(&0),
        Detail::Num => true,
        Detail::Preset => true,
    }
}

/// Whether each default of an enum is its first value, and only bits of booleans are on in the bytes after those of the enums and numbers.
pub(crate) fn are_good_defaults(shape: &Shape, entries: &[Descriptor], defaults: &[u8]) -> bool
    requires small { HasSmallCounts shape.now }
    requires shape { IsShapeOf entries.now shape.now }
    ensures { IsTrue result ↔ AreGoodDefaults entries.now defaults.now }
{
    if defaults.len() != shape.bytes {
        return false;
    }
    if !entries.iter().all(|entry| has_first_value(defaults, entry)) {
        return false;
    }
    for byte in shape.own_bytes..defaults.len() {
        if !holds_booleans_alone(shape, byte, defaults[byte]) {
            return false;
        }
    }
    true
}

/// Whether only bits of booleans are on in the masks. Each preset in turn has one mask for each setting byte.
pub(crate) fn are_good_masks(shape: &Shape, entries: &[Descriptor], masks: &[u8]) -> bool
    requires small { HasSmallCounts shape.now }
    requires shape { IsShapeOf entries.now shape.now }
    ensures { IsTrue result ↔ AreGoodMasks entries.now masks.now }
{
    if masks.len() != shape.presets * shape.bytes {
        return false;
    }
    if shape.bytes == 0 {
        return true;
    }
    for at in 0..masks.len() {
        if !holds_booleans_alone(shape, at % shape.bytes, masks[at]) {
            return false;
        }
    }
    true
}
