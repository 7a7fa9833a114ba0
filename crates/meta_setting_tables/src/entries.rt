ghost use Rattle.std.specs.Prelude.{◌↔◌, ◌≤◌, ◌<◌, length, IfOk, IsTrue, All};
ghost use Rattle.meta_setting_tables.specs.declared.descriptor.Descriptor.{Descriptor};
ghost use Rattle.meta_setting_tables.specs.WellFormed.{IsPlaced, ArePlaced};
ghost use Rattle.meta_setting_tables.specs.WellFormed.{HasItsValues};
ghost use Rattle.meta_setting_tables.specs.Shape.{IsShapeOf, HasSmallCounts};

use super::descriptor::{Descriptor, Detail};
use super::shape::Shape;
use meta_types::{Text, are_distinct};
use std::alloc::{AllocError, Global};

/// Whether the entry stands where the layout puts it: first the enums and numbers, each with a byte of its own, then the booleans, eight to
/// a byte, then the presets, each with a mask for each byte.
fn is_placed(shape: &Shape, place: usize, entry: &Descriptor) -> bool
    requires few { place ≤ 65535 }
    requires small { HasSmallCounts shape.now }
    ensures { IsTrue result ↔ IsPlaced shape.now.own_bytes shape.now.booleans shape.now.bytes place entry.now.offset entry.now.detail }
{
    let own = shape.own_bytes;
    let offset = entry.offset as usize;
    match entry.detail {
        Detail::Bool { bit } => match place.checked_sub(own) {
            Some(number) => {
                number < shape.booleans
                    && offset == own + number / 8
                    && usize::from(bit) == number % 8
            }
            None => false,
        },
        Detail::Enum { .. } | Detail::Num => place < own && offset == place,
        Detail::Preset => match place.checked_sub(own + shape.booleans) {
            Some(number) => offset == number * shape.bytes,
            None => false,
        },
    }
}

pub(crate) fn are_placed(shape: &Shape, entries: &[Descriptor]) -> bool
    requires few { length entries.now ≤ 65535 }
    requires small { HasSmallCounts shape.now }
    requires shape { IsShapeOf entries.now shape.now }
    ensures { IsTrue result ↔ ArePlaced entries.now }
{
    for place in 0..entries.len() {
        if !is_placed(shape, place, &entries[place]) {
            return false;
        }
    }
    true
}

/// Whether the values of an enum stand among the enumerators, from its place on, and no two of them share a name. Another entry has none.
fn has_its_values(alloc: Global, enumerators: &[Text], detail: Detail) -> Result<bool, AllocError>
    ensures { IfOk result (λ b. IsTrue b ↔ HasItsValues enumerators.now detail) }
{
    match detail {
        Detail::Bool { .. } => Ok(true),
        Detail::Enum {
            last,
            enumerators: place,
        } => {
            let place = usize::from(place);
            let count = usize::from(last) + 1;
            if place + count > enumerators.len() {
                return Ok(false);
            }
            are_distinct(alloc, &enumerators[place..place + count])
        }
        Detail::Num => Ok(true),
        Detail::Preset => Ok(true),
    }
}

pub(crate) fn have_their_values(
    alloc: Global,
    entries: &[Descriptor],
    enumerators: &[Text],
) -> Result<bool, AllocError>
    ensures { IfOk result (λ b. IsTrue b ↔ All (λ (d : Descriptor). HasItsValues enumerators.now d.detail) entries.now) }
{
    for entry in entries {
        if !has_its_values(alloc, enumerators, entry.detail)? {
            return Ok(false);
        }
    }
    Ok(true)
}
