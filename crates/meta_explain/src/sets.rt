ghost use Rattle.std.specs.Prelude.{◌≡◌, ◌↔◌, ◌++◌, ℕ, All, Contains, IsTrue, OnOk, string_bytes};
ghost use Rattle.std.specs.List.{flat_map};
ghost use Rattle.meta_types.specs.Lane.{lane_parts};
ghost use Rattle.meta_types.specs.TypeParts.{IntKind, FloatKind};
ghost use Rattle.meta_types.specs.TypeNumber.{type_with, IsTypeNumber};
ghost use Rattle.meta_types.specs.ValueTypes.{type_parts_of};
ghost use Rattle.meta_typevar.specs.Masks.{ContainsNumber, AreMasksOf};
ghost use Rattle.meta_typevar.specs.MaskSets.{sets_in, AreMasks};
ghost use Rattle.meta_explain.specs.Sets.{least_set};
ghost use Rattle.meta_explain.specs.MaskTexts.{with_width, with_bits, power_text, mask_text, separator, shown_text};
ghost use Rattle.meta_explain.specs.Texts.{item_text};

use super::types::{FIRST_TYPE, TYPES_END};
use meta_types::{LaneType, ValueType};
use meta_typevar::Masks;
use std::alloc::AllocError;

/// All lane counts, those of vectors, all widths of integers, and all widths of floats, each as a mask.
const ALL_LANES: u16 = 511;

const ALL_VECTOR_LANES: u16 = 510;

const ALL_INTS: u16 = 248;

const ALL_FLOATS: u16 = 240;

/// All lane counts and widths. The greatest is 256.
const POWERS: [u16; 9] = [1, 2, 4, 8, 16, 32, 64, 128, 256];

/// The type with this number.
pub(crate) fn type_of(number: u16) -> ValueType
    requires { IsTypeNumber number }
    ensures { type_parts_of result ≡ type_with number }
{
    ValueType::from_number(number).unwrap()
}

fn lane_of(value_type: ValueType) -> LaneType
    ensures kind { (lane_parts result).kind ≡ (type_parts_of value_type).kind }
    ensures width { (lane_parts result).width ≡ (type_parts_of value_type).width }
{
    match value_type {
        ValueType::Lane(lane) => lane,
        ValueType::Vector(vector) => vector.lane_type(),
        ValueType::DynamicVector(vector) => vector.lane_type(),
    }
}

/// The masks, and the bit of the width of the lane.
fn with_lane(masks: Masks, lane: LaneType) -> Masks
    ensures { result ≡ record masks {
      ints = with_width IntKind (lane_parts lane).kind masks.ints (lane_parts lane).width;
      floats = with_width FloatKind (lane_parts lane).kind masks.floats (lane_parts lane).width;
    } }
{
    match lane {
        LaneType::Int(_) => Masks {
            ints: masks.ints | lane.lane_bits() as u8,
            ..masks
        },
        LaneType::Float(_) => Masks {
            floats: masks.floats | lane.lane_bits() as u8,
            ..masks
        },
    }
}

/// The masks, and the bits of the type.
fn with_type(masks: Masks, value_type: ValueType) -> Masks
    ensures { result ≡ with_bits masks (type_parts_of value_type) }
{
    let masks = with_lane(masks, lane_of(value_type));
    match value_type {
        ValueType::Lane(_) => Masks {
            lanes: masks.lanes | 1,
            ..masks
        },
        ValueType::Vector(vector) => Masks {
            lanes: masks.lanes | vector.lane_count() as u16,
            ..masks
        },
        ValueType::DynamicVector(vector) => Masks {
            dynamic_lanes: masks.dynamic_lanes | vector.minimum_lane_count() as u16,
            ..masks
        },
    }
}

/// The masks of the least set that has the types with these numbers.
pub(crate) fn least_masks(numbers: &[u16]) -> Masks
    requires { All IsTypeNumber numbers.now }
    ensures { AreMasksOf (least_set numbers.now) result }
{
    let mut masks = Masks {
        lanes: 0,
        dynamic_lanes: 0,
        ints: 0,
        floats: 0,
    };
    for number in numbers {
        masks = with_type(masks, type_of(*number));
    }
    masks
}

/// Whether each type of the set with these masks is one of those with these numbers.
pub(crate) fn are_all_among(masks: Masks, numbers: &[u16]) -> bool
    ensures { IsTrue result ↔ ((n : ℕ) → ContainsNumber masks n → Contains numbers.now n) }
{
    for number in FIRST_TYPE..TYPES_END {
        if masks.contains(number) && !numbers.contains(&number) {
            return false;
        }
    }
    true
}

/// Adds what a power of two has in the spans of a mask: a blank and the number if it begins a span, `..` and the number if it ends one.
fn push_power(out: &mut String, mask: u16, number: u16) -> Result<(), AllocError>
    ensures { OnOk result (string_bytes out.new ≡ string_bytes out.old ++ power_text mask number) }
{
    if mask & number == 0 {
        return Ok(());
    }
    if mask & (number / 2) == 0 {
        return write!(out, " {number}");
    }
    if mask / 2 & number == 0 {
        return write!(out, "..{number}");
    }
    Ok(())
}

/// Adds what these powers of two have in the spans of a mask.
fn push_powers(out: &mut String, mask: u16, powers: &[u16]) -> Result<(), AllocError>
    ensures { OnOk result (string_bytes out.new ≡ string_bytes out.old ++ flat_map (power_text mask) powers.now) }
{
    for number in powers {
        push_power(out, mask, *number)?;
    }
    Ok(())
}

/// Adds the members of a mask, of which `all` has all that the dimension can have: ` all`, ` none`, or spans such as ` 8..64`.
fn push_members(out: &mut String, mask: u16, all: u16) -> Result<(), AllocError>
    ensures { OnOk result (string_bytes out.new ≡ string_bytes out.old ++ mask_text mask all) }
{
    if mask == 0 {
        return out.push_str(" none");
    }
    if mask == all {
        return out.push_str(" all");
    }
    push_powers(out, mask, &POWERS)
}

/// A part of a set.
#[derive(Clone, Copy)]
struct SetPart {
    /// Whether it is shown.
    is_shown: bool,
    /// Whether another part is shown before it.
    follows: bool,
    name: &'static str,
    mask: u16,
    /// The mask of all that the dimension can have.
    all: u16,
}

fn separator(follows: bool) -> &'static str
    ensures { result.now ≡ separator follows }
{
    if follows { ", " } else { "" }
}

/// Adds the part of a set, if it is shown.
fn push_part(out: &mut String, part: SetPart) -> Result<(), AllocError>
    ensures { OnOk result (string_bytes out.new
        ≡ string_bytes out.old ++ shown_text part.is_shown part.follows part.name.now (mask_text part.mask part.all)) }
{
    if !part.is_shown {
        return Ok(());
    }
    out.push_str(separator(part.follows))?;
    out.push_str(part.name)?;
    push_members(out, part.mask, part.all)
}

/// Adds the set with these masks, as a `type` item has it.
pub(crate) fn push_item(out: &mut String, masks: Masks) -> Result<(), AllocError>
    requires { AreMasks masks }
    ensures { OnOk result (string_bytes out.new ≡ string_bytes out.old ++ item_text (sets_in masks)) }
{
    let has_dynamic = masks.dynamic_lanes != 0;
    let has_lanes = has_dynamic | (masks.lanes != 1);
    let has_counts = has_lanes | has_dynamic;
    let has_ints = masks.ints != 0;
    push_part(
        out,
        SetPart {
            is_shown: has_lanes,
            follows: false,
            name: "lanes",
            mask: masks.lanes,
            all: ALL_LANES,
        },
    )?;
    push_part(
        out,
        SetPart {
            is_shown: has_dynamic,
            follows: has_lanes,
            name: "dynamic",
            mask: masks.dynamic_lanes,
            all: ALL_VECTOR_LANES,
        },
    )?;
    push_part(
        out,
        SetPart {
            is_shown: has_ints,
            follows: has_counts,
            name: "ints",
            mask: u16::from(masks.ints),
            all: ALL_INTS,
        },
    )?;
    push_part(
        out,
        SetPart {
            is_shown: masks.floats != 0,
            follows: has_counts | has_ints,
            name: "floats",
            mask: u16::from(masks.floats),
            all: ALL_FLOATS,
        },
    )
}
