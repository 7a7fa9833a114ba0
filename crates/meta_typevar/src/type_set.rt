ghost use Rattle.std.specs.Prelude.{◌≡◌, ◌≤◌, sum, ◌+◌, ◌*◌, ◌↔◌, ℕ, length, [], map, slice_get, Some, Contains, IsTrue, IsOkAnd, IfSome};
ghost use Rattle.std.specs.Prelude.{IfNone, IfOk};
ghost use Rattle.meta_types.specs.DerivedFunc.{function_of};
ghost use Rattle.meta_types.specs.Lane.{lane_parts};
ghost use Rattle.meta_types.specs.TypeParts.{TypeParts, number_of};
ghost use Rattle.meta_types.specs.ValueTypes.{type_parts_of};
ghost use Rattle.meta_typevar.specs.Concrete.{types_in};
ghost use Rattle.meta_typevar.specs.Derivation.{singleton_sets, vector_lanes, int_width_of, float_width_of};
ghost use Rattle.meta_typevar.specs.TypeSetParts.{TypeSetParts, IsMember, IsOnlyMember, HasOne, IsTypeSet};
ghost use Rattle.meta_typevar.specs.Image.{image_of, can_derive};
ghost use Rattle.meta_typevar.specs.Masks.{AreMasksOf};
ghost use Rattle.meta_typevar.specs.MaskSets.{sets_in, AreMasks};

use super::fixed::fixed_along;
use super::masks::Masks;
use super::part_numbers::PartText;
use meta_types::{DerivedFunc, LaneType, ValueType};
use std::alloc::{AllocError, Global};
use std::fmt;
use std::marker::Model;

/// A type set: the types whose width is one of the widths of their kind, and whose lane count is one of the lane counts. In the crate's
/// `cdsl/typevar.rs` it holds four ordered sets, and here four masks.
#[derive(Drop, PartialEq, Eq, Hash)]
pub struct TypeSet {
    masks: Masks,
}

impl Model for TypeSet {
    ghost use Rattle.std.specs.Prelude.{sum};
    ghost use Rattle.std.proofs.Common.{sym};
    ghost use Rattle.meta_typevar.specs.TypeSetParts.{TypeSetParts};

    ghost Value = { TypeSetParts };

    ghost use Rattle.meta_typevar.specs.MaskSets.{sets_in, AreMasks};

    ghost view = { λ s. sets_in s.masks };

    ghost invariant = { λ s. AreMasks s.masks };

    ghost inverse = { λ s. record {
      masks = record {
        lanes = sum s.lanes;
        dynamic_lanes = sum s.dynamic_lanes;
        ints = sum s.ints;
        floats = sum s.floats;
      };
    } };

    ghost inverse_ok = { λ a h i. record {
      masks = record {
        lanes = sym h.lanes i;
        dynamic_lanes = sym h.dynamic_lanes i;
        ints = sym h.ints i;
        floats = sym h.floats i;
      };
    } };
}

impl TypeSet {
    pub(crate) fn from_masks(masks: Masks) -> TypeSet
        requires { AreMasks masks }
        ensures { result ≡ sets_in masks }
    {
        TypeSet { masks }
    }

    /// The type set of these masks. `None` exactly if a mask isn't the sum of some of the widths, or lane counts, that types have.
    pub fn of(masks: Masks) -> Option<TypeSet>
        ensures found { IfSome result (λ s. AreMasksOf s masks) }
        ensures sets { IfSome result (λ s. IsTypeSet s) }
        ensures none { IfNone result ((s : TypeSetParts) → IsTypeSet s → ¬ AreMasksOf s masks) }
    {
        if !masks.are_of_types() {
            return None;
        }
        Some(TypeSet::from_masks(masks))
    }

    /// How many types the set has.
    pub fn size(&self) -> usize
        ensures count { result ≡ length (types_in self.now) }
        ensures one { (result ≡ 1) ↔ HasOne self.now }
    {
        let lanes = self.masks.lanes.count_ones() + self.masks.dynamic_lanes.count_ones();
        let widths = self.masks.ints.count_ones() + self.masks.floats.count_ones();
        lanes as usize * widths as usize
    }

    /// Whether the set has the type.
    pub fn contains(&self, t: ValueType) -> bool
        ensures { IsTrue result ↔ IsMember self.now (type_parts_of t) }
    {
        self.masks.contains(t.number())
    }

    pub(crate) fn member(&self, number: u16) -> Option<ValueType>
        ensures found { IfSome result (λ r. IsMember self.now (type_parts_of r) × (number_of (type_parts_of r) ≡ number)) }
        ensures none { IfNone result ((r : TypeParts) → IsMember self.now r → number_of r ≡ number → ⊥) }
    {
        if !self.masks.contains(number) {
            return None;
        }
        ValueType::from_number(number)
    }

    /// The types of the set. For each lane count in rising order come the integers and then the floats, each in rising width. Then come the
    /// dynamic vectors in the same way.
    pub fn concrete_types(&self, alloc: Global) -> Result<Vec<ValueType>, AllocError>
        ensures listed { IfOk result (λ v. map type_parts_of v.items ≡ types_in self.now) }
        ensures members { (t : TypeParts) → (Contains (types_in self.now) t ↔ IsMember self.now t) }
        ensures once { (j k : ℕ) (t : TypeParts) → slice_get (types_in self.now) j ≡ Some t
            → slice_get (types_in self.now) k ≡ Some t → j ≡ k }
    {
        self.masks.concrete_types(alloc)
    }

    /// The set as four masks.
    pub fn masks(&self) -> Masks
        ensures sums { AreMasksOf self.now result }
        ensures sets { IsTypeSet self.now }
    {
        self.masks
    }

    /// Makes a copy of the set. Memory never runs out here.
    pub fn copy(&self, _alloc: Global) -> Result<TypeSet, AllocError>
        ensures { IsOkAnd result (λ s. s ≡ self.now) }
    {
        Ok(TypeSet { masks: self.masks })
    }

    /// The coded image of the set under a derived function: what the code of the crate computes for the set of a derived variable. Memory
    /// never runs out here.
    pub fn image(&self, _alloc: Global, derived_func: DerivedFunc) -> Result<TypeSet, AllocError>
        ensures { IsOkAnd result (λ s. s ≡ image_of (function_of derived_func) self.now) }
    {
        Ok(TypeSet::from_masks(self.masks.image(derived_func)))
    }

    pub(crate) fn can_derive(&self, derived_func: DerivedFunc) -> bool
        ensures { result ≡ can_derive (function_of derived_func) self.now }
    {
        self.masks.can_derive(derived_func)
    }

    /// The set of a variable that stands for the type: the type alone; or, if it has several lanes, the fixed and the dynamic vector with
    /// this lane count.
    pub(crate) fn singleton(value_type: ValueType) -> TypeSet
        ensures { result ≡ singleton_sets (type_parts_of value_type) }
    {
        let lane = lane_of(value_type);
        let lanes = least_lanes(value_type);
        TypeSet::from_masks(Masks {
            lanes: lanes as u16,
            dynamic_lanes: dynamic_mask(lanes as u16),
            ints: int_mask(lane),
            floats: float_mask(lane),
        })
    }

    pub(crate) fn only_type(&self) -> Option<ValueType>
        ensures found { IfSome result (λ t. IsOnlyMember self.now (type_parts_of t)) }
        ensures none { IfNone result (¬ HasOne self.now) }
    {
        fixed_along(self, [].as_slice())
    }
}

fn lane_of(value_type: ValueType) -> LaneType
    ensures kind { (lane_parts result).kind ≡ (type_parts_of value_type).kind }
    ensures width { (lane_parts result).width ≡ (type_parts_of value_type).width }
{
    match value_type {
        ValueType::Lane(lane) => lane,
        ValueType::Vector(vector) => vector.lane_type(),
        ValueType::DynamicVector(vector) => vector.lane_type(),
    }
}

fn least_lanes(value_type: ValueType) -> u64
    ensures lanes { result ≡ (type_parts_of value_type).lanes }
    ensures few { result ≤ 256 }
{
    match value_type {
        ValueType::Lane(_) => 1,
        ValueType::Vector(vector) => vector.lane_count(),
        ValueType::DynamicVector(vector) => vector.minimum_lane_count(),
    }
}

/// The lane count as a mask of dynamic lanes. For one lane the mask is empty.
fn dynamic_mask(lanes: u16) -> u16
    ensures { result ≡ sum (vector_lanes lanes) }
{
    if lanes == 1 { 0 } else { lanes }
}

fn int_mask(lane: LaneType) -> u8
    ensures { result ≡ sum (int_width_of (lane_parts lane).kind (lane_parts lane).width) }
{
    match lane {
        LaneType::Int(_) => lane.lane_bits() as u8,
        LaneType::Float(_) => 0,
    }
}

fn float_mask(lane: LaneType) -> u8
    ensures { result ≡ sum (float_width_of (lane_parts lane).kind (lane_parts lane).width) }
{
    match lane {
        LaneType::Int(_) => 0,
        LaneType::Float(_) => lane.lane_bits() as u8,
    }
}

impl fmt::Debug for TypeSet {
    ghost use Rattle.std.specs.Prelude.{Some};
    ghost use Rattle.meta_typevar.specs.Concrete.{set_text};

    ghost debug_output = { λ s. Some (set_text s) };

    fn fmt<W: fmt::Write>(&self, f: &mut fmt::Formatter<W>) -> fmt::Result {
        let masks = self.masks;
        let has_lanes = masks.lane_numbers().has_some();
        let has_counts = has_lanes | masks.dynamic_lane_numbers().has_some();
        let has_some = has_counts | masks.int_numbers().has_some();
        let lanes = PartText {
            name: "lanes",
            numbers: masks.lane_numbers(),
            follows: false,
        };
        let dynamic_lanes = PartText {
            name: "dynamic_lanes",
            numbers: masks.dynamic_lane_numbers(),
            follows: has_lanes,
        };
        let ints = PartText {
            name: "ints",
            numbers: masks.int_numbers(),
            follows: has_counts,
        };
        let floats = PartText {
            name: "floats",
            numbers: masks.float_numbers(),
            follows: has_some,
        };
        write!(f, "TypeSet({lanes}{dynamic_lanes}{ints}{floats})")
    }
}
