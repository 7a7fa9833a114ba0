ghost use Rattle.std.specs.Prelude.{◌≡◌, ◌++◌, map, Contains, true, false, IfOk, OnOk};
ghost use Rattle.meta_types.specs.TypeParts.{IntKind, FloatKind, scalar, lane_counts};
ghost use Rattle.meta_types.specs.Lane.{lane_parts};
ghost use Rattle.meta_types.specs.Vector.{lanes_of, least_lanes_of};
ghost use Rattle.meta_types.specs.ValueTypes.{type_parts_of};
ghost use Rattle.meta_typevar.specs.Concrete.{types_in};
ghost use Rattle.meta_typevar.specs.MaskSets.{sets_in};

use super::builder::{FLOAT_WIDTHS, INT_WIDTHS, SIMD_LANES, VECTOR_LANES};
use super::masks::Masks;
use super::part_numbers::Numbers;
use meta_types::{LaneType, ValueType};
use std::alloc::{AllocError, Global};

impl Masks {
    /// The types that the masks contain. For each lane count in rising order come the integers and then the floats, each in rising width.
    /// Then come the dynamic vectors in the same way.
    pub(crate) fn concrete_types(self, alloc: Global) -> Result<Vec<ValueType>, AllocError>
        ensures { IfOk result (λ v. map type_parts_of v.items ≡ types_in (sets_in self)) }
    {
        let lane_types = self.lane_types(alloc)?;
        let fixed = self.lane_numbers().to_vec(alloc)?;
        let dynamic = self.dynamic_lane_numbers().to_vec(alloc)?;
        let mut types = Vec::new(alloc);
        for &lanes in fixed.as_slice() {
            push_fixed(&mut types, lane_types.as_slice(), lanes)?;
        }
        for &least in dynamic.as_slice() {
            push_dynamic(&mut types, lane_types.as_slice(), least)?;
        }
        Ok(types)
    }

    /// The lane types whose widths the masks hold: integers, then floats, each in rising width.
    fn lane_types(self, alloc: Global) -> Result<Vec<LaneType>, AllocError>
        ensures { IfOk result (λ v. map lane_parts v.items ≡ map (scalar IntKind) (sets_in self).ints
            ++ map (scalar FloatKind) (sets_in self).floats) }
    {
        let ints = self.int_numbers().to_vec(alloc)?;
        let floats = self.float_numbers().to_vec(alloc)?;
        let mut lane_types = Vec::new(alloc);
        for &int in ints.as_slice() {
            lane_types.push(LaneType::int_from_bits(int))?;
        }
        for &float in floats.as_slice() {
            lane_types.push(LaneType::float_from_bits(float))?;
        }
        Ok(lane_types)
    }

    pub(crate) fn lane_numbers(self) -> Numbers
        ensures { result ≡ (sets_in self).lanes }
    {
        Numbers::new(self.lanes, &SIMD_LANES)
    }

    pub(crate) fn dynamic_lane_numbers(self) -> Numbers
        ensures { result ≡ (sets_in self).dynamic_lanes }
    {
        Numbers::new(self.dynamic_lanes, &VECTOR_LANES)
    }

    pub(crate) fn int_numbers(self) -> Numbers
        ensures { result ≡ (sets_in self).ints }
    {
        Numbers::new(self.ints.into(), &INT_WIDTHS)
    }

    pub(crate) fn float_numbers(self) -> Numbers
        ensures { result ≡ (sets_in self).floats }
    {
        Numbers::new(self.floats.into(), &FLOAT_WIDTHS)
    }
}

fn push_fixed(
    types: &mut Vec<ValueType>,
    lane_types: &[LaneType],
    lanes: u16,
) -> Result<(), AllocError>
    requires { Contains (lane_counts false) lanes }
    ensures { OnOk result (map type_parts_of types.new.items ≡ map type_parts_of types.old.items
        ++ map (λ l. lanes_of (lane_parts l) lanes) lane_types.now) }
{
    for lane_type in lane_types {
        types.push(lane_type.by(lanes))?;
    }
    Ok(())
}

fn push_dynamic(
    types: &mut Vec<ValueType>,
    lane_types: &[LaneType],
    lanes: u16,
) -> Result<(), AllocError>
    requires { Contains (lane_counts true) lanes }
    ensures { OnOk result (map type_parts_of types.new.items ≡ map type_parts_of types.old.items
        ++ map (λ l. least_lanes_of (lane_parts l) lanes) lane_types.now) }
{
    for lane_type in lane_types {
        types.push(lane_type.to_dynamic(lanes))?;
    }
    Ok(())
}
