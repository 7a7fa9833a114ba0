ghost use Rattle.std.specs.Prelude.{◌≡◌, ◌<◌, ◌^◌, ◌↔◌, ◌&&◌, IsTrue, nat_lt, sum};
ghost use Rattle.std.specs.List.{filter, list_all};
ghost use Rattle.meta_typevar.specs.Masks.{ContainsNumber, Holds};
ghost use Rattle.meta_typevar.specs.Decoding.{HoldsLane, HoldsLanes};
ghost use Rattle.meta_typevar.specs.Image.{can_derive, can_halve, can_double, has_some, has_scalars_alone};
ghost use Rattle.meta_typevar.specs.MaskSets.{holds as mask_holds, sets_in, AreMasks};
ghost use Rattle.meta_typevar.specs.MaskImage.{IsMaskImage};
ghost use Rattle.meta_types.specs.DerivedFunc.{function_of};
ghost use Rattle.meta_types.specs.Function.{LaneOf, AsTruthy, HalfWidth, DoubleWidth, SplitLanes, MergeLanes, DynamicToVector};

use super::builder::{FLOAT_WIDTHS, INT_WIDTHS, SIMD_LANES, VECTOR_LANES};
use meta_types::DerivedFunc;

/// A type set as four masks. Bit `k` of a mask stands for `2^k`, which is a lane count or a width in bits.
#[derive(Clone, Copy, Debug, PartialEq, Eq, Hash)]
pub struct Masks {
    /// The lane counts of scalars and fixed vectors, 1 to 256: at most 511.
    pub lanes: u16,
    /// The least lane counts of dynamic vectors, 2 to 256: at most 510.
    pub dynamic_lanes: u16,
    /// The integer widths, 8 to 128: at most 248.
    pub ints: u8,
    /// The float widths, 16 to 128: at most 240.
    pub floats: u8,
}

/// The sum of those of these numbers, which are powers of two, that the mask holds.
fn held(mask: u16, all: &[u16]) -> u16
    requires { sum all.now < 2 ^ 16 }
    ensures { result ≡ sum (filter (mask_holds mask) all.now) }
{
    all.iter().filter(|n| holds(mask, **n)).sum()
}

/// The number from which the numbers of types count.
const LANE_BASE: u16 = 0x70;

impl Masks {
    /// Whether the masks hold the width and the lane count of the type with the number `n`. It is false if no type has this number.
    pub fn contains(&self, n: u16) -> bool
        ensures { IsTrue result ↔ ContainsNumber self.now n }
    {
        if n < LANE_BASE {
            return false;
        }
        let place = n - LANE_BASE;
        self.holds_lane(place % 16) && self.holds_lanes(place / 16)
    }

    pub(crate) fn are_of_types(&self) -> bool
        ensures { IsTrue result ↔ AreMasks self.now }
    {
        held(self.lanes, &SIMD_LANES) == self.lanes
            && held(self.dynamic_lanes, &VECTOR_LANES) == self.dynamic_lanes
            && held(self.ints as u16, &INT_WIDTHS) == self.ints as u16
            && held(self.floats as u16, &FLOAT_WIDTHS) == self.floats as u16
    }

    /// Whether the masks hold the width of the lane with this code. For example `i8` is 4 and `f16` is 9.
    fn holds_lane(&self, code: u16) -> bool
        ensures { IsTrue result ↔ HoldsLane self.now code }
    {
        match code {
            4..=8 => holds(self.ints as u16, 1 << (code - 1)),
            9..=12 => holds(self.floats as u16, 1 << (code - 5)),
            _ => false,
        }
    }

    /// Whether the masks hold the lane count of this row of type numbers. Rows 0 to 8 are scalars and fixed vectors, rows 9 to 16 dynamic
    /// vectors.
    fn holds_lanes(&self, row: u16) -> bool
        ensures { IsTrue result ↔ HoldsLanes self.now row }
    {
        match row {
            0..=8 => holds(self.lanes, 1 << row),
            9..=16 => holds(self.dynamic_lanes, 1 << (row - 8)),
            _ => false,
        }
    }
}

/// All integer widths, and all float widths.
const ALL_INTS: u8 = 248;

const ALL_FLOATS: u8 = 240;

/// All lane counts of scalars and fixed vectors, and those below 256.
const ALL_LANES: u16 = 511;

const LANES_BELOW_256: u16 = 255;

impl Masks {
    /// The coded image under a derived function. A relation leaves the masks as they are.
    pub(crate) fn image(self, derived_func: DerivedFunc) -> Masks
        requires { AreMasks self }
        ensures { IsMaskImage (function_of derived_func) self result }
    {
        match derived_func {
            DerivedFunc::LaneOf => self.lane_of(),
            DerivedFunc::AsTruthy => self.as_truthy(),
            DerivedFunc::HalfWidth => self.half_width(),
            DerivedFunc::DoubleWidth => self.double_width(),
            DerivedFunc::SplitLanes => self.split_lanes(),
            DerivedFunc::MergeLanes => self.merge_lanes(),
            DerivedFunc::DynamicToVector => self.dynamic_to_vector(),
            DerivedFunc::Narrower | DerivedFunc::Wider => self,
        }
    }

    pub(crate) fn can_derive(self, derived_func: DerivedFunc) -> bool
        requires { AreMasks self }
        ensures { result ≡ can_derive (function_of derived_func) (sets_in self) }
    {
        match derived_func {
            DerivedFunc::HalfWidth => self.can_halve(),
            DerivedFunc::DoubleWidth => self.can_double(),
            DerivedFunc::SplitLanes => self.can_halve() && self.has_lanes_to_double(),
            DerivedFunc::MergeLanes => self.can_double() && self.has_lanes_to_halve(),
            DerivedFunc::Narrower | DerivedFunc::Wider => self.has_scalars_alone(),
            DerivedFunc::LaneOf | DerivedFunc::AsTruthy | DerivedFunc::DynamicToVector => true,
        }
    }

    fn lane_of(self) -> Masks
        requires { AreMasks self }
        ensures { IsMaskImage LaneOf self result }
    {
        Masks { lanes: 1, ..self }
    }

    /// The masks with integers alone: of 8 bits if there are only scalars, and else of all the widths.
    fn as_truthy(self) -> Masks
        requires { AreMasks self }
        ensures { IsMaskImage AsTruthy self result }
    {
        let ints = if self.lanes == 1 {
            8
        } else {
            self.ints | self.floats
        };
        Masks {
            ints,
            floats: 0,
            ..self
        }
    }

    fn half_width(self) -> Masks
        requires { AreMasks self }
        ensures { IsMaskImage HalfWidth self result }
    {
        Masks {
            ints: (self.ints >> 1) & ALL_INTS,
            floats: (self.floats >> 1) & ALL_FLOATS,
            ..self
        }
    }

    fn double_width(self) -> Masks
        requires { AreMasks self }
        ensures { IsMaskImage DoubleWidth self result }
    {
        Masks {
            ints: self.ints << 1,
            floats: self.floats << 1,
            ..self
        }
    }

    fn split_lanes(self) -> Masks
        requires { AreMasks self }
        ensures { IsMaskImage SplitLanes self result }
    {
        Masks {
            lanes: (self.lanes << 1) & ALL_LANES,
            ..self.half_width()
        }
    }

    fn merge_lanes(self) -> Masks
        requires { AreMasks self }
        ensures { IsMaskImage MergeLanes self result }
    {
        Masks {
            lanes: self.lanes >> 1,
            ..self.double_width()
        }
    }

    /// The dynamic lane counts below 256 as lane counts, and no dynamic ones.
    fn dynamic_to_vector(self) -> Masks
        requires { AreMasks self }
        ensures { IsMaskImage DynamicToVector self result }
    {
        Masks {
            lanes: self.dynamic_lanes & LANES_BELOW_256,
            dynamic_lanes: 0,
            ..self
        }
    }

    fn can_halve(self) -> bool
        requires { AreMasks self }
        ensures { result ≡ can_halve (sets_in self) }
    {
        self.ints & 8 == 0 && self.floats & 16 == 0
    }

    fn can_double(self) -> bool
        requires { AreMasks self }
        ensures { result ≡ can_double (sets_in self) }
    {
        self.ints & 128 == 0 && self.floats & 128 == 0
    }

    fn has_lanes_to_double(self) -> bool
        requires { AreMasks self }
        ensures { result ≡ (has_some (sets_in self).lanes && list_all (λ n. nat_lt n 256) (sets_in self).lanes) }
    {
        self.lanes != 0 && self.lanes & 256 == 0
    }

    fn has_lanes_to_halve(self) -> bool
        requires { AreMasks self }
        ensures { result ≡ (has_some (sets_in self).lanes && list_all (nat_lt 1) (sets_in self).lanes) }
    {
        self.lanes != 0 && self.lanes & 1 == 0
    }

    fn has_scalars_alone(self) -> bool
        requires { AreMasks self }
        ensures { result ≡ has_scalars_alone (sets_in self) }
    {
        self.lanes == 1 && self.dynamic_lanes == 0 && (self.ints != 0 || self.floats != 0)
    }
}

fn holds(mask: u16, n: u16) -> bool
    ensures { IsTrue result ↔ Holds mask n }
{
    mask & n == n
}
