ghost use Rattle.std.specs.Prelude.{◌≡◌, ◌≢◌, ◌↔◌, IsTrue, MatchBool, IsOkAnd, sum, true};
ghost use Rattle.meta_typevar.specs.Intervals.{nothing_set, interval_of, CanBuild, simd_counts, lanes_between, sets_between};

use super::interval::{Interval, Part};
use super::masks::Masks;
use super::type_set::TypeSet;
use std::alloc::{AllocError, Global};
use std::marker::Model;

/// The widths of integer lanes, in bits.
pub(crate) const INT_WIDTHS: [u16; 5] = [8, 16, 32, 64, 128];

/// The widths of floating-point lanes, in bits.
pub(crate) const FLOAT_WIDTHS: [u16; 4] = [16, 32, 64, 128];

/// The lane counts of scalars and fixed vectors.
pub(crate) const SIMD_LANES: [u16; 9] = [1, 2, 4, 8, 16, 32, 64, 128, 256];

/// The lane counts of vectors alone.
pub(crate) const VECTOR_LANES: [u16; 8] = [2, 4, 8, 16, 32, 64, 128, 256];

/// Puts a type set together part by part, as in the crate's `cdsl/typevar.rs`.
#[derive(Drop)]
pub struct TypeSetBuilder {
    ints: Interval,
    floats: Interval,
    simd_lanes: Interval,
    dynamic_simd_lanes: Interval,
    includes_scalars: bool,
}

impl Model for TypeSetBuilder {
    ghost use Rattle.meta_typevar.specs.Intervals.{Intervals};

    ghost Value = { Intervals };

    ghost view = { λ b. record {
      ints = b.ints;
      floats = b.floats;
      simd_lanes = b.simd_lanes;
      dynamic_simd_lanes = b.dynamic_simd_lanes;
      includes_scalars = b.includes_scalars;
    } };
}

impl TypeSetBuilder {
    /// Makes a builder that includes scalars. No part is set yet.
    pub fn new() -> TypeSetBuilder
        ensures { result ≡ nothing_set }
    {
        TypeSetBuilder {
            ints: Interval::None,
            floats: Interval::None,
            simd_lanes: Interval::None,
            dynamic_simd_lanes: Interval::None,
            includes_scalars: true,
        }
    }

    /// Sets the integer widths, in bits. They must not have been set before, which `is_set` tells.
    pub fn ints(mut self, interval: Interval) -> Self
        requires { self.ints ≡ Interval.None }
        ensures { result ≡ record self { ints = interval } }
    {
        self.ints = interval;
        self
    }

    /// Sets the float widths, in bits. They must not have been set before, which `is_set` tells.
    pub fn floats(mut self, interval: Interval) -> Self
        requires { self.floats ≡ Interval.None }
        ensures { result ≡ record self { floats = interval } }
    {
        self.floats = interval;
        self
    }

    /// Says whether `Interval::All` of `simd_lanes` includes one lane, the scalars. A range is taken as it is.
    pub fn includes_scalars(mut self, includes_scalars: bool) -> Self
        ensures { result ≡ record self { includes_scalars = includes_scalars } }
    {
        self.includes_scalars = includes_scalars;
        self
    }

    /// Sets the lane counts of scalars and fixed vectors. They must not have been set before, which `is_set` tells.
    pub fn simd_lanes(mut self, interval: Interval) -> Self
        requires { self.simd_lanes ≡ Interval.None }
        ensures { result ≡ record self { simd_lanes = interval } }
    {
        self.simd_lanes = interval;
        self
    }

    /// Sets the least lane counts of dynamic vectors. They must not have been set before, which `is_set` tells.
    pub fn dynamic_simd_lanes(mut self, interval: Interval) -> Self
        requires { self.dynamic_simd_lanes ≡ Interval.None }
        ensures { result ≡ record self { dynamic_simd_lanes = interval } }
    {
        self.dynamic_simd_lanes = interval;
        self
    }

    /// Whether the part is set: it isn't `Interval::None`.
    pub fn is_set(&self, part: Part) -> bool
        ensures { MatchBool result (interval_of self.now part ≢ Interval.None) (interval_of self.now part ≡ Interval.None) }
    {
        let interval = match part {
            Part::Ints => &self.ints,
            Part::Floats => &self.floats,
            Part::SimdLanes => &self.simd_lanes,
            Part::DynamicSimdLanes => &self.dynamic_simd_lanes,
        };
        !matches!(interval, Interval::None)
    }

    /// Whether `build` can be called: the ends of each range are powers of two, the low end is at most the high end, and both are in the
    /// full range of the part. That is 8 to 128 for integers, 16 to 128 for floats, 1 to 256 for lanes (2 to 256 if scalars aren't
    /// included), and 2 to 256 for dynamic lanes. The crate asserts this.
    pub fn can_build(&self) -> bool
        ensures { IsTrue result ↔ CanBuild self.now }
    {
        self.ints.is_within(&INT_WIDTHS)
            && self.floats.is_within(&FLOAT_WIDTHS)
            && self.simd_lanes.is_within(self.all_simd_lanes())
            && self.dynamic_simd_lanes.is_within(&VECTOR_LANES)
    }

    /// Builds the type set of these parts. For integers, floats and dynamic lanes `Interval::None` gives no number, `Interval::All` gives
    /// all that the part can have, and a range gives the powers of two from end to end. For lanes it is the same, except that
    /// `Interval::None` gives one lane. `can_build` tests whether it can be called. Memory never runs out here.
    pub fn build(self, _alloc: Global) -> Result<TypeSet, AllocError>
        requires { CanBuild self }
        ensures { IsOkAnd result (λ s. s ≡ sets_between self) }
    {
        Ok(TypeSet::from_masks(Masks {
            lanes: self.lanes_mask(),
            dynamic_lanes: self.dynamic_simd_lanes.to_mask(&VECTOR_LANES),
            ints: self.ints.to_mask(&INT_WIDTHS) as u8,
            floats: self.floats.to_mask(&FLOAT_WIDTHS) as u8,
        }))
    }

    fn all_simd_lanes(&self) -> &[u16]
        ensures { result.now ≡ simd_counts self.now.includes_scalars }
    {
        if self.includes_scalars {
            &SIMD_LANES
        } else {
            &VECTOR_LANES
        }
    }

    fn lanes_mask(&self) -> u16
        ensures { result ≡ sum (lanes_between self.now.includes_scalars self.now.simd_lanes) }
    {
        match self.simd_lanes {
            Interval::None => 1,
            Interval::All | Interval::Range(_) => self.simd_lanes.to_mask(self.all_simd_lanes()),
        }
    }
}
