ghost use Rattle.std.specs.Prelude.{◌≡◌, ◌++◌, IfOk, Contains, Some, true, codes};
ghost use Rattle.std.specs.Fmt.{DisplaysOnOk, decimal};
ghost use Rattle.meta_types.specs.TypeParts.{lane_counts, number_of, name_of};
ghost use Rattle.meta_types.specs.Lane.{lane_parts};
ghost use Rattle.meta_types.specs.Vector.{lane_count, lanes_of, least_lanes_of, vector_parts, dynamic_parts};
ghost use Rattle.meta_types.specs.TypeText.{type_doc};

use super::lane::LaneType;
use super::lane_count::LaneCount;
use super::text::Text;
use std::alloc::{AllocError, Global};
use std::fmt;

/// A vector of lanes of one type, as in the crate's `cdsl/types.rs`.
#[derive(Clone, Copy, PartialEq, Eq, Hash)]
pub struct VectorType {
    base: LaneType,
    lanes: LaneCount,
}

/// A dynamic vector: lanes of one type, of which only the least count is known. It is as in the crate's `cdsl/types.rs`.
#[derive(Clone, Copy, PartialEq, Eq, Hash)]
pub struct DynamicVectorType {
    base: LaneType,
    unscaled_lanes: LaneCount,
}

impl VectorType {
    /// The vector with this many lanes of this type. `is_lane_count` tests the count.
    pub fn new(base: LaneType, lanes: u64) -> VectorType
        requires { Contains (lane_counts true) lanes }
        ensures { vector_parts result ≡ lanes_of (lane_parts base) lanes }
    {
        VectorType::of(base, LaneCount::new(lanes))
    }

    pub(crate) fn of(base: LaneType, lanes: LaneCount) -> VectorType
        ensures { vector_parts result ≡ lanes_of (lane_parts base) (lane_count lanes) }
    {
        VectorType { base, lanes }
    }

    /// The width of a lane in bits, 8 to 128.
    pub fn lane_bits(&self) -> u64
        ensures { result ≡ (vector_parts self.now).width }
    {
        self.base.lane_bits()
    }

    /// The lane count: a power of two from 2 to 256.
    pub fn lane_count(&self) -> u64
        ensures { result ≡ (vector_parts self.now).lanes }
    {
        self.lanes.get()
    }

    /// The type of a lane.
    pub fn lane_type(&self) -> LaneType
        ensures { lanes_of (lane_parts result) (vector_parts self.now).lanes ≡ vector_parts self.now }
    {
        self.base
    }

    /// The number of the type, 0x84 to 0xfc: that of its lane, and 16 more for each doubling of the lane count.
    pub fn number(&self) -> u16
        ensures { result ≡ number_of (vector_parts self.now) }
    {
        self.base.number() + 16 * self.lanes.log2()
    }

    /// A description of the type in one line: ``A SIMD vector with 4 lanes containing a `i32` each.``
    pub fn doc(&self, alloc: Global) -> Result<Text, AllocError>
        ensures { IfOk result (λ t. t ≡ type_doc (vector_parts self.now)) }
    {
        let base = self.base;
        let lanes = self.lane_count();
        let doc = format!(in alloc;
            "A SIMD vector with {lanes} lanes containing a `{base}` each."
        )?;
        Ok(Text::of(doc))
    }
}

impl DynamicVectorType {
    /// The dynamic vector with at least this many lanes of this type. `is_lane_count` tests the count.
    pub fn new(base: LaneType, unscaled_lanes: u64) -> DynamicVectorType
        requires { Contains (lane_counts true) unscaled_lanes }
        ensures { dynamic_parts result ≡ least_lanes_of (lane_parts base) unscaled_lanes }
    {
        DynamicVectorType::of(base, LaneCount::new(unscaled_lanes))
    }

    pub(crate) fn of(base: LaneType, unscaled_lanes: LaneCount) -> DynamicVectorType
        ensures { dynamic_parts result ≡ least_lanes_of (lane_parts base) (lane_count unscaled_lanes) }
    {
        DynamicVectorType {
            base,
            unscaled_lanes,
        }
    }

    /// The width of a lane in bits, 8 to 128.
    pub fn lane_bits(&self) -> u64
        ensures { result ≡ (dynamic_parts self.now).width }
    {
        self.base.lane_bits()
    }

    /// The least lane count: a power of two from 2 to 256.
    pub fn minimum_lane_count(&self) -> u64
        ensures { result ≡ (dynamic_parts self.now).lanes }
    {
        self.unscaled_lanes.get()
    }

    /// The type of a lane.
    pub fn lane_type(&self) -> LaneType
        ensures { least_lanes_of (lane_parts result) (dynamic_parts self.now).lanes ≡ dynamic_parts self.now }
    {
        self.base
    }

    /// The number of the type, 0x104 to 0x17c: that of the fixed vector with the same lane count, and 0x80 more.
    pub fn number(&self) -> u16
        ensures { result ≡ number_of (dynamic_parts self.now) }
    {
        0x80 + self.base.number() + 16 * self.unscaled_lanes.log2()
    }

    /// A description of the type in one line: ``A dynamically-scaled SIMD vector with a minimum of 4 lanes containing `i32` bits each.``
    pub fn doc(&self, alloc: Global) -> Result<Text, AllocError>
        ensures { IfOk result (λ t. t ≡ type_doc (dynamic_parts self.now)) }
    {
        let base = self.base;
        let lanes = self.minimum_lane_count();
        let doc = format!(in alloc;
            "A dynamically-scaled SIMD vector with a minimum of {lanes} lanes containing `{base}` bits each."
        )?;
        Ok(Text::of(doc))
    }
}

impl fmt::Display for VectorType {
    ghost use Rattle.std.specs.Prelude.{Some};
    ghost use Rattle.meta_types.specs.TypeParts.{name_of};
    ghost use Rattle.meta_types.specs.Vector.{vector_parts};

    ghost output = { λ v. Some (name_of (vector_parts v)) };

    fn fmt<W: fmt::Write>(&self, f: &mut fmt::Formatter<W>) -> fmt::Result {
        let base = self.base;
        let lanes = self.lane_count();
        write!(f, "{base}x{lanes}")
    }
}

impl fmt::Display for DynamicVectorType {
    ghost use Rattle.std.specs.Prelude.{Some};
    ghost use Rattle.meta_types.specs.TypeParts.{name_of};
    ghost use Rattle.meta_types.specs.Vector.{dynamic_parts};

    ghost output = { λ v. Some (name_of (dynamic_parts v)) };

    fn fmt<W: fmt::Write>(&self, f: &mut fmt::Formatter<W>) -> fmt::Result {
        let base = self.base;
        let lanes = self.minimum_lane_count();
        write!(f, "{base}x{lanes}xN")
    }
}

fn write_debug<W: fmt::Write>(
    f: &mut fmt::Formatter<W>,
    name: &str,
    base: LaneType,
    lanes: u64,
) -> fmt::Result
    ensures { DisplaysOnOk W.write_str_gives f.old result
        (Some (name.now ++ (codes "(base=" ++ (name_of (lane_parts base) ++ (codes ", lanes=" ++ (decimal lanes ++ codes ")")))))) f.new }
{
    write!(f, "{name}(base={base}, lanes={lanes})")
}

impl fmt::Debug for VectorType {
    ghost use Rattle.std.specs.Prelude.{Some};
    ghost use Rattle.meta_types.specs.TypeText.{debug_of};
    ghost use Rattle.meta_types.specs.Vector.{vector_parts};

    ghost debug_output = { λ v. Some (debug_of (vector_parts v)) };

    fn fmt<W: fmt::Write>(&self, f: &mut fmt::Formatter<W>) -> fmt::Result {
        write_debug(f, "VectorType", self.base, self.lane_count())
    }
}

impl fmt::Debug for DynamicVectorType {
    ghost use Rattle.std.specs.Prelude.{Some};
    ghost use Rattle.meta_types.specs.TypeText.{debug_of};
    ghost use Rattle.meta_types.specs.Vector.{dynamic_parts};

    ghost debug_output = { λ v. Some (debug_of (dynamic_parts v)) };

    fn fmt<W: fmt::Write>(&self, f: &mut fmt::Formatter<W>) -> fmt::Result {
        write_debug(f, "DynamicVectorType", self.base, self.minimum_lane_count())
    }
}
