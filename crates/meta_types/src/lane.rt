ghost use Rattle.std.specs.Prelude.{◌≡◌, ◌≢◌, ◌↔◌, ◌⊎◌, ℕ, IsTrue, IfOk, IfSome, IfNone, Contains, true};
ghost use Rattle.meta_types.specs.TypeParts.{NumberKind, IntKind, FloatKind, widths, lane_counts, scalar, lane_code, number_of, name_of};
ghost use Rattle.meta_types.specs.Lane.{lane_parts};
ghost use Rattle.meta_types.specs.Vector.{lanes_of, least_lanes_of};
ghost use Rattle.meta_types.specs.ValueTypes.{type_parts_of};
ghost use Rattle.meta_types.specs.TypeText.{type_doc};

use super::lane_iter::LaneTypeIterator;
use super::text::Text;
use super::value_type::ValueType;
use super::vector::{DynamicVectorType, VectorType};
use std::alloc::{AllocError, Global};
use std::fmt;

/// An integer lane, by its width.
#[derive(Clone, Copy, PartialEq, Eq, Hash)]
pub enum Int {
    /// 8 bits.
    I8,
    /// 16 bits.
    I16,
    /// 32 bits.
    I32,
    /// 64 bits.
    I64,
    /// 128 bits.
    I128,
}

/// A floating-point lane, by its width. It is only a name and a width: no arithmetic is done.
#[derive(Clone, Copy, PartialEq, Eq, Hash)]
pub enum Float {
    /// 16 bits.
    F16,
    /// 32 bits.
    F32,
    /// 64 bits.
    F64,
    /// 128 bits.
    F128,
}

/// A type that can stand alone or be a lane of a vector, as in the crate's `cdsl/types.rs`.
#[derive(Clone, Copy, PartialEq, Eq, Hash)]
pub enum LaneType {
    /// An integer.
    Int(Int),
    /// A floating-point number.
    Float(Float),
}

/// The number from which the numbers of types count. In Cranelift another crate defines it.
pub(crate) const LANE_BASE: u16 = 0x70;

/// Whether an integer lane can have this width: 8, 16, 32, 64 or 128 bits.
pub fn is_int_width(num_bits: u16) -> bool
    ensures { IsTrue result ↔ Contains (widths IntKind) num_bits }
{
    [8, 16, 32, 64, 128].contains(&num_bits)
}

/// Whether a floating-point lane can have this width: 16, 32, 64 or 128 bits.
pub fn is_float_width(num_bits: u16) -> bool
    ensures { IsTrue result ↔ Contains (widths FloatKind) num_bits }
{
    [16, 32, 64, 128].contains(&num_bits)
}

impl LaneType {
    /// The width in bits, 8 to 128.
    pub fn lane_bits(self) -> u64
        ensures { result ≡ (lane_parts self).width }
    {
        match self {
            LaneType::Int(Int::I8) => 8,
            LaneType::Int(Int::I16) | LaneType::Float(Float::F16) => 16,
            LaneType::Int(Int::I32) | LaneType::Float(Float::F32) => 32,
            LaneType::Int(Int::I64) | LaneType::Float(Float::F64) => 64,
            LaneType::Int(Int::I128) | LaneType::Float(Float::F128) => 128,
        }
    }

    /// The number of the type, 0x74 to 0x7c. The order is `i8`, `i16`, `i32`, `i64`, `i128`, `f16`, `f32`, `f64`, `f128`.
    pub fn number(self) -> u16
        ensures { result ≡ number_of (lane_parts self) }
    {
        LANE_BASE + self.code()
    }

    /// The code of a lane, 4 to 12.
    fn code(self) -> u16
        ensures { result ≡ lane_code (lane_parts self).kind (lane_parts self).width }
    {
        match self {
            LaneType::Int(Int::I8) => 4,
            LaneType::Int(Int::I16) => 5,
            LaneType::Int(Int::I32) => 6,
            LaneType::Int(Int::I64) => 7,
            LaneType::Int(Int::I128) => 8,
            LaneType::Float(Float::F16) => 9,
            LaneType::Float(Float::F32) => 10,
            LaneType::Float(Float::F64) => 11,
            LaneType::Float(Float::F128) => 12,
        }
    }

    pub(crate) fn from_code(code: u16) -> Option<LaneType>
        ensures found { IfSome result (λ l. lane_code (lane_parts l).kind (lane_parts l).width ≡ code) }
        ensures none { IfNone result ((kind : NumberKind) (width : ℕ) → Contains (widths kind) width → lane_code kind width ≢ code) }
    {
        for lane in LaneTypeIterator::new() {
            if lane.code() == code {
                return Some(lane);
            }
        }
        None
    }

    /// The integer lane with this width in bits, which `is_int_width` tests.
    pub fn int_from_bits(num_bits: u16) -> LaneType
        requires { Contains (widths IntKind) num_bits }
        ensures { lane_parts result ≡ scalar IntKind num_bits }
    {
        LaneType::Int(match num_bits {
            8 => Int::I8,
            16 => Int::I16,
            32 => Int::I32,
            64 => Int::I64,
            _ => Int::I128,
        })
    }

    /// The floating-point lane with this width in bits, which `is_float_width` tests.
    pub fn float_from_bits(num_bits: u16) -> LaneType
        requires { Contains (widths FloatKind) num_bits }
        ensures { lane_parts result ≡ scalar FloatKind num_bits }
    {
        LaneType::Float(match num_bits {
            16 => Float::F16,
            32 => Float::F32,
            64 => Float::F64,
            _ => Float::F128,
        })
    }

    /// The type with this many lanes of this type: the lane itself for 1, else a vector. `is_lane_count` tests whether a vector can have
    /// this many.
    pub fn by(self, lanes: u16) -> ValueType
        requires { (lanes ≡ 1) ⊎ Contains (lane_counts true) lanes }
        ensures { type_parts_of result ≡ lanes_of (lane_parts self) lanes }
    {
        if lanes == 1 {
            ValueType::Lane(self)
        } else {
            ValueType::Vector(VectorType::new(self, lanes.into()))
        }
    }

    /// The dynamic vector with at least this many lanes of this type. `is_lane_count` tests the count.
    pub fn to_dynamic(self, lanes: u16) -> ValueType
        requires { Contains (lane_counts true) lanes }
        ensures { type_parts_of result ≡ least_lanes_of (lane_parts self) lanes }
    {
        ValueType::DynamicVector(DynamicVectorType::new(self, lanes.into()))
    }

    /// A description of the type in one line, such as `An integer type with 32 bits.`
    pub fn doc(self, alloc: Global) -> Result<Text, AllocError>
        ensures { IfOk result (λ t. t ≡ type_doc (lane_parts self)) }
    {
        let bits = self.lane_bits();
        let (before, after) = match self {
            LaneType::Int(_) => ("An integer type with ", " bits."),
            LaneType::Float(_) => ("A ", "-bit floating point type."),
        };
        let doc = format!(in alloc; "{before}{bits}{after}")?;
        Ok(Text::of(doc))
    }

    pub(crate) fn name(self) -> &'static str
        ensures { result.now ≡ name_of (lane_parts self) }
    {
        match self {
            LaneType::Int(Int::I8) => "i8",
            LaneType::Int(Int::I16) => "i16",
            LaneType::Int(Int::I32) => "i32",
            LaneType::Int(Int::I64) => "i64",
            LaneType::Int(Int::I128) => "i128",
            LaneType::Float(Float::F16) => "f16",
            LaneType::Float(Float::F32) => "f32",
            LaneType::Float(Float::F64) => "f64",
            LaneType::Float(Float::F128) => "f128",
        }
    }
}

impl From<Int> for LaneType {
    ghost use Rattle.std.specs.Prelude.{◌≡◌};
    ghost use Rattle.meta_types.specs.declared.lane.LaneType.TheVariants.{Int};

    ghost from_gives = { λ x r. r ≡ Int x };

    fn from(i: Int) -> LaneType {
        LaneType::Int(i)
    }
}

impl From<Float> for LaneType {
    ghost use Rattle.std.specs.Prelude.{◌≡◌};
    ghost use Rattle.meta_types.specs.declared.lane.LaneType.TheVariants.{Float};

    ghost from_gives = { λ x r. r ≡ Float x };

    fn from(f: Float) -> LaneType {
        LaneType::Float(f)
    }
}

impl fmt::Display for LaneType {
    ghost use Rattle.std.specs.Prelude.{Some};
    ghost use Rattle.meta_types.specs.TypeParts.{name_of};
    ghost use Rattle.meta_types.specs.Lane.{lane_parts};

    ghost output = { λ l. Some (name_of (lane_parts l)) };

    fn fmt<W: fmt::Write>(&self, f: &mut fmt::Formatter<W>) -> fmt::Result {
        f.write_str(self.name())
    }
}

impl fmt::Debug for LaneType {
    ghost use Rattle.std.specs.Prelude.{Some};
    ghost use Rattle.meta_types.specs.Lane.{lane_parts};
    ghost use Rattle.meta_types.specs.TypeText.{debug_of};

    ghost debug_output = { λ l. Some (debug_of (lane_parts l)) };

    fn fmt<W: fmt::Write>(&self, f: &mut fmt::Formatter<W>) -> fmt::Result {
        let bits = self.lane_bits();
        match self {
            LaneType::Int(_) => write!(f, "IntType(bits={bits})"),
            LaneType::Float(_) => write!(f, "FloatType(bits={bits})"),
        }
    }
}
