ghost use Rattle.std.specs.Prelude.{◌≡◌, ◌≢◌, IfOk, IfSome, IfNone};
ghost use Rattle.meta_types.specs.TypeParts.{TypeParts, IsType, known_lanes, bits_of, bytes_of, number_of, name_of};
ghost use Rattle.meta_types.specs.LaneTypes.{lane_types, lane_types_left};
ghost use Rattle.meta_types.specs.ValueTypes.{type_parts_of};
ghost use Rattle.meta_types.specs.TypeText.{type_doc, rust_name_of};

use super::lane::{LANE_BASE, LaneType};
use super::lane_count::LaneCount;
use super::lane_iter::LaneTypeIterator;
use super::text::Text;
use super::type_name::type_number;
use super::vector::{DynamicVectorType, VectorType};
use std::alloc::{AllocError, Global};
use std::fmt;

/// The type of a value, as in the crate's `cdsl/types.rs`.
#[derive(Clone, Copy, Debug, PartialEq, Eq, Hash)]
pub enum ValueType {
    /// A scalar.
    Lane(LaneType),
    /// A vector of 2 to 256 lanes.
    Vector(VectorType),
    /// A vector of at least 2 to 256 lanes, whose actual count isn't known.
    DynamicVector(DynamicVectorType),
}

impl ValueType {
    /// The nine lane types: integers, then floats, each in rising width.
    pub fn all_lane_types() -> LaneTypeIterator
        ensures { lane_types_left result ≡ lane_types }
    {
        LaneTypeIterator::new()
    }

    /// The width of a lane in bits, 8 to 128.
    pub fn lane_bits(&self) -> u64
        ensures { result ≡ (type_parts_of self.now).width }
    {
        match self {
            ValueType::Lane(lane) => lane.lane_bits(),
            ValueType::Vector(vector) => vector.lane_bits(),
            ValueType::DynamicVector(vector) => vector.lane_bits(),
        }
    }

    /// The count of lanes that are known to be there, 1 to 256. It is 1 for a scalar and for a dynamic vector.
    pub fn lane_count(&self) -> u64
        ensures { result ≡ known_lanes (type_parts_of self.now) }
    {
        match self {
            ValueType::Vector(vector) => vector.lane_count(),
            _ => 1,
        }
    }

    /// The count of bits in the lanes that are known to be there, 8 to 32768. For a dynamic vector these are the bits of one lane.
    pub fn width(&self) -> u64
        ensures { result ≡ bits_of (type_parts_of self.now) }
    {
        self.lane_count() * self.lane_bits()
    }

    /// The count of bytes in memory of the lanes that are known to be there, 1 to 4096. For a dynamic vector these are the bytes of one
    /// lane.
    pub fn membytes(&self) -> u64
        ensures { result ≡ bytes_of (type_parts_of self.now) }
    {
        self.width() / 8
    }

    /// The number of the type, 0x74 to 0x17c. Tables name types by these numbers.
    pub fn number(&self) -> u16
        ensures { result ≡ number_of (type_parts_of self.now) }
    {
        match self {
            ValueType::Lane(lane) => lane.number(),
            ValueType::Vector(vector) => vector.number(),
            ValueType::DynamicVector(vector) => vector.number(),
        }
    }

    /// A description of the type in one line.
    pub fn doc(&self, alloc: Global) -> Result<Text, AllocError>
        ensures { IfOk result (λ t. t ≡ type_doc (type_parts_of self.now)) }
    {
        match self {
            ValueType::Lane(lane) => lane.doc(alloc),
            ValueType::Vector(vector) => vector.doc(alloc),
            ValueType::DynamicVector(vector) => vector.doc(alloc),
        }
    }

    /// The name of the type in Rust source: `ir::types::` and the name in capitals, such as `ir::types::I32X4`.
    pub fn rust_name(&self, alloc: Global) -> Result<Text, AllocError>
        ensures { IfOk result (λ t. t ≡ rust_name_of (type_parts_of self.now)) }
    {
        let name = self.to_string(alloc)?;
        let capitals = name.to_ascii_uppercase(alloc)?;
        let rust_name = format!(in alloc; "ir::types::{capitals}")?;
        Ok(Text::of(rust_name))
    }

    /// The type with this number. `None` exactly if no type has it.
    pub fn from_number(n: u16) -> Option<ValueType>
        ensures found { IfSome result (λ t. number_of (type_parts_of t) ≡ n) }
        ensures none { IfNone result ((t : TypeParts) → IsType t → number_of t ≢ n) }
    {
        let above = n.checked_sub(LANE_BASE)?;
        let lane = LaneType::from_code(above % 16)?;
        let row = above / 16;
        if row == 0 {
            return Some(ValueType::Lane(lane));
        }
        if row <= 8 {
            let lanes = LaneCount::from_log2(row)?;
            return Some(ValueType::Vector(VectorType::of(lane, lanes)));
        }
        let least = LaneCount::from_log2(row - 8)?;
        Some(ValueType::DynamicVector(DynamicVectorType::of(lane, least)))
    }

    /// The type with this name. `None` exactly if no type has it.
    pub fn parse(text: &[u8]) -> Option<ValueType>
        ensures found { IfSome result (λ t. name_of (type_parts_of t) ≡ text.now) }
        ensures none { IfNone result ((t : TypeParts) → IsType t → name_of t ≢ text.now) }
    {
        let number = type_number(text)?;
        ValueType::from_number(number)
    }
}

impl From<LaneType> for ValueType {
    ghost use Rattle.std.specs.Prelude.{◌≡◌};
    ghost use Rattle.meta_types.specs.declared.value_type.ValueType.TheVariants.{Lane};

    ghost from_gives = { λ x r. r ≡ Lane x };

    fn from(lane: LaneType) -> ValueType {
        ValueType::Lane(lane)
    }
}

impl From<VectorType> for ValueType {
    ghost use Rattle.std.specs.Prelude.{◌≡◌};
    ghost use Rattle.meta_types.specs.declared.value_type.ValueType.TheVariants.{Vector};

    ghost from_gives = { λ x r. r ≡ Vector x };

    fn from(vector: VectorType) -> ValueType {
        ValueType::Vector(vector)
    }
}

impl From<DynamicVectorType> for ValueType {
    ghost use Rattle.std.specs.Prelude.{◌≡◌};
    ghost use Rattle.meta_types.specs.declared.value_type.ValueType.TheVariants.{DynamicVector};

    ghost from_gives = { λ x r. r ≡ DynamicVector x };

    fn from(vector: DynamicVectorType) -> ValueType {
        ValueType::DynamicVector(vector)
    }
}

impl fmt::Display for ValueType {
    ghost use Rattle.std.specs.Prelude.{Some};
    ghost use Rattle.meta_types.specs.TypeParts.{name_of};
    ghost use Rattle.meta_types.specs.ValueTypes.{type_parts_of};

    ghost output = { λ t. Some (name_of (type_parts_of t)) };

    fn fmt<W: fmt::Write>(&self, f: &mut fmt::Formatter<W>) -> fmt::Result {
        match self {
            ValueType::Lane(lane) => write!(f, "{lane}"),
            ValueType::Vector(vector) => write!(f, "{vector}"),
            ValueType::DynamicVector(vector) => write!(f, "{vector}"),
        }
    }
}
