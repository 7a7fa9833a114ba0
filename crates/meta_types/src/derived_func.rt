ghost use Rattle.std.specs.Prelude.{◌≡◌, ◌≢◌, ◌↔◌, ◌==◌, ℕ, IfSome, IfNone, IsTrue, Contains, ◌&&◌, nat_lt};
ghost use Rattle.std.specs.List.{position};
ghost use Rattle.std.specs.Cmp.Lexicographic.{pointwise};
ghost use Rattle.meta_types.specs.TypeParts.{TypeParts, IsType, widths, scalar};
ghost use Rattle.meta_types.specs.Lane.{lane_parts};
ghost use Rattle.meta_types.specs.Function.{Function, Narrower, IsRelation, is_scalar, relates, StepsTypes, Answers, StepsNumbers};
ghost use Rattle.meta_types.specs.Function.{AnswersNumber};
ghost use Rattle.meta_types.specs.ValueTypes.{type_parts_of};
ghost use Rattle.meta_types.specs.DerivedFunc.{function_of, function_name, camel_function_name};
ghost use Rattle.meta_types.specs.Parts.{parts_meaning};

use super::lane::{LaneType, is_float_width, is_int_width};
use super::lane_count::is_lane_count;
use super::value_type::ValueType;
use super::vector::{DynamicVectorType, VectorType};

/// A derived function, by which one type variable is derived from another, as in the crate's `cdsl/typevar.rs`. Seven of them give at most
/// one type. `Narrower` and `Wider` are relations, which can give several.
#[derive(Clone, Copy, Debug, PartialEq, Eq, Hash)]
pub enum DerivedFunc {
    /// The lane of a type.
    LaneOf,
    /// `i8` for a scalar, and for a vector the integer vector of its lanes' width and count.
    AsTruthy,
    /// The type with lanes of half the width.
    HalfWidth,
    /// The type with lanes of twice the width.
    DoubleWidth,
    /// The type with twice the lanes, each of half the width.
    SplitLanes,
    /// The type with half the lanes, each of twice the width.
    MergeLanes,
    /// The fixed vector with the least lane count of a dynamic one, if that is less than 256.
    DynamicToVector,
    /// The scalars of the same kind with fewer bits.
    Narrower,
    /// The scalars of the same kind with more bits.
    Wider,
}

/// All derived functions.
pub const DERIVED_FUNCS: [DerivedFunc; 9] = [
    DerivedFunc::LaneOf,
    DerivedFunc::AsTruthy,
    DerivedFunc::HalfWidth,
    DerivedFunc::DoubleWidth,
    DerivedFunc::SplitLanes,
    DerivedFunc::MergeLanes,
    DerivedFunc::DynamicToVector,
    DerivedFunc::Narrower,
    DerivedFunc::Wider,
];

fn camel_place(name: &[u8]) -> Option<usize>
    ensures { result ≡ position (λ f. pointwise ◌==◌ (camel_function_name (function_of f)) name.now) DERIVED_FUNCS }
{
    DERIVED_FUNCS
        .iter()
        .position(|f| f.camel_name().as_bytes() == name)
}

#[derive(Clone, Copy, PartialEq, Eq)]
enum LaneKind {
    Int,
    Float,
}

/// The parts of a type: what a lane holds, its width in bits, the lane count, and whether that is the least count. Some parts aren't those
/// of any type.
#[derive(Clone, Copy)]
struct Parts {
    kind: LaneKind,
    width: u64,
    lanes: u64,
    is_dynamic: bool,
}

impl DerivedFunc {
    /// The name of the function in snake case, such as `lane_of`.
    pub fn name(self) -> &'static str
        ensures { result.now ≡ function_name (function_of self) }
    {
        match self {
            DerivedFunc::LaneOf => "lane_of",
            DerivedFunc::AsTruthy => "as_truthy",
            DerivedFunc::HalfWidth => "half_width",
            DerivedFunc::DoubleWidth => "double_width",
            DerivedFunc::SplitLanes => "split_lanes",
            DerivedFunc::MergeLanes => "merge_lanes",
            DerivedFunc::DynamicToVector => "dynamic_to_vector",
            DerivedFunc::Narrower => "narrower",
            DerivedFunc::Wider => "wider",
        }
    }

    /// The name of the function in camel case, such as `LaneOf`.
    pub fn camel_name(self) -> &'static str
        ensures { result.now ≡ camel_function_name (function_of self) }
    {
        match self {
            DerivedFunc::LaneOf => "LaneOf",
            DerivedFunc::AsTruthy => "AsTruthy",
            DerivedFunc::HalfWidth => "HalfWidth",
            DerivedFunc::DoubleWidth => "DoubleWidth",
            DerivedFunc::SplitLanes => "SplitLanes",
            DerivedFunc::MergeLanes => "MergeLanes",
            DerivedFunc::DynamicToVector => "DynamicToVector",
            DerivedFunc::Narrower => "Narrower",
            DerivedFunc::Wider => "Wider",
        }
    }

    /// The function with this name in camel case. `None` exactly if there is no such function.
    pub fn of_camel_name(name: &[u8]) -> Option<DerivedFunc>
        ensures found { IfSome result (λ f. camel_function_name (function_of f) ≡ name.now) }
        ensures none { IfNone result ((f : Function) → camel_function_name f ≢ name.now) }
    {
        let place = camel_place(name)?;
        Some(DERIVED_FUNCS[place])
    }

    /// Whether the function is a relation, which can give several types.
    pub fn is_relation(self) -> bool
        ensures { IsTrue result ↔ IsRelation (function_of self) }
    {
        matches!(self, DerivedFunc::Narrower | DerivedFunc::Wider)
    }

    /// The type to which the function leads from `c`. `None` exactly if it doesn't lead to a type, or is a relation.
    pub fn apply(self, c: ValueType) -> Option<ValueType>
        ensures found { IfSome result (λ t. Answers (function_of self) (type_parts_of c) (type_parts_of t)) }
        ensures none { IfNone result ((t : TypeParts) → ¬ Answers (function_of self) (type_parts_of c) t) }
    {
        let from = Parts::of(c);
        match self {
            DerivedFunc::LaneOf => Parts {
                lanes: 1,
                is_dynamic: false,
                ..from
            }
            .value_type(),
            DerivedFunc::AsTruthy => Parts {
                kind: LaneKind::Int,
                width: if from.is_scalar() { 8 } else { from.width },
                ..from
            }
            .value_type(),
            DerivedFunc::HalfWidth => Parts {
                width: from.width / 2,
                ..from
            }
            .value_type(),
            DerivedFunc::DoubleWidth => Parts {
                width: 2 * from.width,
                ..from
            }
            .value_type(),
            DerivedFunc::SplitLanes => Parts {
                width: from.width / 2,
                lanes: 2 * from.lanes,
                ..from
            }
            .value_type(),
            DerivedFunc::MergeLanes => Parts {
                width: 2 * from.width,
                lanes: from.lanes / 2,
                ..from
            }
            .value_type(),
            DerivedFunc::DynamicToVector if from.has_fixed_form() => Parts {
                is_dynamic: false,
                ..from
            }
            .value_type(),
            DerivedFunc::DynamicToVector | DerivedFunc::Narrower | DerivedFunc::Wider => None,
        }
    }

    /// Whether the function leads from `c` to `t`. A relation can lead to several types.
    pub fn relates(self, c: ValueType, t: ValueType) -> bool
        ensures { IsTrue result ↔ StepsTypes (function_of self) (type_parts_of c) (type_parts_of t) }
    {
        match self {
            DerivedFunc::Narrower => Parts::of(t).is_narrower(Parts::of(c)),
            DerivedFunc::Wider => Parts::of(c).is_narrower(Parts::of(t)),
            _ => self.apply(c) == Some(t),
        }
    }

    /// The number of the type to which the function leads from the type with the number `c`. `None` exactly if no type has the number `c`,
    /// or the function doesn't lead to a type, or is a relation.
    pub fn apply_number(self, c: u16) -> Option<u16>
        ensures found { IfSome result (λ m. AnswersNumber (function_of self) c m) }
        ensures none { IfNone result ((m : ℕ) → ¬ AnswersNumber (function_of self) c m) }
    {
        let t = self.apply(ValueType::from_number(c)?)?;
        Some(t.number())
    }

    /// Whether `c` and `t` are the numbers of types, and the function leads from the first to the second. A relation can lead to several
    /// types.
    pub fn relates_number(self, c: u16, t: u16) -> bool
        ensures { IsTrue result ↔ StepsNumbers (function_of self) c t }
    {
        match (ValueType::from_number(c), ValueType::from_number(t)) {
            (Some(c), Some(t)) => self.relates(c, t),
            _ => false,
        }
    }
}

impl Parts {
    fn of(t: ValueType) -> Parts
        ensures { parts_meaning result ≡ type_parts_of t }
    {
        match t {
            ValueType::Lane(lane) => Parts::of_lanes(lane, 1, false),
            ValueType::Vector(v) => Parts::of_lanes(v.lane_type(), v.lane_count(), false),
            ValueType::DynamicVector(v) => {
                Parts::of_lanes(v.lane_type(), v.minimum_lane_count(), true)
            }
        }
    }

    fn of_lanes(lane: LaneType, lanes: u64, is_dynamic: bool) -> Parts
        ensures { parts_meaning result ≡ record {
          kind = (lane_parts lane).kind;
          width = (lane_parts lane).width;
          lanes = lanes;
          is_dynamic = is_dynamic;
        } }
    {
        let kind = match lane {
            LaneType::Int(_) => LaneKind::Int,
            LaneType::Float(_) => LaneKind::Float,
        };
        Parts {
            kind,
            width: lane.lane_bits(),
            lanes,
            is_dynamic,
        }
    }

    fn lane(self) -> Option<LaneType>
        ensures found { IfSome result (λ lane. lane_parts lane ≡ scalar (parts_meaning self).kind self.width) }
        ensures none { IfNone result (¬ Contains (widths (parts_meaning self).kind) self.width) }
    {
        let width = u16::try_from(self.width).ok()?;
        match self.kind {
            LaneKind::Int if is_int_width(width) => Some(LaneType::int_from_bits(width)),
            LaneKind::Float if is_float_width(width) => Some(LaneType::float_from_bits(width)),
            _ => None,
        }
    }

    fn value_type(self) -> Option<ValueType>
        ensures found { IfSome result (λ t. type_parts_of t ≡ parts_meaning self) }
        ensures none { IfNone result (¬ IsType (parts_meaning self)) }
    {
        let lane = self.lane()?;
        if self.lanes == 1 && !self.is_dynamic {
            return Some(ValueType::Lane(lane));
        }
        if !is_lane_count(self.lanes) {
            return None;
        }
        Some(if self.is_dynamic {
            ValueType::DynamicVector(DynamicVectorType::new(lane, self.lanes))
        } else {
            ValueType::Vector(VectorType::new(lane, self.lanes))
        })
    }

    fn is_scalar(self) -> bool
        ensures { result ≡ is_scalar (parts_meaning self) }
    {
        self.lanes == 1
    }

    /// Whether this is a dynamic vector that `dynamic_to_vector` leads from to a fixed one.
    fn has_fixed_form(self) -> bool
        ensures { result ≡ (self.is_dynamic && nat_lt self.lanes 256) }
    {
        self.is_dynamic && self.lanes < 256
    }

    /// Whether both are scalars of one kind, and this one has fewer bits than the other.
    fn is_narrower(self, other: Parts) -> bool
        ensures { result ≡ relates Narrower (parts_meaning other) (parts_meaning self) }
    {
        self.kind == other.kind
            && (other.is_scalar() && (self.is_scalar() && self.width < other.width))
    }
}

/// A derived function leads from a type to at most one type.
pub fn answers_are_one()
    ensures { (f : Function) (u s t : TypeParts) → Answers f u s → Answers f u t → s ≡ t }
{}
