ghost use Rattle.std.specs.Prelude.{◌≡◌, ◌==◌, ◌<◌, ◌^◌, ◌-◌, ◌++◌, [], ◌∷◌, length, sum, IfOk, OnOk, OnErr, IfSome, IfNone, ℕ, Some, None};
ghost use Rattle.meta_types.specs.Lane.{lane_parts};
ghost use Rattle.meta_types.specs.TypeParts.{number_of, name_of};
ghost use Rattle.meta_types.specs.TypeText.{type_doc};
ghost use Rattle.meta_types.specs.ValueTypes.{type_parts_of};
ghost use Rattle.meta_typevar.specs.Derivation.{int_width_of, float_width_of};
ghost use Rattle.meta_typevar.specs.Registry.{root_content};
ghost use Rattle.meta_file_types.specs.Plain.{plain_type, set_of_one};
ghost use Rattle.meta_file_types.specs.Held.{StandsFor};

use meta_types::{
    LaneType, Text, ValueType, each_type_is_one_value, names_differ, numbers_differ,
    there_are_153_types,
};
use meta_typevar::{Masks, TypeSet, TypeVar, TypeVars};
use std::alloc::{AllocError, Global};

/// A plain type that is in use, such as `i32`, and the variable that stands for it.
#[derive(Clone, Copy)]
pub struct PlainRoot {
    pub value_type: ValueType,
    pub variable: TypeVar,
}

#[tactic(auto, using(crate::proofs::Naming::plain_found, crate::proofs::Naming::plain_none))]
pub(crate) fn plain_type(word: &[u8]) -> Option<ValueType>
    ensures found { IfSome result (λ t. plain_type word.now ≡ Some (type_parts_of t)) }
    ensures none { IfNone result (plain_type word.now ≡ None) }
{
    there_are_153_types();
    names_differ();
    each_type_is_one_value();
    ValueType::parse(word)
}

fn is_of(root: &PlainRoot, value_type: ValueType) -> bool
    ensures { result ≡ (number_of (type_parts_of root.now.value_type) == number_of (type_parts_of value_type)) }
{
    root.value_type.number() == value_type.number()
}

pub(crate) fn variable_for(plain: &[PlainRoot], value_type: ValueType) -> Option<TypeVar>
    ensures found { IfSome result (StandsFor plain.now (type_parts_of value_type)) }
    ensures none { IfNone result ((n : ℕ) → StandsFor plain.now (type_parts_of value_type) n → ⊥) }
{
    each_type_is_one_value();
    numbers_differ();
    for root in plain {
        if is_of(root, value_type) {
            return Some(root.variable);
        }
    }
    None
}

/// The masks of lane counts of the set that has the type alone: of fixed ones, and of dynamic ones.
fn lane_masks(value_type: ValueType) -> (u16, u16)
    ensures fixed { result.0 ≡ sum (set_of_one (type_parts_of value_type)).lanes }
    ensures dynamic { result.1 ≡ sum (set_of_one (type_parts_of value_type)).dynamic_lanes }
{
    match value_type {
        ValueType::Lane(_) => (1, 0),
        ValueType::Vector(vector) => (vector.lane_count() as u16, 0),
        ValueType::DynamicVector(vector) => (0, vector.minimum_lane_count() as u16),
    }
}

fn lane_of(value_type: ValueType) -> LaneType
    ensures kind { (lane_parts result).kind ≡ (type_parts_of value_type).kind }
    ensures width { (lane_parts result).width ≡ (type_parts_of value_type).width }
{
    match value_type {
        ValueType::Lane(lane) => lane,
        ValueType::Vector(vector) => vector.lane_type(),
        ValueType::DynamicVector(vector) => vector.lane_type(),
    }
}

/// The masks of the width of a lane: of integers, and of floats.
fn width_masks(lane: LaneType) -> (u8, u8)
    ensures ints { result.0 ≡ sum (int_width_of (lane_parts lane).kind (lane_parts lane).width) }
    ensures floats { result.1 ≡ sum (float_width_of (lane_parts lane).kind (lane_parts lane).width) }
{
    match lane {
        LaneType::Int(_) => (lane.lane_bits() as u8, 0),
        LaneType::Float(_) => (0, lane.lane_bits() as u8),
    }
}

fn set_of_one(value_type: ValueType) -> TypeSet
    ensures { result ≡ set_of_one (type_parts_of value_type) }
{
    let (lanes, dynamic_lanes) = lane_masks(value_type);
    let (ints, floats) = width_masks(lane_of(value_type));
    let masks = Masks {
        lanes,
        dynamic_lanes,
        ints,
        floats,
    };
    let Some(set) = TypeSet::of(masks) else {
        unreachable!()
    };
    set
}

/// Adds the root that the word of a plain type stands for to the registry, which must have room. It has the type's name and documentation,
/// and the type alone. After an error the registry is as it was.
pub fn add_plain_root(
    alloc: Global,
    vars: &mut TypeVars,
    value_type: ValueType,
) -> Result<TypeVar, AllocError>
    requires { length vars.old < 2 ^ 32 - 1 }
    ensures number { IfOk result (λ v. v ≡ length vars.old) }
    ensures added { let t = type_parts_of value_type in
        OnOk result (vars.new ≡ vars.old ++ root_content (name_of t) (type_doc t) (set_of_one t) (length vars.old) ∷ []) }
    ensures err { OnErr result (vars.new ≡ vars.old) }
{
    let name = value_type.to_string(alloc)?;
    let name = Text::new(alloc, name.as_str())?;
    let doc = value_type.doc(alloc)?;
    TypeVar::new(vars, name, doc, set_of_one(value_type))
}
