//! Value types, texts and the faults of declarations, which all other crates use.
//!
//! A contract sees a value type as a `TypeParts` of `specs/`: a kind, a width, a lane count, and whether it is dynamic.
#![tactic(auto)]

mod derived_func;
mod earlier_names;
mod fault;
mod lane;
mod lane_count;
mod lane_iter;
mod laws;
mod name;
mod text;
mod type_name;
mod value_type;
mod vector;

pub use derived_func::{DERIVED_FUNCS, DerivedFunc, answers_are_one};
pub use earlier_names::{EarlierNames, are_distinct};
pub use fault::{DefinitionError, Place};
pub use lane::{Float, Int, LaneType, is_float_width, is_int_width};
pub use lane_count::is_lane_count;
pub use lane_iter::{FloatIterator, IntIterator, LaneTypeIterator};
pub use laws::{
    distinct_names_differ, each_type_is_one_value, names_differ, numbers_differ,
    there_are_153_types,
};
pub use name::{are_names, camel_case, is_name};
pub use text::{Text, same_texts};
pub use type_name::type_number;
pub use value_type::ValueType;
pub use vector::{DynamicVectorType, VectorType};
