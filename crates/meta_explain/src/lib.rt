//! Why an opcode of tables refuses types, which types it takes, and which opcodes take given types. All is told by the tables alone.
//!
//! `explain` tells the first part of what is asked that fails, and exactly what that part has to be. `operand_types` lists the types that
//! an operand may have under given controls, `accepting` and `accepted_controls` the controls under which an opcode accepts anything, and
//! `find` the opcodes and controls that accept given types. Types are given by their numbers. `push_place`, `push_held`, `push_wants`,
//! `push_set` and `push_demand` write what is told.
#![tactic(auto)]

mod accepted;
mod control_options;
mod control_types;
mod explained;
mod explaining;
mod found;
mod laws;
mod operands;
mod part;
mod reasons;
mod searching;
mod sets;
mod texts;
mod types;
mod unfit;

pub use accepted::accepted_controls;
pub use control_options::ControlOptions;
pub use control_types::ControlTypes;
pub use explained::{Explained, Wanted};
pub use explaining::explain;
pub use found::Found;
pub use laws::{
    a_refusal_fails, one_explanation, operands_are_a_product, sets_are_the_least,
    texts_tell_the_types, types_alone_pass, what_is_wanted_lets_the_part_pass,
};
pub use operands::{accepting, accepts_some, find, operand_types};
pub use part::Part;
pub use reasons::{push_demand, push_held, push_place, push_wants};
pub use texts::{push_alternatives, push_set, push_type};
