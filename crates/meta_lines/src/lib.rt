//! The lines of an input, the words of a line, and what a word stands for: a type, controlling types, a list of types, a number.
#![tactic(auto)]

mod control;
mod lines;
mod number;
mod pieces;
mod type_list;

pub use control::{ControlNumbers, parse_control};
pub use lines::Lines;
pub use number::{number_in, number_u8, number_u16, number_u32};
pub use pieces::{Pieces, cut, end_of};
pub use type_list::read_types;
