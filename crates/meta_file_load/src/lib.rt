//! The wording of refusals of a file, except for what can't be read, which `meta_file_reader` words.
//!
//! `declare_why` says what is wrong with an item, `fault_why` what a fault of declarations means, and `located` puts the path and the line
//! before it.
#![tactic(auto)]

mod item_why;
mod why;

pub use item_why::declare_why;
pub use why::{fault_why, located};
