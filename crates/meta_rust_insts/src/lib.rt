//! The text of instructions as Rust source: the formats, the data of instructions, and the opcodes, as the crate's `gen_inst.rs` writes
//! them.
//!
//! `push_formats`, `push_data` and `push_opcodes` add the texts of what is built of declarations, and each text ends with an empty line.
//! `push_data_impl` adds `impl InstructionData`: the methods for the formats in use. The tables `OPCODE_FORMAT` and `OPCODE_HASH_TABLE`,
//! which the crate writes with the opcodes, are in the text of tables.
#![tactic(auto)]

mod accessors;
mod data;
mod data_impl;
mod deep_clone_method;
mod eq_method;
mod formats;
mod hash_method;
mod held;
mod map_method;
mod members;
mod opcodes;

pub use data::push_data;
pub use data_impl::push_data_impl;
pub use formats::{formats_in_use, push_formats};
pub use held::{Values, values_of};
pub use opcodes::push_opcodes;
