//! Texts of Rust source.
//!
//! Each is made in memory as a whole, and then written to a sink. `write_types` writes the constants of the value types that are most in
//! use, and `write_settings` the flags of groups of settings: what is fixed for a group, its enums and its getters. `write_instructions`
//! writes the formats, the opcodes and the data of instructions, and `write_builder` the builder of instructions, with its constructors of
//! formats and its methods that take an immediate. The last three write what is built of declarations.
#![tactic(auto)]

mod arguments;
mod body;
mod builder;
mod builder_items;
mod constructor;
mod constructor_call;
mod docs;
mod enum_types;
mod flags;
mod getters;
mod group_texts;
mod imm_builders;
mod imm_inputs;
mod inst_builder;
mod instructions;
mod method_arguments;
mod method_docs;
mod names;
mod numbering;
mod operands;
mod parent_group;
mod results;
mod settings;
mod type_parameters;
mod types;
mod written;

pub use builder::write_builder;
pub use builder_items::builder_text;
pub use docs::first_line;
pub use group_texts::settings_text;
pub use instructions::{instructions_text, write_instructions};
pub use operands::{asked_control, variable_doc, variable_name, variables};
pub use settings::write_settings;
pub use types::{types_text, write_types};
