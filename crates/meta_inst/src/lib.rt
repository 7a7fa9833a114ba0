//! Instructions: their declarations and what controls them, as in the crate's `cdsl/instructions.rs`, and the meaning of one instruction.
//!
//! `Accepts` says what an instruction accepts by its declaration: one choice of a type for every root at once. `Admits` says the same by
//! one test for each operand, and `Allows` is the decoding of tables. The laws between these have no code.
#![tactic(auto)]

mod all;
mod builder;
mod checks;
mod content;
mod controls;
mod format_match;
mod input_counts;
mod laws;
mod marks;
mod meaning_laws;
mod operands;
mod polymorphic;

pub use all::{AllInstructions, InstructionGroupBuilder};
pub use builder::InstructionBuilder;
pub use content::{Instruction, InstructionContent};
pub use controls::{Controls, Which};
pub use laws::one_own_fault;
pub use marks::Marks;
pub use meaning_laws::{
    chain_end, designated_value_has_the_controlling_type, masks_contain_the_members,
    one_constraint, one_control, one_test_an_operand, results_are_inferred,
    tables_infer_the_results, tables_mean_the_instruction, without_a_second_control,
};
pub use operands::{Controlling, Operands};
pub use polymorphic::PolymorphicInfo;
