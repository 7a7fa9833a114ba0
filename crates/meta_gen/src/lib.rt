//! The tables of declarations, and how they are read.
//!
//! `generate` refuses `Declarations` by their first fault, or makes their `Tables`. `tables_of` makes the tables of what is built, and
//! `tables_from_parts` those of well-formed parts. `Tables::accepts2` is the decoding, and `Tables::infer_results2` infers the types of
//! results. A `Reply` is the answer to a line that asks something. `OpcodeTables` are the tables of an instruction set alone.
#![tactic(auto)]

mod constraint;
mod entries;
mod generation;
mod laws;
mod masks;
mod names;
mod opcode_laws;
mod opcode_parts;
mod opcode_tables;
mod operand_constraints;
mod parts;
mod reply;
mod same;
mod same_opcodes;
mod tables;

pub use constraint::{Constraint, Demand, NO_TYPE_SET, OpcodeConstraints, constraints_from};
pub use generation::{generate, tables_of};
pub use laws::one_table_of_declarations;
pub use meta_build::{Built, Declarations, MAX_OPCODES, MAX_TYPE_SETS, build_all, one_first_fault};
pub use meta_inst::Which;
pub use meta_setting_tables::{
    Descriptor, Detail, GroupParts, GroupTables, built_groups_have_tables,
    built_groups_have_well_formed_tables,
};
pub use opcode_laws::{
    designated_values_have_the_controlling_type, equal_constraints, one_table_has_the_parts,
    one_table_of_an_instruction_set, tables_mean_the_declarations,
    tables_of_valid_declarations_are_well_formed,
};
pub use opcode_parts::{MAX_CONSTRAINTS, opcodes_from_parts};
pub use opcode_tables::OpcodeTables;
pub use parts::{TableParts, one_table_has_all_parts, tables_from_parts};
pub use reply::Reply;
pub use tables::Tables;
