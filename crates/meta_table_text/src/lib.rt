//! The text of tables, in three versions: what `meta_gen` makes of declarations, as the crate's generator writes it in Rust source.
//!
//! `table_text` makes the text of any tables in any version. `fits` tests whether a version has all that the tables hold. `write_tables`
//! writes the newest version to a sink.
#![tactic(auto)]

mod constraint_text;
mod fitting;
mod group_items;
mod group_text;
mod opcode_block;
mod opcode_lists;
mod table_list;
mod type_set_text;
mod version;
mod whole_text;

pub use fitting::fits;
pub use table_list::{AFTER_COUNT, LIST_END, TableList};
pub use version::Version;
pub use whole_text::{table_text, write_tables};
