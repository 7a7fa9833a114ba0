//! Answers what rows ask of declarations, of their tables and of single lines by calls of libraries: what the tables hold, what their parts
//! make, what the writers of texts do, and what lines and items mean. What this does is seen in the stored run of `rows`.
#![tactic(auto)]

mod groups;
mod items;
mod lines;
mod opcodes;
mod parts;
mod written;

use groups::ask_groups;
pub use items::ask_items;
pub use lines::ask_line;
use meta_gen::Tables;
use opcodes::ask_opcodes;
use parts::write_made;
use rows_base::{Answer, Case};
use std::alloc::Global;
pub use written::write_written;

/// Writes what a word asks of tables: `parts CHANGES` what their parts make after changes, and other words what they
/// hold.
pub fn ask_tables(alloc: Global, tables: &Tables, word: &str, case: &mut Case<'_>) -> Answer {
    if word == "parts" {
        return write_made(alloc, tables, case);
    }
    if ask_opcodes(alloc, tables, word, case)? {
        return Ok(());
    }
    ask_groups(alloc, tables, word, case)
}
