//! The reader of the text of tables.
//!
//! `read_tables` answers the tables that have this text in a version that they fit, and refuses every other text. First it reads without
//! checking: it takes counts, numbers and names where they stand in the text of tables, skips all else by its length or by its lines, and
//! doesn't look at slots and comments. Then it makes tables of what was read, which tests that they are well-formed, makes their text
//! again, and compares.
#![tactic(auto)]

mod constraints;
mod cursor;
mod entries;
mod group_items;
mod group_lists;
mod groups;
mod item;
mod laws;
mod opcode_parts;
mod reading;

pub use laws::{a_text_reads_as_one, a_text_tells_its_tables};
pub use reading::{TextError, read_tables, refused};
