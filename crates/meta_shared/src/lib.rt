//! The shared instruction set: kinds of operands, formats, settings, root variables, and 163 instructions.
//!
//! The declarations stand in tables, which a small interpreter reads. A row says in words what an instruction is, and the words are looked
//! up in `Names`.
#![tactic(auto)]

mod core_tables;
mod declaring;
mod definition;
mod entities;
mod format;
mod formats;
mod immediates;
mod instructions;
mod kind;
mod kind_rows;
mod names;
mod ops_tables;
mod root;
mod root_rows;
mod roots;
mod row;
mod settings;
mod word;

pub use definition::define;

// Macros of tables name these.
use format::Format;
use kind::Kind;
use root::Root;
use row::{Mark, OperandRow, Row};
use word::Word;
