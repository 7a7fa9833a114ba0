//! What the crates of rows share: the words of their lines, the answers that they write, bytes that are written with escapes, texts of
//! files, sources and sinks that fail, a text that lines edit, and why a line has no answer. The stored run of `rows` shows what these
//! do.
//!
//! `add_answers` answers lines on value types, derived functions, names and texts, and on hashes, slots, lookups, interning and overlapping
//! lists.
#![tactic(auto)]

mod case;
mod escapes;
mod files;
mod lists;
mod lookups;
mod outside;
mod session;
mod texts;
mod trouble;
mod types;
mod words;

pub use case::{Answering, Case, answer_lines};
pub use escapes::{decoded, edited, write_bytes};
pub use files::add_held;
pub use outside::{Outside, write_ended};
use session::Session;
use std::alloc::{AllocError, Global};
pub use trouble::{Answer, Trouble};
pub use words::{
    found, function_named, hash_of, named, number, numbers_of, pair_of, texts_of, texts_of_words,
    type_of,
};

/// Adds the answers to the lines.
pub fn add_answers(alloc: Global, lines: &str, answers: &mut String) -> Result<(), AllocError> {
    let mut session = Session::new(alloc);
    answer_lines(&mut session, lines, answers)
}
