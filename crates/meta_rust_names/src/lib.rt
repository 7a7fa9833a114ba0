//! The names of valid declarations with which the texts of Rust don't compile, and why: what the words, comments and types of Rust are.
#![tactic(auto)]

mod all;
mod comments;
mod fields;
mod formats;
mod groups;
mod inputs;
mod instructions;
mod methods;
mod names;
mod refused;
mod texts;
mod variants;
mod words;

pub use all::refused_names;
pub use names::Names;
pub use refused::{Part, RefusedName, Why};
