//! Declarations as a file of declarations: the items that describe what is built of them.
//!
//! `describe` makes items in one form, declares them, and answers them if what they declare has the same tables and the same texts of Rust
//! source. `write_description` does so with their text, which it reads first.
#![tactic(auto)]

mod checking;
mod describing;
mod formats;
mod insts;
mod kinds;
mod roots;
mod sets;
mod settings;
mod texts;
mod unsaid;
mod words;

pub use checking::is_described;
pub use describing::{describe, is_description, write_description};
