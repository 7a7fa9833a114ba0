//! What each program over declarations does as a process: its words, `--help` and `--version`, the line on standard error, and the exit
//! status.
//!
//! A program is a `Manual`, which is what it says of itself, and an `impl Program`, which is what it does with its words. Its `main` is a
//! call of `start`.
#![tactic(auto)]

mod asked;
mod manual;
mod misuse;
mod program;
mod telling;
mod usage;

pub use asked::Asked;
pub use manual::{CommandForm, Manual, Range};
pub use misuse::{Misuse, never_both};
pub use program::{
    Program, answer_of_itself, print_help, print_version, start, tell, tell_line, tell_wrong, words,
};
pub use telling::about;
pub use usage::{escaped, usage_line};
