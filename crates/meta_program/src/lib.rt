//! The commands of all programs over one set of declarations, and over those that a file makes; and what the words of the program
//! `ciderlater` ask for, with what it says of them and of how a run ended.
//!
//! `Plan::of` says what is to be done, or what is wrong with the words. `Tool::parse` says which command words are, and `run_words` runs it
//! over declarations. `run_file` reads a file of declarations first, and if the file is wrong, says in which line. `check_file` counts what a
//! file declares, and makes a message for each name in it that rustc wouldn't compile in the texts of Rust.
#![tactic(auto)]

mod file_run;
mod laws;
mod loading;
mod paths;
mod plan;
mod told;
mod tool;
mod tool_list;
mod written;
mod wrong;

pub use file_run::{Checked, FileEnding, FileTrouble, check_file, run_file, run_tool};
pub use laws::{
    a_text_declares_one_thing, names_have_their_items, one_check_line, one_over, one_plan,
    one_text_of_a_version, one_tool, one_wrong,
};
pub use loading::{LoadError, load};
pub use paths::shown_path;
pub use plan::{Names, Over, Plan, is_check, is_end, is_input, is_option, is_rust, path_in};
pub use told::names_told;
pub use tool::{Tool, Why, about, is_asm, is_why, run_check, run_words};
pub use tool_list::{COMMANDS, listed_tools};
pub use wrong::{Wrong, wrong_line};
