//! A service of settings: the values of the settings of a group, by their names.
//!
//! `Flags` has the values of a group of tables, from their defaults on. It sets and gets a value by the name of its setting, turns on what
//! a preset turns on, and writes all values as TOML. `flags` answers the lines of an input by the first group of declarations.
#![tactic(auto)]

mod answering;
mod flag_error;
mod flag_value;
mod held;
mod laws;
mod of_tables;
mod request;
mod serving;
mod toml;
mod values;

pub use flag_error::FlagError;
pub use flag_value::FlagValue;
pub use held::Flags;
pub use laws::{one_flags_output, tables_serve_what_is_declared};
pub use meta_run::Ending as FlagStatus;
pub use serving::{Service, flags};
