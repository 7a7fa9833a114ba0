//! Lines whose types are left out, such as `v1 = iadd v0, v0`, both ways.
//!
//! `print_line` writes a line with its types left out, and `read_line` reads it back: in one environment a text reads as at most one line, by
//! the tables and as the declarations mean (`one_line_reads`). `asm` writes whole lists, in the short form or in the explicit one, over
//! declarations.
#![tactic(auto)]

mod assembler;
mod form;
mod laws;
mod listing;
mod manner;
mod parts;
mod print;
mod push;
mod reader;
mod results;
mod short_laws;
mod words;
mod written;

pub use assembler::{ExplainedForm, asm};
pub use form::Form;
pub use laws::{explained_forms_are_forms, lists_are_written_back, one_form, one_output_of_a_form};
pub use manner::Manner;
pub use meta_run::Ending as AsmStatus;
pub use print::{print_line, push_line, push_short};
pub use reader::read_line;
pub use short_laws::{one_line_reads, one_short_form, printed_lines_read, short_forms_mean};
