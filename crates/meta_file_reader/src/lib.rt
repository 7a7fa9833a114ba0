//! The reader of the text of a file of declarations, which answers its items.
#![tactic(auto)]

mod fault;
mod formats;
mod insts;
mod items;
mod kinds;
mod laws;
mod lists;
mod parts;
mod reading;
mod reason;
mod settings;
mod types;

pub use fault::{Fault, ReadError, Refusal, Wanted};
pub use laws::{
    lines_are_read_alone, one_list_of_items, one_refused_place, what_is_read,
    what_is_read_can_be_written, what_is_written_is_read,
};
pub use reading::{ReadItems, read_items};
pub use reason::write_back_quoted;
