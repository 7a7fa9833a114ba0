//! Where bytes come from and where they go: sources and sinks with a count of their faults, the
//! two calls that read a whole input and write a whole output, and a writer of lines. Also what the texts of Rust source share: templates,
//! which have holes for what differs, and how `fill` fills them.
#![tactic(auto)]

mod calls;
mod ends;
mod line_writer;
mod memory_sink;
mod memory_source;
mod never_fails;
mod outside;
mod pushed;
mod std_sink;
mod std_source;
mod template;
mod whole;

pub use ends::{push_gap, push_item_end};
pub use line_writer::LineWriter;
pub use memory_sink::MemorySink;
pub use memory_source::MemorySource;
pub use never_fails::NeverFails;
pub use outside::{ReadOutcome, Sink, Source, WriteOutcome};
pub use pushed::push_text;
pub use std_sink::StdSink;
pub use std_source::StdSource;
pub use template::fill;
pub use whole::{READ_LIMIT, ReadError, WriteError, read_whole, write_whole};
