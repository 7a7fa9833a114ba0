ghost use Rattle.meta_rust_text.specs.BuilderText.{builder_text};
ghost use Rattle.meta_rust_text.specs.Written.{WritesMade};

use super::builder_items::builder_text;
use super::written::write_made;
use meta_build::Built;
use meta_text::{Sink, WriteError};
use std::alloc::Global;

/// Writes the text of the builder of instructions to the sink, as `builder_text` makes it. The crate's `gen_builder` of `gen_inst.rs`
/// writes it too.
///
/// `OutOfMemory` comes before anything is written. `WriteFault` comes only where a write failed; the sink has then taken a front of the
/// text.
pub fn write_builder<K: Sink>(
    alloc: Global,
    built: &Built<'_>,
    sink: &mut K,
) -> Result<(), WriteError>
    ensures { WritesMade K.taken K.faults (builder_text built.now) result sink.old sink.new }
{
    write_made(builder_text(alloc, built), sink)
}
