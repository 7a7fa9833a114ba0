ghost use Rattle.std.specs.Prelude.{◌≡◌, ℕ, List, IfOk, string_bytes};
ghost use Rattle.meta_rust_text.specs.Written.{WritesMade};

use meta_text::{Sink, WriteError, write_whole};
use std::alloc::AllocError;

/// Writes a text that was to be made, and nothing if memory ran out before it was made.
///
/// `WriteFault` comes only where a write failed; the sink has then taken a front of the text.
pub(crate) fn write_made<K: Sink>(
    made: Result<String, AllocError>,
    sink: &mut K,
) -> Result<(), WriteError>
    ensures { (text : List ℕ) → IfOk made (λ t. string_bytes t ≡ text) → WritesMade K.taken K.faults text result sink.old sink.new }
{
    match made {
        Ok(text) => write_whole(sink, text.as_bytes()),
        Err(_) => Err(WriteError::OutOfMemory),
    }
}
