ghost use Rattle.std.specs.Prelude.{◌≡◌, ◌↔◌, ◌≤◌, IfOk, IsTrue};
ghost use Rattle.meta_types.specs.declared.fault.DefinitionError.{DefinitionError};
ghost use Rattle.meta_run.specs.Run.{refusal, Refuses};

use super::ending::Ending;
use meta_text::{Sink, write_whole};
use meta_types::DefinitionError;
use std::alloc::{AllocError, Global};

fn refusal(alloc: Global, fault: &DefinitionError) -> Result<Vec<u8>, AllocError>
    ensures { IfOk result (λ v. v.items ≡ refusal fault.now) }
{
    let line = fault.line(alloc)?;
    let mut out = Vec::new(alloc);
    out.extend_from_slice(b"refused: ")?;
    out.extend_from_slice(line.as_bytes())?;
    out.push(b'\n')?;
    Ok(out)
}

fn is_out_of_memory(fault: &DefinitionError) -> bool
    ensures { IsTrue result ↔ (fault.now ≡ DefinitionError.OutOfMemory) }
{
    matches!(fault, DefinitionError::OutOfMemory)
}

/// Writes the line that refuses declarations by this fault, if it is one of theirs.
pub(crate) fn refuse<K: Sink>(alloc: Global, fault: &DefinitionError, sink: &mut K) -> Ending
    ensures refuses { Refuses K.taken K.faults fault.now sink.old sink.new result }
    ensures counted { K.faults sink.old ≤ K.faults sink.new }
{
    if is_out_of_memory(fault) {
        return Ending::OutOfMemory;
    }
    let Ok(line) = refusal(alloc, fault) else {
        return Ending::OutOfMemory;
    };
    match write_whole(sink, &line) {
        Ok(()) => Ending::Refused,
        Err(_) => Ending::WriteFault,
    }
}
