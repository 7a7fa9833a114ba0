ghost use Rattle.std.specs.Prelude.{◌≡◌, ℕ, ◌≤◌, [], length, IfOk, OnOk, OnErr, IfErr, IsErrOf};
ghost use Rattle.meta_text.specs.Outside.{Rose, with_front, with_more, NothingLeft, longest_input, GaveMore, GaveAtMost, TookPart};

use crate::outside::{ReadOutcome, Sink, Source, WriteOutcome};
use std::alloc::Global;
use thiserror::Error;

/// The most bytes that `read_whole` accepts.
pub const READ_LIMIT: usize = 1_048_576;

// How many bytes `read_whole` asks for at a time.
const BLOCK: usize = 8_192;

/// Why a whole input was not read.
#[derive(Clone, Copy, Debug, Drop, PartialEq, Eq, Error)]
pub enum ReadError {
    /// A read of the source failed.
    #[error("ReadFault")]
    ReadFault,
    /// The source gave more than `READ_LIMIT` bytes.
    #[error("TooLong")]
    TooLong,
    /// Memory ran out.
    #[error("OutOfMemory")]
    OutOfMemory,
}

/// Why a whole output was not written.
#[derive(Clone, Copy, Debug, Drop, PartialEq, Eq, Error)]
pub enum WriteError {
    /// A write to the sink failed.
    #[error("WriteFault")]
    WriteFault,
    /// Memory ran out for what was to be written.
    #[error("OutOfMemory")]
    OutOfMemory,
}

/// Reads all bytes that the source has left, up to its end.
///
/// The error is `ReadFault` exactly if a read failed, and `TooLong` exactly if the source gave more than `READ_LIMIT` bytes in this call.
/// After an error, a front of the bytes was read.
#[tactic(auto, using(crate::proofs::Given::gave_none, crate::proofs::Given::gave_both))]
pub fn read_whole<S: Source>(alloc: Global, source: &mut S) -> Result<Vec<u8>, ReadError>
    // On `Ok` the answer is what the source gave, up to its end.
    ensures ok { IfOk result (λ bytes. S.left source.old ≡ with_front bytes.items (S.left source.new)) }
    ensures end { OnOk result (NothingLeft (S.left source.new)) }
    ensures within { IfOk result (λ bytes. length bytes.items ≤ longest_input) }

    // `TooLong` comes exactly if more than the limit was given.
    ensures too_long { IsErrOf result ReadError.TooLong → GaveMore longest_input (S.left source.old) (S.left source.new) }
    ensures else_within { ¬ IsErrOf result ReadError.TooLong → GaveAtMost longest_input (S.left source.old) (S.left source.new) }

    // `ReadFault` comes exactly if a read failed.
    ensures fault { IsErrOf result ReadError.ReadFault → Rose (S.faults source.old) (S.faults source.new) }
    ensures else_no_fault { ¬ IsErrOf result ReadError.ReadFault → S.faults source.new ≡ S.faults source.old }
    ensures counted { S.faults source.old ≤ S.faults source.new }
{
    let mut all = Vec::new(alloc);
    let mut block = [0; BLOCK];
    loop {
        match source.read(&mut block) {
            ReadOutcome::Got(count) => {
                if count > READ_LIMIT - all.len() {
                    return Err(ReadError::TooLong);
                }
                match all.extend_from_slice(&block[..count]) {
                    Ok(()) => {}
                    Err(_) => return Err(ReadError::OutOfMemory),
                }
            }
            ReadOutcome::End => return Ok(all),
            ReadOutcome::Failed => return Err(ReadError::ReadFault),
        }
    }
}

/// Writes all bytes to the sink, and takes no memory.
///
/// The only error is `WriteFault`, which comes only where a write failed. The sink has then taken a front of the bytes, and not all of
/// them. If there are no bytes, nothing is written.
#[tactic(auto, using(crate::proofs::Taken::took_start, crate::proofs::Taken::took_next, crate::proofs::Taken::took_all, crate::proofs::Taken::took_part))]
pub fn write_whole<K: Sink>(sink: &mut K, bytes: &[u8]) -> Result<(), WriteError>
    ensures ok { OnOk result (K.taken sink.new ≡ with_more (K.taken sink.old) bytes.now) }
    ensures err { OnErr result (TookPart bytes.now (K.taken sink.old) (K.taken sink.new)) }
    ensures only { IfErr result (λ error. error ≡ WriteError.WriteFault) }
    ensures fault { OnErr result (Rose (K.faults sink.old) (K.faults sink.new)) }
    ensures counted { K.faults sink.old ≤ K.faults sink.new }
    ensures no_bytes { bytes.now ≡ [] → sink.new ≡ sink.old }
{
    let mut rest = bytes;
    while !rest.is_empty() {
        match sink.write(rest) {
            WriteOutcome::Wrote(count) => rest = rest.split_at(count).1,
            WriteOutcome::Failed => return Err(WriteError::WriteFault),
        }
    }
    Ok(())
}
