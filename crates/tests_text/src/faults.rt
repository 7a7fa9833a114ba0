ghost use Rattle.meta_text.specs.Outside.{Rose};
ghost use Rattle.std.specs.Prelude.{◌≤◌, ◌≡◌, ℕ, ◌++◌, List, length, Some, OnOk, IsOkUnless};

use super::expect::expect;
use meta_text::{
    MemorySink, MemorySource, ReadError, Sink, Source, WriteError, read_whole, write_whole,
};
use std::alloc::{AllocError, Global};
use std::test::Fail;

// 39 bytes.
const TEXT: &[u8] = b"accept iadd i32 i32 i32,i32\nsetting a\n\n";

/// How many of the bytes are read or written in this many calls that don't fail.
fn bytes_in(calls: usize, step: usize) -> usize
    ensures { result ≤ 39 }
{
    calls.saturating_mul(step).min(39)
}

/// Whether a read by this step, in which the call of this number fails, and then a read of what is left, are as wanted. No call has the
/// number 0.
fn reads_twice(alloc: Global, step: usize, fail: usize, calls: usize) -> Result<bool, AllocError> {
    let fails = vec![in alloc; fail as u64]?;
    let mut source = MemorySource::new(TEXT.to_vec(alloc)?, step.max(1), fails);
    let mut rest = TEXT;
    if fail > 0 && fail <= calls {
        if !matches!(read_whole(alloc, &mut source), Err(ReadError::ReadFault)) {
            return Ok(false);
        }
        rest = TEXT.split_at(bytes_in(fail - 1, step)).1;
    }
    match read_whole(alloc, &mut source) {
        Ok(bytes) => Ok(bytes.as_slice() == rest),
        Err(_) => Ok(false),
    }
}

#[test]
fn each_read_fails_in_turn(rt: HostRuntime) -> Result<(), Fail> {
    for step in 1..17usize {
        let calls = TEXT.len().div_ceil(step) + 1;
        for fail in 0..calls + 2 {
            let is_wanted = reads_twice(rt.alloc(), step, fail, calls)?;
            expect(&rt, is_wanted, (step, fail));
        }
    }
    Ok(())
}

/// Whether a write by this step, in which the call of this number fails, is as wanted. No call has the number 0.
fn writes_once(alloc: Global, step: usize, fail: usize, calls: usize) -> Result<bool, AllocError> {
    let fails = vec![in alloc; fail as u64]?;
    let mut sink = MemorySink::new(alloc, TEXT.len(), step.max(1), fails)?;
    let mut answer = Ok(());
    let mut taken = TEXT;
    if fail > 0 && fail <= calls {
        answer = Err(WriteError::WriteFault);
        taken = TEXT.split_at(bytes_in(fail - 1, step)).0;
    }
    Ok(write_whole(&mut sink, TEXT) == answer && sink.bytes() == taken)
}

#[test]
fn each_write_fails_in_turn(rt: HostRuntime) -> Result<(), Fail> {
    for step in 1..17usize {
        let calls = TEXT.len().div_ceil(step);
        for fail in 0..calls + 2 {
            let is_wanted = writes_once(rt.alloc(), step, fail, calls)?;
            expect(&rt, is_wanted, (step, fail));
        }
    }
    Ok(())
}

/// What is written into the room of seven bytes, what the answer is, and what was taken then. The second call fails.
const WRITES: [(&str, Result<(), WriteError>, &str); 4] = [
    ("accept\n", Err(WriteError::WriteFault), "acce"),
    ("", Ok(()), "acce"),
    ("pts", Ok(()), "accepts"),
    ("\n", Err(WriteError::WriteFault), "accepts"),
];

#[test]
fn writes_what_there_is_room_for(rt: HostRuntime) -> Result<(), Fail> {
    let mut sink = MemorySink::new(rt.alloc(), 7, 4, vec![in rt.alloc(); 2]?)?;
    for (text, answer, taken) in WRITES {
        let is_wanted = write_whole(&mut sink, text.as_bytes()) == answer;
        let is_taken = sink.bytes() == taken.as_bytes();
        expect(&rt, is_wanted && is_taken, (text.len(), taken.len()));
    }
    Ok(())
}

/// How many bytes there are, how many of them come at a time, and whether that is within the limit.
const INPUTS: [(usize, usize, bool); 7] = [
    (0, 1, true),
    (1_048_576, 8_192, true),
    (1_048_576, 5_000, true),
    (1_048_576, 2_000_000, true),
    (1_048_577, 1, false),
    (1_048_577, 4_000_000, false),
    (3_000_000, 7_000, false),
];

#[test]
fn reads_to_the_limit(rt: HostRuntime) -> Result<(), Fail> {
    for (length, step, fits) in INPUTS {
        let bytes = vec![in rt.alloc(); b'\n'; length]?;
        let mut source = MemorySource::new(bytes, step.max(1), Vec::new(rt.alloc()));
        let is_wanted = match read_whole(rt.alloc(), &mut source) {
            Ok(bytes) => fits && bytes.len() == length && bytes.iter().all(|byte| *byte == b'\n'),
            Err(error) => !fits && error == ReadError::TooLong,
        };
        expect(&rt, is_wanted, (length, step));
    }
    Ok(())
}

#[derive(Drop)]
enum CopyError {
    Read(ReadError),
    Write(WriteError),
}

/// Copies a whole input. With a source and a sink whose bytes contracts see, and no fault, all is copied unless memory runs out.
fn copy<S: Source, K: Sink>(alloc: Global, source: &mut S, sink: &mut K) -> Result<(), CopyError>
    ensures copied { (input taken : List ℕ) → S.left source.old ≡ Some input → length input ≤ 1048576 →
        K.taken sink.old ≡ Some taken → ¬ Rose (S.faults source.old) (S.faults source.new) →
        ¬ Rose (K.faults sink.old) (K.faults sink.new) →
        IsOkUnless result (CopyError.Read ReadError.OutOfMemory) }
    ensures ok { OnOk result ((input taken : List ℕ) → S.left source.old ≡ Some input →
        K.taken sink.old ≡ Some taken → K.taken sink.new ≡ Some (taken ++ input)) }
{
    match read_whole(alloc, source) {
        Ok(bytes) => match write_whole(sink, bytes.as_slice()) {
            Ok(()) => Ok(()),
            Err(error) => Err(CopyError::Write(error)),
        },
        Err(error) => Err(CopyError::Read(error)),
    }
}

#[test]
fn copies_from_memory_to_memory(rt: HostRuntime) -> Result<(), Fail> {
    let text = b"accept iadd i32 i32 i32,i32\nsetting a\n\n".as_slice();
    let mut source = MemorySource::new(text.to_vec(rt.alloc())?, 3, Vec::new(rt.alloc()));
    let mut sink = MemorySink::new(rt.alloc(), 64, 5, Vec::new(rt.alloc()))?;
    let is_copied = copy(rt.alloc(), &mut source, &mut sink).is_ok();
    expect(&rt, is_copied && sink.bytes() == text, (3, 5));
    Ok(())
}

#[test]
fn errors_are_shown_by_their_names(rt: HostRuntime) -> Result<(), Fail> {
    let mut shown = String::new(rt.alloc());
    for error in [
        ReadError::ReadFault,
        ReadError::TooLong,
        ReadError::OutOfMemory,
    ] {
        write!(shown, "{error} ")?;
    }
    for error in [WriteError::WriteFault, WriteError::OutOfMemory] {
        write!(shown, "{error} ")?;
    }
    let names = "ReadFault TooLong OutOfMemory WriteFault OutOfMemory ";
    expect(&rt, shown.as_str() == names, (3, 2));
    Ok(())
}
