ghost use Rattle.std.specs.Prelude.{◌≡◌, ◌≢◌, ℕ, ◌<◌, ◌≤◌, length, take, None};
ghost use Rattle.std.specs.Io.KnownBytes.{Consumes, IsAtEnd, Keeps};
ghost use Rattle.meta_text.specs.Adapters.{reader_of, read_faults};
ghost use Rattle.meta_text.specs.Outside.{Rose};
ghost use Rattle.meta_text.specs.Outcomes.{IfGot, OnEnd, OnReadFailed, KeepsRest, faults_after_read};

use crate::outside::{ReadOutcome, Source};
use std::io::Read;

// The most bytes that a reader is asked for at a time.
const BLOCK: usize = 8_192;

/// A source over any reader, such as the standard input. Contracts don't see the bytes that it has left.
#[derive(Drop)]
pub struct StdSource<R> {
    inner: R,
    faults: u64,
}

impl<R: Read> StdSource<R> {
    /// Makes a source over this reader, with no fault counted.
    pub fn new(inner: R) -> Self
        ensures reader { reader_of result ≡ inner }
        ensures count { read_faults result ≡ 0 }
    {
        StdSource { inner, faults: 0 }
    }
}

impl<R: Read> Source for StdSource<R> {
    ghost left = { λ _. None };

    ghost faults = { read_faults };

    /// Reads once, at most 8,192 bytes. An `Err` of the reader is a fault, which raises the count by one, until the count is 2^64 - 1.
    ///
    /// A reader may write past the bytes that it gives. So it gets a block of this call's own, and what it gave is copied.
    fn read(&mut self, buf: &mut [u8]) -> ReadOutcome
        requires { 0 < length buf.old }

        // What the reader gave, if contracts see the bytes that it has left.
        ensures got { IfGot result (λ n. Consumes (R.remaining (reader_of self.old)) (R.remaining (reader_of self.new)) (take n buf.new)) }
        ensures end { OnEnd result (IsAtEnd (R.remaining (reader_of self.new))) }
        ensures failed { OnReadFailed result (Keeps (R.remaining (reader_of self.old)) (R.remaining (reader_of self.new))) }
        ensures count { read_faults self.new ≡ faults_after_read (read_faults self.old) result }

        // What each source promises.
        ensures in_range { IfGot result (λ n. (1 ≤ n) × (n ≤ length buf.new)) }
        ensures rest { KeepsRest result buf.old buf.new }
        ensures fault { OnReadFailed result (Rose (read_faults self.old) (read_faults self.new)) }
        ensures else_no_fault { result ≢ ReadOutcome.Failed → read_faults self.new ≡ read_faults self.old }
        ensures counted { read_faults self.old ≤ read_faults self.new }
    {
        let mut block = [0; BLOCK];
        let most = buf.len().min(BLOCK);
        match self.inner.read(&mut block[..most]) {
            Ok(0) => ReadOutcome::End,
            Ok(count) => {
                buf[..count].copy_from_slice(&block[..count]);
                ReadOutcome::Got(count)
            }
            Err(_) => {
                self.faults = self.faults.saturating_add(1);
                ReadOutcome::Failed
            }
        }
    }
}
