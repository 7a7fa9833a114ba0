ghost use Rattle.std.specs.Prelude.{◌≡◌, ℕ, ◌<◌, ◌≤◌, length, take, None};
ghost use Rattle.std.specs.Io.KnownBytes.{Appends};
ghost use Rattle.meta_text.specs.Adapters.{writer_of, write_faults};
ghost use Rattle.meta_text.specs.Outside.{Rose};
ghost use Rattle.meta_text.specs.Outcomes.{IfWrote, OnWriteFailed, faults_after_write};

use crate::outside::{Sink, WriteOutcome};
use std::io::Write;

/// A sink over any writer, such as the standard output. Contracts don't see the bytes that it took.
#[derive(Drop)]
pub struct StdSink<W> {
    inner: W,
    faults: u64,
}

impl<W: Write> StdSink<W> {
    /// Makes a sink over this writer, with no fault counted.
    pub fn new(inner: W) -> Self
        ensures writer { writer_of result ≡ inner }
        ensures count { write_faults result ≡ 0 }
    {
        StdSink { inner, faults: 0 }
    }
}

impl<W: Write> Sink for StdSink<W> {
    ghost taken = { λ _. None };

    ghost faults = { write_faults };

    /// Writes once, and flushes. An `Err` of the write or of the flush is a fault, and so is a write that takes nothing. A fault raises the
    /// count by one, until the count is 2^64 - 1.
    fn write(&mut self, bytes: &[u8]) -> WriteOutcome
        requires { 0 < length bytes.now }

        // What the writer took, if contracts see the bytes that it holds.
        ensures wrote { IfWrote result (λ n. Appends (W.contents (writer_of self.old))
            (W.contents (writer_of self.new)) (take n bytes.now)) }
        ensures count { write_faults self.new ≡ faults_after_write (write_faults self.old) result }

        // What each sink promises.
        ensures in_range { IfWrote result (λ n. (1 ≤ n) × (n ≤ length bytes.now)) }
        ensures fault { OnWriteFailed result (Rose (write_faults self.old) (write_faults self.new)) }
        ensures counted { write_faults self.old ≤ write_faults self.new }
    {
        if let Ok(count) = self.inner.write(bytes) {
            if count > 0 && self.inner.flush().is_ok() {
                return WriteOutcome::Wrote(count);
            }
        }
        self.faults = self.faults.saturating_add(1);
        WriteOutcome::Failed
    }
}
