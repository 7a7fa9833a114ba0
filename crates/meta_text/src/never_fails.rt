ghost use Rattle.std.specs.Prelude.{◌≡◌, ◌≢◌, ℕ, ◌<◌, ◌≤◌, length, take, drop, min, None, Some};
ghost use Rattle.meta_text.specs.Outside.{with_front, NothingLeft};
ghost use Rattle.meta_text.specs.Outcomes.{IfGot, OnEnd, KeepsRest};

use crate::outside::{ReadOutcome, Sink, Source, WriteOutcome};
use std::marker::Model;

/// A source of given bytes that is also a sink, which drops what it takes. It never fails. It takes no memory, and its count of faults
/// stays at 0. A contract sees the bytes that are left to read.
#[derive(Debug, Drop)]
pub struct NeverFails {
    bytes: Vec<u8>,
    at: usize,
}

impl Model for NeverFails {
    ghost use Rattle.std.specs.Prelude.{◌≤◌, ℕ, List, drop, length};

    ghost Value = { List ℕ };

    ghost view = { λ s. drop s.at s.bytes.items };

    ghost invariant = { λ s. s.at ≤ length s.bytes.items };
}

impl NeverFails {
    /// Makes a source of these bytes, which is a sink too.
    pub fn new(bytes: Vec<u8>) -> Self
        ensures { result ≡ bytes.items }
    {
        NeverFails { bytes, at: 0 }
    }
}

impl Source for NeverFails {
    ghost left = { λ s. Some s };

    ghost faults = { λ _. 0 };

    /// Gives as many bytes as the buffer and the bytes left allow.
    fn read(&mut self, buf: &mut [u8]) -> ReadOutcome
        requires { 0 < length buf.old }
        ensures never_failed { result ≢ ReadOutcome.Failed }
        ensures count { IfGot result (λ n. n ≡ min (length buf.old) (length self.old)) }
        ensures bytes { IfGot result (λ n. take n buf.new ≡ take n self.old) }
        ensures state { IfGot result (λ n. self.new ≡ drop n self.old) }

        // What each source promises.
        ensures in_range { IfGot result (λ n. (1 ≤ n) × (n ≤ length buf.new)) }
        ensures got { IfGot result (λ n. Some self.old ≡ with_front (take n buf.new) (Some self.new)) }
        ensures rest { KeepsRest result buf.old buf.new }
        ensures end { OnEnd result (NothingLeft (Some self.old)) }
        ensures end_keeps { OnEnd result (Some self.new ≡ Some self.old) }
    {
        let left = self.bytes.as_slice().split_at(self.at).1;
        if left.is_empty() {
            return ReadOutcome::End;
        }
        let count = buf.len().min(left.len());
        buf[..count].copy_from_slice(left.split_at(count).0);
        self.at += count;
        ReadOutcome::Got(count)
    }
}

impl Sink for NeverFails {
    ghost taken = { λ _. None };

    ghost faults = { λ _. 0 };

    /// Takes all of the bytes, and drops them.
    fn write(&mut self, bytes: &[u8]) -> WriteOutcome
        requires { 0 < length bytes.now }
        ensures all { result ≡ WriteOutcome.Wrote (length bytes.now) }
        ensures kept { self.new ≡ self.old }
    {
        WriteOutcome::Wrote(bytes.len())
    }
}
