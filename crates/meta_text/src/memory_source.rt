ghost use Rattle.std.specs.Prelude.{◌≡◌, ◌≢◌, ℕ, ◌<◌, ◌≤◌, ◌↔◌, [], length, take, Some, IsTrue};
ghost use Rattle.meta_text.specs.Outside.{Rose, with_front, NothingLeft};
ghost use Rattle.meta_text.specs.Outcomes.{IfGot, OnEnd, OnReadFailed, KeepsRest};
ghost use Rattle.meta_text.specs.InMemory.{SourceState, is_listed, given_count, after_read};

use crate::calls::is_listed;
use crate::outside::{ReadOutcome, Source};
use std::marker::Model;

/// A source of given bytes. A call gives at most a chosen count of them, and chosen calls fail.
#[derive(Debug, Drop)]
pub struct MemorySource {
    bytes: Vec<u8>,
    at: usize,
    step: usize,
    fails: Vec<u64>,
    calls: u64,
    faults: u64,
}

impl Model for MemorySource {
    ghost use Rattle.std.specs.Prelude.{◌≤◌, drop, length};
    ghost use Rattle.meta_text.specs.InMemory.{SourceState};

    ghost Value = { SourceState };

    ghost view = { λ s. record {
      left = drop s.at s.bytes.items;
      step = s.step;
      fails = s.fails.items;
      calls = s.calls;
      faults = s.faults;
    } };

    ghost invariant = { λ s. (s.at ≤ length s.bytes.items) × (1 ≤ s.step) };
}

impl MemorySource {
    /// Makes a source of these bytes, which gives at most `step` of them a call. A call fails if its number, from 1, is in `fails`. The
    /// number of a call stays at 2^64 - 1 once it is there.
    pub fn new(bytes: Vec<u8>, step: usize, fails: Vec<u64>) -> Self
        requires { 1 ≤ step }
        ensures { result ≡ record { left = bytes.items; step = step; fails = fails.items; calls = 0; faults = 0 } }
    {
        MemorySource {
            bytes,
            at: 0,
            step,
            fails,
            calls: 0,
            faults: 0,
        }
    }
}

impl Source for MemorySource {
    ghost left = { λ s. Some s.left };

    ghost faults = { λ s. s.faults };

    /// Gives as many bytes as the step, the buffer and the bytes left allow. It fails if the call is listed, and only then.
    fn read(&mut self, buf: &mut [u8]) -> ReadOutcome
        requires { 0 < length buf.old }
        ensures failed { (result ≡ ReadOutcome.Failed) ↔ IsTrue (is_listed self.old.calls self.old.fails) }
        ensures count { IfGot result (λ n. n ≡ given_count self.old (length buf.old)) }
        ensures bytes { IfGot result (λ n. take n buf.new ≡ take n self.old.left) }
        ensures state { self.new ≡ after_read self.old result }

        // What each source promises.
        ensures in_range { IfGot result (λ n. (1 ≤ n) × (n ≤ length buf.new)) }
        ensures got { IfGot result (λ n. Some self.old.left ≡ with_front (take n buf.new) (Some self.new.left)) }
        ensures rest { KeepsRest result buf.old buf.new }
        ensures end { OnEnd result (NothingLeft (Some self.old.left)) }
        ensures end_keeps { OnEnd result (Some self.new.left ≡ Some self.old.left) }
        ensures failed_keeps { OnReadFailed result (Some self.new.left ≡ Some self.old.left) }
        ensures fault { OnReadFailed result (Rose self.old.faults self.new.faults) }
        ensures else_no_fault { result ≢ ReadOutcome.Failed → self.new.faults ≡ self.old.faults }
        ensures counted { self.old.faults ≤ self.new.faults }
    {
        let listed = is_listed(self.fails.as_slice(), self.calls);
        self.calls = self.calls.saturating_add(1);
        if listed {
            self.faults = self.faults.saturating_add(1);
            return ReadOutcome::Failed;
        }
        let left = self.bytes.as_slice().split_at(self.at).1;
        if left.is_empty() {
            return ReadOutcome::End;
        }
        let count = self.step.min(buf.len()).min(left.len());
        buf[..count].copy_from_slice(left.split_at(count).0);
        self.at += count;
        ReadOutcome::Got(count)
    }
}
