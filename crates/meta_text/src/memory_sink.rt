ghost use Rattle.std.specs.Prelude.{◌≡◌, ℕ, ◌+◌, ◌<◌, ◌≤◌, ◌↔◌, ◌++◌, ◌==◌, ◌||◌, [], length, take, Some, IfOk, IsTrue};
ghost use Rattle.std.specs.Prelude.{vec_len, vec_capacity};
ghost use Rattle.meta_text.specs.Outside.{Rose, with_more};
ghost use Rattle.meta_text.specs.Outcomes.{IfWrote, OnWriteFailed};
ghost use Rattle.meta_text.specs.InMemory.{SinkState, is_listed, refuses_next, taken_count, after_write};

use crate::calls::is_listed;
use crate::outside::{Sink, WriteOutcome};
use std::alloc::{AllocError, Global};
use std::marker::Model;

/// A sink that keeps what it takes, up to its room. A call takes at most a chosen count of bytes, and chosen calls fail.
#[derive(Debug, Drop)]
pub struct MemorySink {
    bytes: Vec<u8>,
    room: usize,
    step: usize,
    fails: Vec<u64>,
    calls: u64,
    faults: u64,
}

impl Model for MemorySink {
    ghost use Rattle.std.specs.Prelude.{◌≤◌, length, vec_capacity};
    ghost use Rattle.meta_text.specs.InMemory.{SinkState};

    ghost Value = { SinkState };

    ghost view = { λ s. record {
      taken = s.bytes.items;
      room = s.room;
      step = s.step;
      fails = s.fails.items;
      calls = s.calls;
      faults = s.faults;
    } };

    ghost invariant = { λ s. (length s.bytes.items ≤ s.room) × (s.room ≤ vec_capacity s.bytes) × (1 ≤ s.step) };
}

impl MemorySink {
    /// Makes an empty sink with room for exactly `room` bytes, which takes at most `step` of them a call. A call fails if its number, from
    /// 1, is in `fails`. The number of a call stays at 2^64 - 1 once it is there.
    pub fn new(alloc: Global, room: usize, step: usize, fails: Vec<u64>) -> Result<Self, AllocError>
        requires { 1 ≤ step }
        ensures { IfOk result (λ sink.
            sink ≡ record { taken = []; room = room; step = step; fails = fails.items; calls = 0; faults = 0 }) }
    {
        Ok(MemorySink {
            bytes: Vec::with_capacity(alloc, room)?,
            room,
            step,
            fails,
            calls: 0,
            faults: 0,
        })
    }

    /// The bytes that the sink took.
    pub fn bytes(&self) -> &[u8]
        ensures { result.now ≡ self.now.taken }
    {
        self.bytes.as_slice()
    }
}

impl Sink for MemorySink {
    ghost taken = { λ s. Some s.taken };

    ghost faults = { λ s. s.faults };

    /// Takes as many bytes as the step and the free room allow. It fails if the call is listed or no room is free, and only then. It takes
    /// no memory.
    fn write(&mut self, bytes: &[u8]) -> WriteOutcome
        requires { 0 < length bytes.now }
        ensures failed { (result ≡ WriteOutcome.Failed) ↔ IsTrue (refuses_next self.old) }
        ensures count { IfWrote result (λ n. n ≡ taken_count self.old (length bytes.now)) }
        ensures state { self.new ≡ after_write self.old bytes.now result }

        // What each sink promises.
        ensures in_range { IfWrote result (λ n. (1 ≤ n) × (n ≤ length bytes.now)) }
        ensures wrote { IfWrote result (λ n. Some self.new.taken ≡ with_more (Some self.old.taken) (take n bytes.now)) }
        ensures failed_keeps { OnWriteFailed result (Some self.new.taken ≡ Some self.old.taken) }
        ensures fault { OnWriteFailed result (Rose self.old.faults self.new.faults) }
        ensures counted { self.old.faults ≤ self.new.faults }
    {
        let free = self.room - self.bytes.len();
        let refused = is_refused(free, self.fails.as_slice(), self.calls);
        self.calls = self.calls.saturating_add(1);
        if refused {
            self.faults = self.faults.saturating_add(1);
            return WriteOutcome::Failed;
        }
        let count = self.step.min(bytes.len()).min(free);
        append(&mut self.bytes, bytes.split_at(count).0);
        WriteOutcome::Wrote(count)
    }
}

// Whether the write after `calls` calls fails, if `free` bytes of room are free.
fn is_refused(free: usize, fails: &[u64], calls: u64) -> bool
    ensures { result ≡ (free == 0 || is_listed calls fails.now) }
{
    free == 0 || is_listed(fails, calls)
}

// Appends bytes for which there is room.
fn append(bytes: &mut Vec<u8>, more: &[u8])
    requires { vec_len bytes.old + length more.now ≤ vec_capacity bytes.old }
    ensures items { bytes.new.items ≡ bytes.old.items ++ more.now }
    ensures capacity { vec_capacity bytes.old ≤ vec_capacity bytes.new }
{
    bytes.extend_from_slice(more).unwrap();
}
