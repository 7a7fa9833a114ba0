ghost use Rattle.std.specs.Prelude.{◌≡◌, ◌≢◌, ℕ, ◌<◌, ◌≤◌, List, length, take, Option};
ghost use Rattle.meta_text.specs.Outside.{Rose, with_front, with_more, NothingLeft};
ghost use Rattle.meta_text.specs.Outcomes.{IfGot, OnEnd, OnReadFailed, KeepsRest, IfWrote, OnWriteFailed};

/// What a read did.
#[derive(Clone, Copy, Debug, PartialEq, Eq)]
pub enum ReadOutcome {
    /// This many bytes, at least one, are now at the front of the buffer.
    Got(usize),
    /// No byte is left.
    End,
    /// Nothing was read, because of a fault, which the source counted.
    Failed,
}

/// What a write did.
#[derive(Clone, Copy, Debug, PartialEq, Eq)]
pub enum WriteOutcome {
    /// The sink took this many bytes, at least one, from the front.
    Wrote(usize),
    /// Nothing was taken, because of a fault, which the sink counted.
    Failed,
}

/// Where bytes come from.
///
/// A contract sees the bytes that are left, if the source is one whose bytes contracts see, such as one over memory. It also sees the
/// source's count of faults, which only a read that fails changes. Whether contracts see the bytes changes in no call.
pub trait Source {
    // The bytes that are left, or `None` if contracts don't see them.
    ghost left: { Self → Option (List ℕ) };

    // The count of faults, as far as the source counts them.
    ghost faults: { Self → ℕ };

    /// Reads the next bytes into the front of `buf`, which isn't empty, and leaves the rest of `buf` as it was.
    fn read(&mut self, buf: &mut [u8]) -> ReadOutcome
        requires { 0 < length buf.old }
        ensures in_range { IfGot result (λ n. (1 ≤ n) × (n ≤ length buf.new)) }
        ensures got { IfGot result (λ n. left self.old ≡ with_front (take n buf.new) (left self.new)) }
        ensures rest { KeepsRest result buf.old buf.new }
        ensures end { OnEnd result (NothingLeft (left self.old)) }
        ensures end_keeps { OnEnd result (left self.new ≡ left self.old) }
        ensures failed_keeps { OnReadFailed result (left self.new ≡ left self.old) }
        ensures fault { OnReadFailed result (Rose (faults self.old) (faults self.new)) }
        ensures else_no_fault { result ≢ ReadOutcome.Failed → faults self.new ≡ faults self.old }
        ensures counted { faults self.old ≤ faults self.new };
}

/// Where bytes go.
///
/// A contract sees the bytes that the sink took, if the sink is one whose bytes contracts see, such as one over memory. It also sees the
/// sink's count of faults. Whether contracts see the bytes changes in no call.
pub trait Sink {
    // The bytes that were taken, or `None` if contracts don't see them.
    ghost taken: { Self → Option (List ℕ) };

    // The count of faults, as far as the sink counts them.
    ghost faults: { Self → ℕ };

    /// Writes bytes from the front of `bytes`, which isn't empty.
    fn write(&mut self, bytes: &[u8]) -> WriteOutcome
        requires { 0 < length bytes.now }
        ensures in_range { IfWrote result (λ n. (1 ≤ n) × (n ≤ length bytes.now)) }
        ensures wrote { IfWrote result (λ n. taken self.new ≡ with_more (taken self.old) (take n bytes.now)) }
        ensures failed_keeps { OnWriteFailed result (taken self.new ≡ taken self.old) }
        ensures fault { OnWriteFailed result (Rose (faults self.old) (faults self.new)) }
        ensures counted { faults self.old ≤ faults self.new };
}
