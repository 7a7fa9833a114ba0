ghost use Rattle.std.specs.Prelude.{◌≡◌, ℕ, ◌+◌, ◌^◌, ◌≤◌, ◌↔◌, length, IsTrue, Some, None, Contains};
ghost use Rattle.std.specs.Int.{IsPowerOfTwo};
ghost use Rattle.meta_unique.specs.Probing.{VisitsEach, IsLookup};

use super::steps::Steps;
use std::marker::Brand;
use std::sync::ledger::{Blank, Ledger};

/// A probe meets every slot exactly once, wherever it starts, if the count of slots is a power of two. Filling and looking up rest on this
/// law.
pub fn visits_each()
    ensures { (j : ℕ) → VisitsEach (2 ^ j) }
{}

/// Whether the slots can be probed: their count is a power of two, and some slot is vacant.
pub fn can_probe(slots: &[Option<u16>]) -> bool
    ensures { IsTrue result ↔ (IsPowerOfTwo (length slots.now) × Contains slots.now None) }
{
    is_power_of_two(slots.len()) && slots.contains(&None)
}

fn is_power_of_two(size: usize) -> bool
    ensures { IsTrue result ↔ IsPowerOfTwo size }
{
    if size > 1 << 63 {
        return false;
    }
    size.next_power_of_two() == size
}

/// The first number in the slots of the probe from `start` that `matches` accepts. `None` exactly if a vacant slot comes first. The slots
/// must be such that `can_probe` is true.
pub fn probe<M: Fn(u16) -> bool + Drop>(
    slots: &[Option<u16>],
    start: usize,
    matches: M,
) -> Option<u16>
    requires power { IsPowerOfTwo (length slots.now) }
    requires vacant { Contains slots.now None }
    requires callable { (number : ℕ) → Contains slots.now (Some number) → M.pre matches number }
    ensures { (last : ℕ) × IsLookup (M.post matches) slots.now start result last }
{
    probe_from::<M, Brand>(slots, start, matches, Blank::new(1))
}

fn probe_from<M: Fn(u16) -> bool + Drop, L: Ledger>(
    slots: &[Option<u16>],
    start: usize,
    matches: M,
    blank: Blank,
) -> Option<u16>
    requires power { IsPowerOfTwo (length slots.now) }
    requires vacant { Contains slots.now None }
    requires callable { (number : ℕ) → Contains slots.now (Some number) → M.pre matches number }
    requires name { blank.name ≡ L.name }
    requires parts { blank.parts ≡ L.parts }
    requires one { blank.parts ≡ 1 }
    ensures { (last : ℕ) × IsLookup (M.post matches) slots.now start result last }
{
    let mut steps = Steps::<L>::new(blank);
    probe_counted(slots, start, matches, &mut steps)
}

/// Probes as `probe` does. `steps` rises by the number of slots that were looked at.
pub fn probe_counted<M: Fn(u16) -> bool + Drop, L: Ledger>(
    slots: &[Option<u16>],
    start: usize,
    matches: M,
    steps: &mut Steps<L>,
) -> Option<u16>
    requires power { IsPowerOfTwo (length slots.now) }
    requires vacant { Contains slots.now None }
    requires callable { (number : ℕ) → Contains slots.now (Some number) → M.pre matches number }
    ensures lookup { (last : ℕ) × IsLookup (M.post matches) slots.now start result last × (steps.new ≡ steps.old + (last + 1)) }
    ensures most { steps.new ≤ steps.old + length slots.now }
{
    let mut slot = start % slots.len();
    let mut passed = 0usize;
    'walk: loop {
        steps.tick();
        match slots[slot] {
            None => return None,
            Some(number) => {
                if matches(number) {
                    return Some(number);
                }
            }
        }
        passed += 1;
        slot = (slot + passed) % slots.len();
    }
}
