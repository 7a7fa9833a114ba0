ghost use Rattle.std.specs.Prelude.{◌≡◌, ◌↔◌, ◌^◌, ◌<◌, IsTrue, sum, filter};
ghost use Rattle.meta_typevar.specs.Intervals.{has, IsWithin};

use std::ops::Range;

/// Which numbers a part of a type set has, as in the crate's `cdsl/typevar.rs`.
#[derive(Debug, Drop, PartialEq, Eq)]
pub enum Interval {
    /// No number.
    None,
    /// All numbers that the part can have.
    All,
    /// The powers of two from `start` to `end`, including both.
    Range(Range<u16>),
}

/// A part of a type set builder.
#[derive(Clone, Copy, Debug, PartialEq, Eq)]
pub enum Part {
    /// The integer widths.
    Ints,
    /// The float widths.
    Floats,
    /// The lane counts of scalars and fixed vectors.
    SimdLanes,
    /// The least lane counts of dynamic vectors.
    DynamicSimdLanes,
}

impl From<Range<u16>> for Interval {
    ghost use Rattle.std.specs.Prelude.{◌≡◌};
    ghost use Rattle.meta_typevar.specs.declared.interval.Interval.TheVariants.{Range as Between};

    ghost from_gives = { λ range result. result ≡ Between range };

    fn from(range: Range<u16>) -> Interval {
        Interval::Range(range)
    }
}

impl Interval {
    pub(crate) fn has(&self, n: u16) -> bool
        ensures { result ≡ has self.now n }
    {
        match self {
            Interval::None => false,
            Interval::All => true,
            Interval::Range(range) => range.start <= n && n <= range.end,
        }
    }

    /// Whether a range has both ends among these numbers, and its low end is at most its high end.
    pub(crate) fn is_within(&self, all: &[u16]) -> bool
        ensures { IsTrue result ↔ IsWithin all.now self.now }
    {
        match self {
            Interval::None | Interval::All => true,
            Interval::Range(range) => all.contains(&range.start)
                && all.contains(&range.end)
                && range.start <= range.end,
        }
    }

    /// The mask of those of these numbers, which are powers of two, that the interval has.
    pub(crate) fn to_mask(&self, all: &[u16]) -> u16
        requires { sum all.now < 2 ^ 16 }
        ensures { result ≡ sum (filter (has self.now) all.now) }
    {
        all.iter().filter(|n| self.has(**n)).sum()
    }
}
