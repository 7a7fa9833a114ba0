ghost use Rattle.std.specs.Prelude.{◌≡◌, ◌≢◌, ◌↔◌, ℕ, IsTrue, IfSome, IfNone, Contains, true};
ghost use Rattle.meta_types.specs.TypeParts.{lane_counts, log2};
ghost use Rattle.meta_types.specs.Vector.{lane_count};

/// How many lanes a vector has: a power of two from 2 to 256. The number of a count is its exponent.
#[derive(Clone, Copy, PartialEq, Eq, Hash)]
pub(crate) enum LaneCount {
    X2 = 1,
    X4,
    X8,
    X16,
    X32,
    X64,
    X128,
    X256,
}

/// Whether a vector can have this many lanes: a power of two from 2 to 256. The crate takes any count.
pub fn is_lane_count(lanes: u64) -> bool
    ensures { IsTrue result ↔ Contains (lane_counts true) lanes }
{
    [2, 4, 8, 16, 32, 64, 128, 256].contains(&lanes)
}

/// The eight counts, in rising order.
const LANE_COUNTS: [LaneCount; 8] = [
    LaneCount::X2,
    LaneCount::X4,
    LaneCount::X8,
    LaneCount::X16,
    LaneCount::X32,
    LaneCount::X64,
    LaneCount::X128,
    LaneCount::X256,
];

impl LaneCount {
    pub(crate) fn new(lanes: u64) -> LaneCount
        requires { Contains (lane_counts true) lanes }
        ensures { lane_count result ≡ lanes }
    {
        match lanes {
            2 => LaneCount::X2,
            4 => LaneCount::X4,
            8 => LaneCount::X8,
            16 => LaneCount::X16,
            32 => LaneCount::X32,
            64 => LaneCount::X64,
            128 => LaneCount::X128,
            _ => LaneCount::X256,
        }
    }

    pub(crate) fn get(self) -> u64
        ensures { result ≡ lane_count self }
    {
        1 << self.log2()
    }

    pub(crate) fn log2(self) -> u16
        ensures { result ≡ log2 (lane_count self) }
    {
        self as u16
    }

    pub(crate) fn from_log2(exponent: u16) -> Option<LaneCount>
        ensures found { IfSome result (λ n. log2 (lane_count n) ≡ exponent) }
        ensures none { IfNone result ((n : ℕ) → Contains (lane_counts true) n → log2 n ≢ exponent) }
    {
        for &count in LANE_COUNTS.iter() {
            if count.log2() == exponent {
                return Some(count);
            }
        }
        None
    }
}
