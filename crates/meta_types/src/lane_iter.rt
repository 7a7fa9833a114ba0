ghost use Rattle.std.specs.Prelude.{◌≡◌};
ghost use Rattle.std.specs.Iterator.{YieldsFirst, item_count};
ghost use Rattle.meta_types.specs.LaneTypes.{ints, floats, lane_types, ints_left, floats_left, lane_types_left};

use super::lane::{Float, Int, LaneType};

/// The integers in rising width.
const INTS: [Int; 5] = [Int::I8, Int::I16, Int::I32, Int::I64, Int::I128];

/// The floats in rising width.
const FLOATS: [Float; 4] = [Float::F16, Float::F32, Float::F64, Float::F128];

/// An iterator that gives each integer lane once, in rising width, as in the crate's `shared/types.rs`.
#[derive(Drop)]
pub struct IntIterator {
    index: usize,
}

/// An iterator that gives each floating-point lane once, in rising width, as in the crate's `shared/types.rs`.
#[derive(Drop)]
pub struct FloatIterator {
    index: usize,
}

/// An iterator that gives each of the nine lane types once: the integers, then the floats, each in rising width. It is as in the crate's
/// `cdsl/types.rs`.
#[derive(Drop)]
pub struct LaneTypeIterator {
    int_iter: IntIterator,
    float_iter: FloatIterator,
}

impl IntIterator {
    /// Makes an iterator that stands before the first lane.
    pub fn new() -> IntIterator
        ensures { ints_left result ≡ ints }
    {
        IntIterator { index: 0 }
    }
}

impl FloatIterator {
    /// Makes an iterator that stands before the first lane.
    pub fn new() -> FloatIterator
        ensures { floats_left result ≡ floats }
    {
        FloatIterator { index: 0 }
    }
}

impl LaneTypeIterator {
    /// Makes an iterator that stands before the first lane type.
    pub fn new() -> LaneTypeIterator
        ensures { lane_types_left result ≡ lane_types }
    {
        LaneTypeIterator {
            int_iter: IntIterator::new(),
            float_iter: FloatIterator::new(),
        }
    }
}

impl Iterator for IntIterator {
    type Item = Int;

    ghost next_gives = { YieldsFirst ints_left };

    ghost remaining = { item_count ints_left };

    fn next(&mut self) -> Option<Int> {
        let int = INTS.get(self.index)?;
        self.index += 1;
        Some(*int)
    }
}

impl Iterator for FloatIterator {
    type Item = Float;

    ghost next_gives = { YieldsFirst floats_left };

    ghost remaining = { item_count floats_left };

    fn next(&mut self) -> Option<Float> {
        let float = FLOATS.get(self.index)?;
        self.index += 1;
        Some(*float)
    }
}

impl Iterator for LaneTypeIterator {
    type Item = LaneType;

    ghost next_gives = { YieldsFirst lane_types_left };

    ghost remaining = { item_count lane_types_left };

    fn next(&mut self) -> Option<LaneType> {
        match self.int_iter.next() {
            Some(int) => Some(LaneType::Int(int)),
            None => Some(LaneType::Float(self.float_iter.next()?)),
        }
    }
}
