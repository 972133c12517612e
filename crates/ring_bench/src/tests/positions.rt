//! Positions, reading and writing.

use super::{List, assert_equal, assert_lists, assert_steps};
use ring_slots::RingSlots;
use ring_test_support::kinds::{EACH, FIXED, Kind};
use ring_test_support::steps::Step;
use ring_test_support::steps::Step::*;
use ring_test_support::{on_each, on_fixed};
use ringbuffer::{DoubleEndedRing, FixedRing, GrowableAllocRingBuffer, RingBuffer};
use std::process::Abort;

const OLDEST_FIRST: &[Step] = &[
    PushAll(&[0, 1, 2, 3, 4, 5, 6, 7]),
    GetAll(0, &[0, 1, 2, 3, 4, 5, 6, 7]),
];

const THE_ENDS: &[Step] = &[PushAll(&[1, 2]), Front(Some(1)), Back(Some(2))];

const NONE_WHILE_EMPTY: &[Step] = &[
    Front(None),
    Back(None),
    Get(1, None),
    GetSigned(-1, None),
    Dequeue(None),
];

const WRAPPED: &[Step] = &[
    PushAll(&[0, 1]),
    GetAll(0, &[0, 1, 0, 1]),
    GetAllSigned(-4, &[0, 1, 0, 1]),
];

const BELOW_ZERO: &[Step] = &[PushAll(&[1, 2]), GetAllSigned(-3, &[2, 1, 2, 1, 2])];

const WRITTEN: &[Step] = &[
    PushAll(&[0, 1]),
    Write(0, 3),
    Holds(&[3, 1]),
    Write(1, 4),
    Holds(&[3, 4]),
];

/// A push of each item in turn, and a read of the newest item after it.
macro_rules! pushed_and_read {
    ($($item:literal)*) => {
        &[$(PushAll(&[$item]), GetSigned(-1, Some($item))),*]
    };
}

/// Reads the newest item after each of ten pushes.
const NEWEST: &[Step] = pushed_and_read!(0 1 2 3 4 5 6 7 8 9);

/// Positions move with the oldest item.
const MOVED: &[Step] = &[
    PushAll(&[0, 1, 2]),
    GetAll(0, &[1, 2]),
    Write(0, 3),
    Holds(&[3, 2]),
];

const MOVED_TWICE: &[Step] = &[
    PushAll(&[0, 1, 2]),
    DequeueAll(&[1, 2]),
    PushAll(&[0, 1, 2]),
    DequeueAll(&[1, 2]),
    PushAll(&[0, 1, 2]),
    GetAllSigned(-3, &[2, 1, 2]),
];

const ALL_THERE: &[Step] = &[
    PushAll(&[0, 1, 2]),
    GetAll(0, &[0, 1, 2]),
    Write(0, 3),
    Holds(&[3, 1, 2]),
];

const ALL_THERE_TWICE: &[Step] = &[
    PushAll(&[0, 1, 2]),
    DequeueAll(&[0, 1, 2]),
    PushAll(&[0, 1, 2]),
    DequeueAll(&[0, 1, 2]),
    PushAll(&[0, 1, 2]),
    GetAllSigned(-3, &[0, 1, 2]),
];

const LISTS: &[List] = &[
    (EACH, 8, "the oldest first", OLDEST_FIRST),
    (EACH, 8, "the ends", THE_ENDS),
    (EACH, 2, "the ends of two", THE_ENDS),
    (EACH, 8, "none while empty", NONE_WHILE_EMPTY),
    (EACH, 8, "wrap by the length", WRAPPED),
    (EACH, 8, "wrap below zero", BELOW_ZERO),
    (FIXED, 2, "wrap below zero", BELOW_ZERO),
    (EACH, 8, "one place is written", WRITTEN),
    (EACH, 8, "the newest", NEWEST),
    (FIXED, 2, "move with the oldest", MOVED),
    (FIXED, 2, "move where items left", MOVED_TWICE),
    (&[Kind::Growable], 2, "all are there", ALL_THERE),
    (&[Kind::Growable], 2, "all are there again", ALL_THERE_TWICE),
];

// The remainders of -(2^63), 2^63 - 1 and 2^64 - 1 by the lengths 3, 5, 7 and 1 were found by hand.
const EXTREMES: &[(&[i64], i64, i64, i64)] = &[
    (&[1, 2, 3], 2, 2, 1),
    (&[0, 1, 2, 3, 4], 2, 2, 0),
    (&[0, 1, 2, 3, 4, 5, 6], 6, 0, 1),
    (&[7], 7, 7, 7),
];

#[test]
fn positions_are_read_and_written(rt: HostRuntime) {
    assert_lists(&rt, LISTS);
    let mut growable = GrowableAllocRingBuffer::new(rt.alloc());
    assert_steps(&rt, &mut growable, BELOW_ZERO);
    on_each!(&rt, 8, assert_extremes);
    on_each!(&rt, 8, assert_indexed);
    on_fixed!(&rt, 4, assert_extended, &[0, 1, 2], &[0, 0, 1, 2]);
    let (source, left) = (&[0, 1, 2, 3, 4, 5, 6, 7, 8, 9], &[2, 3, 4, 5, 6, 7, 8, 9]);
    on_fixed!(&rt, 8, assert_extended, source, left);
}

/// Leaves three items, of which the newest was written at a position below zero.
const WRITTEN_BELOW_ZERO: &[Step] = &[
    Clear,
    PushAll(&[1, 2, 3]),
    WriteSigned(-4, 9),
    Holds(&[1, 2, 9]),
];

/// Finds by writing what reading finds.
const LENT_FOR_WRITING: &[Step] = &[
    Clear,
    PushAll(&[1, 2, 3]),
    Back(Some(3)),
    Get(4, Some(2)),
    Len(3),
];

/// A ring of numbers that is read and written by an index.
trait Indexed: DoubleEndedRing<i64> + Drop {
    /// Returns the item at an index, unless there is none.
    fn item(&self, index: usize) -> Option<i64>;

    /// Writes an item at an index, unless there is none.
    fn write(&mut self, index: usize, item: i64);

    /// Reads the least and the greatest positions, also of the one item 7.
    fn assert_extremes(mut self, rt: &impl Abort) {
        for (items, at_least_signed, at_greatest_signed, at_greatest) in EXTREMES {
            let steps = [
                Begin(5),
                PushAll(items),
                GetSigned(isize::MIN, Some(*at_least_signed)),
                GetSigned(isize::MAX, Some(*at_greatest_signed)),
                Get(usize::MAX, Some(*at_greatest)),
                DequeueAll(items),
                PushAll(&[7]),
                GetSigned(-1, Some(7)),
            ];
            assert_steps(rt, &mut self, &steps);
        }
    }

    /// Reads and writes by an index, as by a position.
    fn assert_indexed(mut self, rt: &impl Abort) {
        assert_steps(rt, &mut self, &[PushAll(&[2]), Len(1)]);
        assert_equal(rt, self.item(0), Some(2));
        self.write(0, 5);
        assert_equal(rt, self.item(0), Some(5));
        assert_steps(rt, &mut self, WRITTEN_BELOW_ZERO);
        self.write(4, 8);
        assert_equal(rt, self.item(5), Some(9));
        assert_steps(rt, &mut self, &[Holds(&[1, 8, 9])]);
        assert_steps(rt, &mut self, LENT_FOR_WRITING);
        self.write(3, 9);
        assert_steps(rt, &mut self, &[Holds(&[9, 2, 3])]);
    }

    /// Pushes zeros onto a ring until it is full, extends it, and reads by indexes what that leaves.
    fn assert_extended(mut self, rt: &impl Abort, source: &'static [i64], left: &[i64]) {
        for _ in left {
            assert_steps(rt, &mut self, &[PushAll(&[0])]);
        }
        assert_steps(rt, &mut self, &[IsFull(true), Extend(source)]);
        for (index, item) in left.iter().enumerate() {
            assert_equal(rt, (index, self.item(index)), (index, Some(*item)));
        }
    }
}

/// Reads at an index, unless there is none.
macro_rules! item_at {
    ($ring:expr, $index:expr) => {
        if $ring.is_empty() { None } else { Some($ring[$index]) }
    };
}

/// Writes at an index, unless there is none.
macro_rules! write_at {
    ($ring:expr, $index:expr, $item:expr) => {
        if !$ring.is_empty() {
            $ring[$index] = $item;
        }
    };
}

impl<S: RingSlots<i64>> Indexed for FixedRing<i64, S> {
    fn item(&self, index: usize) -> Option<i64> {
        item_at!(self, index)
    }

    fn write(&mut self, index: usize, item: i64) {
        write_at!(self, index, item);
    }
}

impl Indexed for GrowableAllocRingBuffer<i64> {
    fn item(&self, index: usize) -> Option<i64> {
        item_at!(self, index)
    }

    fn write(&mut self, index: usize, item: i64) {
        write_at!(self, index, item);
    }
}
