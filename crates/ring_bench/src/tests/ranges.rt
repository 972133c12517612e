//! Reading walks over a range of indexes.

use super::{assert_equal, assert_steps};
use ring_test_support::on_each;
use ring_test_support::steps::Step::{self, Begin, PushAll};
use ringbuffer::{DoubleEndedRing, RingBuffer, RingBufferExt};
use std::ops::{Bound, RangeBounds};
use std::process::Abort;

/// Asserts that a walk over a range of a ring has these items to come, and gives them from the front.
fn assert_range<R: RingBuffer<i64>, X: RangeBounds<usize>>(
    rt: &impl Abort,
    ring: &R,
    range: X,
    items: &[i64],
)
    requires { X.has_bounds range }
{
    let mut walk = ring.range(range);
    assert_equal(rt, walk.len(), items.len());
    for item in items {
        assert_equal(rt, walk.next().copied(), Some(*item));
    }
    assert_equal(rt, (walk.next(), walk.next_back()), (None, None));
}

/// Leaves the items from 1 to 7. On a ring of eight slots the last of them lie at the first slots.
const FROM_ONE_TO_SEVEN: &[Step] = &[Begin(5), PushAll(&[1, 2, 3, 4, 5, 6, 7])];

#[test]
fn a_range_is_read(rt: HostRuntime) {
    on_each!(&rt, 8, assert_ranges);
}

/// A ring whose ranges are walked over.
trait Ranged: DoubleEndedRing<i64> + Drop {
    fn assert_ranges(mut self, rt: &impl Abort) {
        assert_range(rt, &self, .., &[]);
        assert_range(rt, &self, 0..3, &[]);
        assert_steps(rt, &mut self, FROM_ONE_TO_SEVEN);
        assert_range(rt, &self, 2..5, &[3, 4, 5]);
        assert_range(rt, &self, 5..100, &[6, 7]);
        assert_range(rt, &self, 5..2, &[]);
        assert_range(rt, &self, usize::MAX..usize::MAX, &[]);
        assert_range(rt, &self, .., &[1, 2, 3, 4, 5, 6, 7]);
        assert_range(rt, &self, 5.., &[6, 7]);
        assert_range(rt, &self, ..2, &[1, 2]);
        assert_range(rt, &self, 1..=2, &[2, 3]);
        assert_range(rt, &self, ..=usize::MAX, &[1, 2, 3, 4, 5, 6, 7]);
        let after_the_fifth = (Bound::Excluded(4), Bound::Unbounded);
        assert_range(rt, &self, after_the_fifth, &[6, 7]);
        let after_all = (Bound::Excluded(usize::MAX), Bound::Unbounded);
        assert_range(rt, &self, after_all, &[]);
    }
}

impl<R: DoubleEndedRing<i64> + Drop> Ranged for R {}
