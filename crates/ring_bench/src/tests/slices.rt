//! The items of a ring in two slices, and in one.

use super::{assert_equal, assert_steps};
use ring_slots::LendsRows;
use ring_test_support::steps::STARTS;
use ring_test_support::steps::Step::{Begin, DequeueAll, Holds, PushAll};
use ringbuffer::{
    AllocRingBuffer, CopyRingBuffer, FixedRing, GrowableAllocRingBuffer, RingBuffer, ShowsRows,
};
use std::alloc::AllocError;
use std::process::Abort;

/// Finds the items of a ring in two slices only where they go round its slots, and then in one, which is turned round
/// before one more is pushed.
fn assert_turned<S: LendsRows<i64> + ShowsRows<i64>>(
    rt: &impl Abort,
    ring: &mut FixedRing<i64, S>,
    start: usize,
    items: &'static [i64],
) {
    assert_steps(rt, ring, &[Begin(start), PushAll(items)]);
    let slots = ring.buffer_size();
    let to_the_last = slots.saturating_sub(start.checked_rem(slots).unwrap_or(0));
    let halves = items.split_at(to_the_last.min(items.len()));
    assert_equal(rt, ring.as_slices(), halves);
    assert_equal(rt, &*ring.make_contiguous(), items);
    assert_equal(rt, ring.as_slices(), (items, [].as_slice()));
    assert_steps(rt, ring, &[Holds(items)]);
    ring.make_contiguous().reverse();
    assert_steps(rt, ring, &[PushAll(&[9])]);
    let left = ring.capacity().min(items.len() + 1);
    for item in items.iter().rev().skip(items.len() + 1 - left) {
        assert_equal(rt, ring.dequeue(), Some(*item));
    }
    assert_steps(rt, ring, &[DequeueAll(&[9])]);
}

const EIGHT: &[i64] = &[1, 2, 3, 4, 5, 6, 7, 8];

/// Makes one slice of each number of items that a ring of up to eight can hold, from each start.
fn assert_made_one_slice<S: LendsRows<i64> + ShowsRows<i64>>(
    rt: &impl Abort,
    mut ring: FixedRing<i64, S>,
) {
    for len in 0..=ring.capacity() {
        let items = &EIGHT[..len.min(8)];
        for start in 0..STARTS {
            assert_turned(rt, &mut ring, start, items);
        }
    }
}

#[test]
fn items_are_made_one_slice(rt: HostRuntime) -> Result<(), AllocError> {
    for capacity in [1, 2, 3, 5, 8] {
        assert_made_one_slice(&rt, AllocRingBuffer::new(rt.alloc(), capacity)?);
    }
    assert_made_one_slice(&rt, CopyRingBuffer::<i64, 5>::new(7));
    assert_made_one_slice(&rt, CopyRingBuffer::<i64, 8>::new(7));
    let mut ring = GrowableAllocRingBuffer::with_capacity(rt.alloc(), 5)?;
    for start in 0..STARTS {
        assert_steps(&rt, &mut ring, &[Begin(start), PushAll(&[1, 2, 3, 4, 5])]);
        let all = ring.make_contiguous();
        assert_eq!(rt; &*all, [1, 2, 3, 4, 5].as_slice());
        all[4] = 6;
        let second = ring.as_slices().1;
        assert_equal(&rt, second.len(), 0);
        assert_steps(&rt, &mut ring, &[DequeueAll(&[1, 2, 3, 4, 6])]);
    }
    Ok(())
}
