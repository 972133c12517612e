//! Items that a call picks, searches, and another capacity.

ghost use Rattle.std.specs.Prelude.{◌<◌};

use super::{assert_equal, assert_rows, assert_steps};
use ring_test_support::kinds::EACH;
use ring_test_support::steps::Row;
use ring_test_support::steps::Step::{
    Begin, Below, Capacity, Holds, Leaves, PushAll, Remove, RetainAlternate, Search,
};
use ringbuffer::AllocRingBuffer;

const FIVE: &[i64] = &[1, 2, 3, 4, 5];

const PICKED: &[Row] = &[
    (FIVE, Remove(usize::MAX, None), FIVE),
    (FIVE, RetainAlternate, &[1, 3, 5]),
];

/// The items of std's own examples of searches.
const FIBONACCI: &[i64] = &[0, 1, 1, 1, 1, 2, 3, 5, 8, 13, 21, 34, 55];

const EIGHT: &[i64] = &[1, 2, 3, 4, 5, 6, 7, 8];

const RISING: &[i64] = &[1, 2, 3, 3, 5, 6, 7];

/// A search finds the first of several that are equal, and asks of few items.
const SEARCHED: &[Row] = &[
    (FIBONACCI, Search(13, Ok(9)), FIBONACCI),
    (FIBONACCI, Search(4, Err(7)), FIBONACCI),
    (FIBONACCI, Search(100, Err(13)), FIBONACCI),
    (FIBONACCI, Search(1, Ok(1)), FIBONACCI),
    (FIBONACCI, Search(-1, Err(0)), FIBONACCI),
    (RISING, Below(5, 4), RISING),
    (RISING, Below(1, 0), RISING),
    (FIBONACCI, Below(100, 13), FIBONACCI),
    (&[], Below(5, 0), &[]),
    (&[5], Below(6, 1), &[5]),
    (FIVE, Below(9, 5), FIVE),
    (EIGHT, Below(9, 8), EIGHT),
];

// On the heap a ring of five has spare slots.
#[test]
fn items_are_picked_and_found(rt: HostRuntime) {
    assert_rows(&rt, EACH, 5, PICKED);
    assert_rows(&rt, EACH, 13, SEARCHED);
}

/// The items of a ring of five, another capacity, and what is left.
const RESIZED: &[(&[i64], usize, &[i64])] = &[
    (FIVE, 1, &[5]),
    (FIVE, 4, &[2, 3, 4, 5]),
    (FIVE, 5, FIVE),
    (FIVE, (1 << 20) + 1, FIVE),
];

// A capacity of its own has no step, since one type alone has it.
#[test]
fn a_heap_ring_is_given_another_capacity(rt: HostRuntime) {
    let mut ring = AllocRingBuffer::new(rt.alloc(), 5).expect(&rt, "memory");
    for (items, capacity, left) in RESIZED {
        assert_steps(&rt, &mut ring, &[Begin(3), PushAll(items)]);
        assert_equal(&rt, ring.set_capacity(usize::MAX).is_err(), true);
        assert_steps(&rt, &mut ring, &[Capacity(5), Holds(items)]);
        assert!(&rt; 0 < *capacity);
        ring.set_capacity(*capacity).expect(&rt, "memory");
        assert_steps(&rt, &mut ring, &[Capacity(*capacity)]);
        ring.set_capacity(5).expect(&rt, "memory");
        assert_steps(&rt, &mut ring, &[Leaves(left)]);
    }
}
