//! Walks over the items: reading, writing and taking; lists of the items.

use super::{List, assert_equal, assert_lists, assert_steps, push_all};
use ring_test_support::kinds::EACH;
use ring_test_support::steps::End::{self, Back, Front};
use ring_test_support::steps::Step::{
    self, Adds, Begin, Contains, Drains, Holds, Lends, PushAll, Reads,
};
use ring_test_support::{on_each, on_each_of_any, on_fixed, on_ring};
use ringbuffer::{
    ConstGenericRingBuffer, DoubleEndedRing, GrowableAllocRingBuffer, RingBuffer, RingBufferExt,
    RingBufferIntoIterator,
};
use std::alloc::AllocError;
use std::fmt::Debug;
use std::process::Abort;

/// Items, the ends that a walk takes its steps from, and what these find.
const WALKS: &[(&[i64], &[End], &[i64])] = &[
    (&[], &[Front, Back, Front], &[]),
    (&[1], &[Back, Front, Back, Front], &[1]),
    (
        &[1, 2, 3, 4],
        &[Back, Back, Front, Back, Back],
        &[4, 3, 1, 2],
    ),
    (
        &[1, 2, 3, 4, 5, 6, 7],
        &[Front, Back, Front, Front, Back, Back, Front, Front],
        &[1, 7, 2, 3, 6, 5, 4],
    ),
    (&[1, 2, 3, 4, 5, 6, 7], &[Front; 8], &[1, 2, 3, 4, 5, 6, 7]),
];

#[test]
fn walks_meet_in_the_middle(rt: HostRuntime) {
    for (items, ends, found) in WALKS {
        on_each!(&rt, 8, assert_walks, items, ends, found);
        on_each!(&rt, 7, assert_walks, items, ends, found);
    }
}

/// Finds the items in the list that the ring makes of them.
fn assert_listed<R: RingBuffer<i64>>(rt: &(impl Abort + AllocGlobal), ring: &R, items: &[i64]) {
    let listed = ring.to_vec(rt.alloc()).expect(rt, "memory");
    assert_equal(rt, listed.as_slice(), items);
}

const THE_LAST_TWO: &[Step] = &[
    Reads(&[Front, Front, Front], &[2, 3]),
    Adds(&[(Front, 1), (Front, 1)]),
    Holds(&[3, 4]),
];

const ALL_THREE: &[Step] = &[
    Reads(&[Front, Front, Front, Front], &[1, 2, 3]),
    Adds(&[(Front, 1), (Front, 1), (Front, 1)]),
    Holds(&[2, 3, 4]),
];

#[test]
fn an_overwritten_item_is_not_seen(rt: HostRuntime) {
    on_fixed!(&rt, 2, assert_seen, &[2, 3], THE_LAST_TWO);
    on_each!(&rt, 8, assert_seen, &[1, 2, 3], ALL_THREE);
    on_ring!(growable, &rt, 2, assert_seen, &[1, 2, 3], ALL_THREE);
}

const ONE_TO_FOUR: Step = PushAll(&[1, 2, 3, 4]);

/// Walks over a ring of four, round the end of its slots, that are dropped before the end.
const IN_PART: &[Step] = &[
    Begin(3),
    ONE_TO_FOUR,
    Adds(&[(Front, 10), (Back, 20)]),
    Holds(&[11, 2, 3, 24]),
    Begin(3),
    PushAll(&[1, 2, 3]),
    Adds(&[(Front, 4)]),
    Holds(&[5, 2, 3]),
    Begin(3),
    ONE_TO_FOUR,
    Drains(&[], &[]),
    Holds(&[1, 2, 3, 4]),
    Drains(&[Front, Front], &[1, 2]),
    Holds(&[3, 4]),
    Begin(3),
    ONE_TO_FOUR,
    Drains(&[Front, Front, Front], &[1, 2, 3]),
    Holds(&[4]),
    Begin(3),
    ONE_TO_FOUR,
    Drains(&[Back, Back, Front], &[4, 3, 1]),
    Holds(&[2]),
];

/// Drains a ring that holds eight.
const DRAINED: &[Step] = &[
    PushAll(&[0, 1, 2, 3, 4, 5, 6, 7]),
    Drains(&[Front; 8], &[0, 1, 2, 3, 4, 5, 6, 7]),
    Holds(&[]),
];

const CONTAINED: &[Step] = &[
    PushAll(&[1, 2]),
    Contains(1, true),
    Contains(2, true),
    Contains(3, false),
];

const LISTS: &[List] = &[
    (EACH, 4, "in part", IN_PART),
    (EACH, 16, "drained", DRAINED),
    (EACH, 8, "contained", CONTAINED),
];

#[test]
fn a_dropped_walk_leaves_the_rest(rt: HostRuntime) {
    assert_lists(&rt, LISTS);
}

/// Goes from 1 to 3 by loops over the ring, by reference and by value.
macro_rules! loop_over {
    ($rt:expr, $ring:expr) => {{
        let mut ring = $ring;
        push_all($rt, &mut ring, &[1, 2, 3]);
        let mut last = 0;
        for item in &ring {
            assert!($rt; last < *item);
            last = *item;
        }
        assert_equal($rt, last, 3);
        for item in ring {
            last = last.wrapping_sub(item);
        }
        assert_equal($rt, last, -3);
    }};
}

#[test]
fn rings_are_looped_over_and_walked_side_by_side(rt: HostRuntime) {
    on_each!(&rt, 8, assert_reads_twice);
    loop_over!(&rt, ConstGenericRingBuffer::<i64, 3>::new());
    loop_over!(&rt, GrowableAllocRingBuffer::new(rt.alloc()));
}

/// A ring that is walked over.
trait Walked: DoubleEndedRing<i64> + Drop {
    /// Walks over the items of each row by each kind of walk. The number still to come is exact before each step.
    fn assert_walks(
        mut self,
        rt: &impl Abort,
        items: &'static [i64],
        ends: &'static [End],
        found: &'static [i64],
    ) {
        let steps = [
            PushAll(items),
            Reads(ends, found),
            Lends(ends, found),
            Drains(ends, found),
            Holds(&[]),
            PushAll(items),
        ];
        assert_steps(rt, &mut self, &steps);
        let mut walk = RingBufferIntoIterator::new(self);
        let mut left = items.len();
        for (i, end) in ends.iter().enumerate() {
            let to_come = (walk.size_hint(), walk.len());
            assert_equal(rt, (i, to_come), (i, ((left, Some(left)), left)));
            let item = match end {
                Front => walk.next(),
                Back => walk.next_back(),
            };
            assert_equal(rt, (i, item), (i, found.get(i).copied()));
            left = left.saturating_sub(1);
        }
    }

    /// Reads by two walks in turn.
    fn assert_reads_twice(mut self, rt: &impl Abort) {
        push_all(rt, &mut self, &[1, 2, 3]);
        let (mut one, mut other) = (self.iter(), self.iter());
        for item in [1, 2, 3] {
            let found = (one.next().copied(), other.next().copied());
            assert_equal(rt, found, (Some(item), Some(item)));
        }
    }

    /// Lists nothing, pushes 1, 2 and 3, and lists what is kept of them. Then it does the calls.
    fn assert_seen(mut self, rt: &(impl Abort + AllocGlobal), kept: &[i64], steps: &[Step]) {
        assert_listed(rt, &self, &[]);
        push_all(rt, &mut self, &[1, 2, 3]);
        assert_listed(rt, &self, kept);
        assert_steps(rt, &mut self, steps);
    }
}

impl<R: DoubleEndedRing<i64> + Drop> Walked for R {}

/// Pushes three items, which a walk reads as their equals. The oldest is then written over the newest.
fn assert_borrows<T: Copy + PartialEq + Debug + Drop, R: RingBuffer<T> + Drop>(
    rt: &impl Abort,
    mut ring: R,
    items: &[T],
    equal: &[T],
) {
    for item in items {
        assert!(rt; ring.push(*item).is_ok());
    }
    let mut walk = ring.iter();
    for item in equal {
        assert_equal(rt, walk.next(), Some(item));
    }
    let oldest = ring.dequeue().expect(rt, "an item");
    *ring.back_mut().expect(rt, "a newest item") = oldest;
    assert_equal(rt, ring.get(0), equal.get(1));
    assert_equal(rt, ring.get(1), equal.get(0));
}

#[test]
fn items_may_be_borrowed(rt: HostRuntime) -> Result<(), AllocError> {
    let text = String::from_str(rt.alloc(), "abc")?;
    let letters = [&text[0..1], &text[1..2], &text[2..3]];
    on_each_of_any!(&rt, 8, assert_borrows, &letters, &["a", "b", "c"]);
    Ok(())
}
