//! Equality and clones.

use super::{assert_equal, assert_holds, assert_steps, push_all};
use ring_test_support::steps::Step;
use ring_test_support::{on_fixed, on_ring};
use ringbuffer::{
    AllocRingBuffer, ConstGenericRingBuffer, CopyRingBuffer, DoubleEndedRing,
    GrowableAllocRingBuffer, RingBuffer,
};
use std::alloc::AllocError;
use std::process::Abort;

#[test]
fn a_default_ring_equals_a_new_one(rt: HostRuntime) {
    let array = ConstGenericRingBuffer::<i64, 8>::default();
    assert!(rt; array == ConstGenericRingBuffer::new());
    let growable = GrowableAllocRingBuffer::<i64>::default(rt.alloc());
    assert!(rt; growable == GrowableAllocRingBuffer::new(rt.alloc()));
}

/// Asserts that both are equal, or that neither equals the other.
fn assert_compares<R: PartialEq>(rt: &impl Abort, one: &R, other: &R, equal: bool) {
    assert_equal(rt, *one == *other, equal);
    assert_equal(rt, *one != *other, !equal);
}

/// What is pushed onto one ring, what onto another, and whether they are equal then.
const PUSHES: &[(&[i64], &[i64], bool)] = &[
    (&[], &[], true),
    (&[1], &[], false),
    (&[], &[1], true),
    (&[4], &[2], false),
];

/// Leaves 1 and 2, three slots after those that a ring has them in which was cleared alone.
const LATER_SLOTS: &[Step] = &[
    Step::Clear,
    Step::PushAll(&[0, 0, 0]),
    Step::Skip,
    Step::Skip,
    Step::Skip,
    Step::PushAll(&[1, 2]),
];

/// Compares two new rings with room for four.
fn assert_equal_where_items_are<R: DoubleEndedRing<i64> + PartialEq + Drop>(
    rt: &impl Abort,
    mut one: R,
    mut other: R,
) {
    for (onto_one, onto_other, equal) in PUSHES {
        push_all(rt, &mut one, onto_one);
        push_all(rt, &mut other, onto_other);
        assert_compares(rt, &one, &other, *equal);
    }
    assert_steps(rt, &mut one, &[Step::Clear, Step::PushAll(&[1, 2])]);
    assert_steps(rt, &mut other, LATER_SLOTS);
    assert_compares(rt, &one, &other, true);
}

#[test]
fn rings_are_equal_where_their_items_are(rt: HostRuntime) -> Result<(), AllocError> {
    let one = ConstGenericRingBuffer::<i64, 4>::new();
    assert_equal_where_items_are(&rt, one, ConstGenericRingBuffer::new());
    let one = CopyRingBuffer::<i64, 4>::new(0);
    assert_equal_where_items_are(&rt, one, CopyRingBuffer::new(7));
    let one = AllocRingBuffer::new(rt.alloc(), 4)?;
    assert_equal_where_items_are(&rt, one, AllocRingBuffer::new(rt.alloc(), 4)?);
    let one = GrowableAllocRingBuffer::with_capacity(rt.alloc(), 4)?;
    let other = GrowableAllocRingBuffer::with_capacity(rt.alloc(), 4)?;
    assert_equal_where_items_are(&rt, one, other);
    Ok(())
}

#[test]
fn heap_rings_of_two_capacities_differ(rt: HostRuntime) -> Result<(), AllocError> {
    let mut one = AllocRingBuffer::new(rt.alloc(), 4)?;
    let mut other = AllocRingBuffer::new(rt.alloc(), 5)?;
    push_all(&rt, &mut one, &[1, 2]);
    push_all(&rt, &mut other, &[1, 2]);
    assert_compares(&rt, &one, &other, false);
    Ok(())
}

#[test]
fn a_clone_stays_equal_under_the_same_pushes(rt: HostRuntime) {
    on_fixed!(&rt, 4, assert_stays_equal, &[], &[32, 22, 11, 12]);
    // The items that are cloned lie in two pieces.
    on_fixed!(&rt, 4, assert_stays_equal, &[1, 2], &[32, 22, 11, 12]);
    on_ring!(
        growable,
        &rt,
        4,
        assert_stays_equal,
        &[],
        &[42, 32, 22, 11, 12]
    );
}

#[test]
fn pushes_on_a_clone_leave_the_source(rt: HostRuntime) {
    on_fixed!(&rt, 2, assert_cloned_empty);
    on_ring!(heap, &rt, 5, assert_cloned_empty);
    on_ring!(growable, &rt, 0, assert_cloned_empty);
    on_fixed!(&rt, 4, assert_source_is_left);
    on_ring!(growable, &rt, 0, assert_source_is_left);
    GrowableAllocRingBuffer::new(rt.alloc()).assert_source_is_left(&rt);
}

/// Leaves a full ring of five.
const FILLED: &[Step] = &[Step::PushAll(&[0, 1, 2, 3, 4, 5, 6]), Step::Fill(4)];

/// Pushes onto the clone of that ring.
const PUSHED: &[Step] = &[
    Step::Capacity(5),
    Step::PushAll(&[1]),
    Step::Holds(&[4, 4, 4, 4, 1]),
];

#[test]
fn a_clone_of_a_full_heap_ring_keeps_its_capacity(rt: HostRuntime) -> Result<(), AllocError> {
    let mut ring = AllocRingBuffer::new(rt.alloc(), 5)?;
    assert_steps(&rt, &mut ring, FILLED);
    let mut twin = ring.clone()?;
    assert_compares(&rt, &twin, &ring, true);
    assert_equal(&rt, twin.buffer_size(), 8);
    assert_steps(&rt, &mut twin, PUSHED);
    assert_holds(&rt, &ring, &[4, 4, 4, 4, 4]);
    assert_compares(&rt, &twin, &ring, false);
    Ok(())
}

/// A ring that is compared with its clones.
trait Compared: RingBuffer<i64> + PartialEq + Clone + Drop {
    /// Pushes the items `before`, then some more, then the same onto the ring and its clone. Both then hold the items `held`.
    /// On a fixed ring those in `before` are overwritten.
    fn assert_stays_equal(&mut self, rt: &impl Abort, before: &[i64], held: &[i64]) {
        push_all(rt, self, before);
        push_all(rt, self, &[42, 32, 22]);
        let mut twin = self.clone().expect(rt, "memory");
        assert_compares(rt, &twin, self, true);
        push_all(rt, self, &[11, 12]);
        push_all(rt, &mut twin, &[11, 12]);
        assert_compares(rt, &twin, self, true);
        assert_holds(rt, self, held);
        assert_holds(rt, &twin, held);
    }

    /// Clones an empty ring.
    fn assert_cloned_empty(&mut self, rt: &impl Abort) {
        let twin = self.clone().expect(rt, "memory");
        assert_compares(rt, &twin, self, true);
        assert_holds(rt, &twin, &[]);
    }

    /// Pushes onto a clone, which leaves its source.
    fn assert_source_is_left(&mut self, rt: &impl Abort) {
        push_all(rt, self, &[1, 2]);
        let mut twin = self.clone().expect(rt, "memory");
        push_all(rt, &mut twin, &[11, 12]);
        assert_holds(rt, self, &[1, 2]);
        assert_holds(rt, &twin, &[1, 2, 11, 12]);
        assert_compares(rt, &twin, self, false);
    }
}

impl<R: RingBuffer<i64> + PartialEq + Clone + Drop> Compared for R {}
