//! Fills.

use super::{assert_equal, assert_holds, push_all};
use ring_test_support::steps::Step::{DequeueAll, Fill, FillDefault, Len, PushAll};
use ring_test_support::steps::{Step, first_fault};
use ring_test_support::{on_fixed, on_ring};
use ringbuffer::{AllocRingBuffer, DoubleEndedRing, RingBuffer};
use std::alloc::AllocError;
use std::process::Abort;

/// Fills of a ring of four, and the items that are then there.
const FILLS: &[(Step, &[i64])] = &[(FillDefault, &[0, 0, 0, 0]), (Fill(3), &[3, 3, 3, 3])];

#[test]
fn a_fill_fills_from_any_length(rt: HostRuntime) {
    on_fixed!(&rt, 4, assert_fills);
}

#[test]
fn a_fill_clones_vectors(rt: HostRuntime) -> Result<(), AllocError> {
    let one = vec![in rt.alloc(); 1]?;
    let two = vec![in rt.alloc(); 2]?;
    let filling = vec![in rt.alloc(); 2]?;
    let mut ring = AllocRingBuffer::from_array(rt.alloc(), [Some(one), Some(two)])?;
    assert!(&rt; ring.fill(filling).is_ok());
    for _ in 0..2 {
        let found = ring.dequeue().expect(&rt, "an item");
        assert_equal(&rt, found.as_slice(), &[2]);
    }
    assert!(&rt; ring.is_empty());
    Ok(())
}

/// Fills by counting up from zero. Returns how often the closure was called.
fn fill_by_counts<R: RingBuffer<i64>>(rt: &impl Abort, ring: &mut R) -> i64 {
    let mut calls = 0i64;
    let filled = ring.fill_with(|| {
        let answer = calls;
        calls = answer.wrapping_add(1);
        answer
    });
    assert!(rt; filled.is_ok());
    calls
}

#[test]
fn a_fill_takes_the_answers_of_its_closure(rt: HostRuntime) {
    on_fixed!(&rt, 3, assert_filled_by_counts, &[7, 8]);
    on_fixed!(&rt, 3, assert_filled_by_counts, &[9]);
    on_fixed!(&rt, 4, assert_filled_by_turns);
}

/// Asserts that a growable ring is full exactly where its length is its capacity, and has as many slots.
fn assert_agrees<R: RingBuffer<i64>>(rt: &impl Abort, ring: &R) {
    assert_equal(rt, ring.is_full(), ring.len() == ring.capacity());
    assert_equal(rt, ring.buffer_size(), ring.capacity());
}

#[test]
fn a_growable_ring_is_filled_to_its_capacity(rt: HostRuntime) {
    on_ring!(growable, &rt, 4, assert_filled_to_capacity);
    on_ring!(growable, &rt, 100, assert_filled_to_capacity);
    on_ring!(growable, &rt, 1000, assert_filled_to_capacity);
}

/// A ring that is filled.
trait Filled: DoubleEndedRing<i64> + Drop {
    /// Fills a ring of four over none to three items.
    fn assert_fills(mut self, rt: &impl Abort) {
        let over: [&'static [i64]; 4] = [&[], &[1], &[1, 1], &[1, 1, 1]];
        for (fill, filled) in FILLS {
            for held in over {
                let steps = [PushAll(held), *fill, Len(4), DequeueAll(filled)];
                assert_equal(rt, (held, first_fault(&mut self, &steps)), (held, None));
            }
        }
    }

    fn assert_filled_by_counts(mut self, rt: &impl Abort, held: &[i64]) {
        push_all(rt, &mut self, held);
        assert_equal(rt, fill_by_counts(rt, &mut self), 3);
        assert!(rt; self.is_full());
        assert_holds(rt, &self, &[0, 1, 2]);
    }

    fn assert_filled_by_turns(mut self, rt: &impl Abort) {
        let (mut calls, mut last) = (0i64, 0i64);
        let filled = self.fill_with(|| {
            calls = calls.wrapping_add(1);
            last = 1i64.wrapping_sub(last);
            last
        });
        assert!(rt; filled.is_ok() && calls == 4);
        assert_holds(rt, &self, &[1, 0, 1, 0]);
    }

    fn assert_filled_to_capacity(mut self, rt: &impl Abort) {
        push_all(rt, &mut self, &[1, 2, 3]);
        let capacity = self.capacity();
        assert!(rt; capacity >= 3);
        assert_agrees(rt, &self);
        let calls = fill_by_counts(rt, &mut self);
        assert_equal(rt, self.len(), capacity);
        assert_agrees(rt, &self);
        for number in 0..calls {
            assert_equal(rt, self.dequeue(), Some(number));
        }
        assert!(rt; self.is_empty());
    }
}

impl<R: DoubleEndedRing<i64> + Drop> Filled for R {}
