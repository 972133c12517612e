//! Walks that own a ring buffer.

ghost use Rattle.std.specs.Prelude.{◌≡◌, ◌+◌, ◌-◌, ◌<◌, length, IfSome, Some};
ghost use Rattle.std.specs.Iterator.{UpTo, at_most, item_count};
ghost use Rattle.std.specs.Iterator.SizeHint.{IsWithinCount};
ghost use Rattle.ring_core.specs.Walk.{UnpacksFirst, UnpacksInOrder, UnpacksInReverse, UnpacksLast, into_iter_to_come};

use crate::double_ended::DoubleEndedRing;
use crate::ring::RingBuffer;
use std::iter::FusedIterator;
use std::marker::PhantomData;

/// A walk over a ring that it owns, oldest item first, and from either end if the ring is a `DoubleEndedRing`. The ring is
/// dropped with it, and what it still holds.
#[derive(Drop)]
pub struct RingBufferIntoIterator<T, RB> {
    ring: RB,
    items: PhantomData<T>,
}

impl<T: Drop, RB: RingBuffer<T>> RingBufferIntoIterator<T, RB> {
    /// Returns a walk over what the ring holds.
    pub fn new(ring: RB) -> Self
        ensures left { into_iter_to_come RB.contents result ≡ RB.contents ring }
        ensures runs { UnpacksInOrder RB.contents RB.limit RB.slot_changes }
        ensures runs_back { UnpacksInReverse RB.contents RB.limit RB.slot_changes }
    {
        RingBufferIntoIterator {
            ring,
            items: PhantomData,
        }
    }
}

impl<T: Drop, RB: RingBuffer<T> + Drop> Iterator for RingBufferIntoIterator<T, RB> {
    type Item = T;

    ghost next_gives = { UnpacksFirst RB.contents RB.limit RB.slot_changes };

    ghost remaining = { item_count (into_iter_to_come RB.contents) };

    fn next(&mut self) -> Option<T> {
        self.ring.dequeue()
    }

    fn size_hint(&self) -> (usize, Option<usize>)
        ensures lower { IsWithinCount result.0
            (at_most (length (into_iter_to_come RB.contents self.now))) }
        ensures upper { IfSome result.1
            (UpTo (at_most (length (into_iter_to_come RB.contents self.now)))) }
        ensures exact { let left = length (into_iter_to_come RB.contents self.now) in
            result ≡ (left, Some left) }
    {
        let left = self.ring.len();
        (left, Some(left))
    }
}

impl<T: Drop, RB: DoubleEndedRing<T> + Drop> DoubleEndedIterator for RingBufferIntoIterator<T, RB> {
    ghost next_back_gives = { UnpacksLast RB.contents RB.limit RB.slot_changes };

    fn next_back(&mut self) -> Option<T> {
        self.ring.pop_back()
    }
}

impl<T: Drop, RB: RingBuffer<T> + Drop> ExactSizeIterator for RingBufferIntoIterator<T, RB> {
    fn len(&self) -> usize {
        self.ring.len()
    }
}

impl<T: Drop, RB: RingBuffer<T> + Drop> FusedIterator for RingBufferIntoIterator<T, RB> {}
