//! Walks that take the items out of any ring buffer.

ghost use Rattle.std.specs.Prelude.{◌≡◌, ◌-◌, ◌<◌, length, IfSome, Some};
ghost use Rattle.std.specs.Iterator.{UpTo, at_most, item_count};
ghost use Rattle.std.specs.Iterator.SizeHint.{IsWithinCount};
ghost use Rattle.ring_core.specs.Walk.{DrainsFirst, DrainsInOrder, DrainsInReverse, DrainsLast, drain_to_come};

use crate::double_ended::DoubleEndedRing;
use crate::ring::RingBuffer;
use std::iter::FusedIterator;
use std::marker::PhantomData;

/// A walk that takes the items out of a ring, oldest first, and from either end if the ring is a `DoubleEndedRing`. Those
/// that it didn't hand out stay in the ring, in order.
#[derive(Drop)]
pub struct RingBufferDrainingIterator<'rb, T, RB> {
    ring: &'rb mut RB,
    items: PhantomData<T>,
}

impl<'rb, T: Drop, RB: RingBuffer<T>> RingBufferDrainingIterator<'rb, T, RB> {
    /// Returns a walk that takes out what the ring holds.
    pub fn new(ring: &'rb mut RB) -> Self
        ensures same_reference { result.ring.ghost_name ≡ ring.entry.ghost_name }
        ensures ring { result.ring.now ≡ ring.entry.now }
        ensures runs { DrainsInOrder RB.contents RB.limit RB.slot_changes }
        ensures runs_back { DrainsInReverse RB.contents RB.limit RB.slot_changes }
    {
        RingBufferDrainingIterator {
            ring,
            items: PhantomData,
        }
    }
}

impl<'rb, T: Drop, RB: RingBuffer<T>> Iterator for RingBufferDrainingIterator<'rb, T, RB> {
    type Item = T;

    ghost next_gives = { DrainsFirst RB.contents RB.limit RB.slot_changes };

    ghost remaining = { item_count (drain_to_come RB.contents) };

    fn next(&mut self) -> Option<T> {
        self.ring.dequeue()
    }

    fn size_hint(&self) -> (usize, Option<usize>)
        ensures lower { IsWithinCount result.0
            (at_most (length (drain_to_come RB.contents self.now))) }
        ensures upper { IfSome result.1
            (UpTo (at_most (length (drain_to_come RB.contents self.now)))) }
        ensures exact { let left = length (drain_to_come RB.contents self.now) in
            result ≡ (left, Some left) }
    {
        let left = self.ring.len();
        (left, Some(left))
    }
}

impl<'rb, T: Drop, RB: DoubleEndedRing<T>> DoubleEndedIterator
    for RingBufferDrainingIterator<'rb, T, RB> {
    ghost next_back_gives = { DrainsLast RB.contents RB.limit RB.slot_changes };

    fn next_back(&mut self) -> Option<T> {
        self.ring.pop_back()
    }
}

impl<'rb, T: Drop, RB: RingBuffer<T>> ExactSizeIterator for RingBufferDrainingIterator<'rb, T, RB> {
    fn len(&self) -> usize {
        self.ring.len()
    }
}

impl<'rb, T: Drop, RB: RingBuffer<T>> FusedIterator for RingBufferDrainingIterator<'rb, T, RB> {}
