//! A cursor that lends the items of any ring buffer for writing.

ghost use Rattle.std.specs.Prelude.{◌≡◌, ◌+◌, ◌-◌, ◌<◌, ◌↔◌, [], length, min, IsNone, Some, slice_get};
ghost use Rattle.std.specs.Borrow.{sem};
ghost use Rattle.std.specs.Option.{option_copied_mut};
ghost use Rattle.ring_core.specs.Walk.{StartsOver, cursor_to_come};

use crate::ring::RingBuffer;
use std::marker::PhantomData;

/// A cursor over the items of a ring, which lends one item at a time for writing, from either end.
#[derive(Drop)]
pub struct RingBufferMutIterator<'rb, T, RB> {
    ring: &'rb mut RB,
    front: usize,
    back: usize,
    items: PhantomData<T>,
}

impl<'rb, T: Drop, RB: RingBuffer<T>> RingBufferMutIterator<'rb, T, RB> {
    ghost use Rattle.ring_core.specs.Cursor.{lends_back, lends_front};

    /// Returns a cursor over all items of the ring.
    pub fn new(ring: &'rb mut RB) -> Self
        ensures same_reference { result.ring.ghost_name ≡ ring.entry.ghost_name }
        ensures ring { result.ring.now ≡ ring.entry.now }
        ensures starts { StartsOver RB.contents result }
    {
        let back = ring.len();
        RingBufferMutIterator {
            ring,
            front: 0,
            back,
            items: PhantomData,
        }
    }

    /// Lends the first item that is still to come, or returns `None` for good once nothing is left.
    pub fn next(&mut self) -> Option<&mut T>
        ensures* writes_back { sem 𝓛 (lends_front T.row RB.row self.entry RB.with_item result) }
        ensures value { option_copied_mut result
            ≡ slice_get (cursor_to_come RB.contents self.old) 0 }
        ensures none { IsNone result ↔ (cursor_to_come RB.contents self.old ≡ []) }
    {
        let at = self.front;
        if at >= self.back || at >= self.ring.len() {
            return None;
        }
        self.front = at + 1;
        self.ring.get_mut(at)
    }

    /// Lends the last item that is still to come, or returns `None` for good once nothing is left.
    pub fn next_back(&mut self) -> Option<&mut T>
        ensures* writes_back { sem 𝓛
            (lends_back T.row RB.row self.entry RB.contents RB.with_item result) }
        ensures value { option_copied_mut result
            ≡ slice_get (cursor_to_come RB.contents self.old)
            (length (cursor_to_come RB.contents self.old) - 1) }
        ensures none { IsNone result ↔ (cursor_to_come RB.contents self.old ≡ []) }
    {
        let end = self.back.min(self.ring.len());
        if self.front >= end {
            return None;
        }
        self.back = end - 1;
        self.ring.get_mut(end - 1)
    }

    /// Returns the number of items still to come, as both bounds.
    pub fn size_hint(&self) -> (usize, Option<usize>)
        ensures { let left = length (cursor_to_come RB.contents self.now) in
            result ≡ (left, Some left) }
    {
        let left = self.back.min(self.ring.len()).saturating_sub(self.front);
        (left, Some(left))
    }
}
