//! Walks over a ring of a fixed capacity.
ghost use Rattle.std.specs.Prelude.{◌≡◌};
ghost use Rattle.ring_core.specs.Walk.{ReadsInOrder, UnpacksInOrder, UnpacksInReverse, into_iter_to_come, iterator_to_come};

use crate::fixed::FixedRing;
use ring_core::{RingBuffer, RingBufferExt, RingBufferIntoIterator, RingBufferIterator};
use ring_slots::RingSlots;
use std::fmt::{self, Debug, Formatter, Write};

impl<T: Drop, S: RingSlots<T>> FixedRing<T, S> {
    /// Turns the ring into a walk that owns it, oldest item first, from either end.
    #[inline]
    pub fn into_iter(self) -> RingBufferIntoIterator<T, Self>
        ensures left { into_iter_to_come ⟦<FixedRing<T, S> as RingBuffer<T>>⟧.contents
            result ≡ self.items }
        ensures runs { UnpacksInOrder ⟦<FixedRing<T, S> as RingBuffer<T>>⟧.contents
            ⟦<FixedRing<T, S> as RingBuffer<T>>⟧.limit
            ⟦<FixedRing<T, S> as RingBuffer<T>>⟧.slot_changes }
        ensures runs_back { UnpacksInReverse ⟦<FixedRing<T, S> as RingBuffer<T>>⟧.contents
            ⟦<FixedRing<T, S> as RingBuffer<T>>⟧.limit
            ⟦<FixedRing<T, S> as RingBuffer<T>>⟧.slot_changes }
    {
        RingBufferIntoIterator::new(self)
    }
}

impl<T: Drop, S: RingSlots<T>> IntoIterator for FixedRing<T, S> {
    type Item = T;

    type IntoIter = RingBufferIntoIterator<T, FixedRing<T, S>>;

    ghost into_iter_gives = { λ ring r.
        (into_iter_to_come ⟦<FixedRing<T, S> as RingBuffer<T>>⟧.contents r
        ≡ ring.items)
        × UnpacksInOrder ⟦<FixedRing<T, S> as RingBuffer<T>>⟧.contents
        ⟦<FixedRing<T, S> as RingBuffer<T>>⟧.limit
        ⟦<FixedRing<T, S> as RingBuffer<T>>⟧.slot_changes };

    #[inline]
    fn into_iter(self) -> RingBufferIntoIterator<T, FixedRing<T, S>> {
        self.into_iter()
    }
}

impl<'a, T: Drop, S: RingSlots<T>> IntoIterator for &'a FixedRing<T, S> {
    type Item = &'a T;

    type IntoIter = RingBufferIterator<'a, T, FixedRing<T, S>>;

    ghost into_iter_gives = { λ ring r.
        (iterator_to_come ⟦<FixedRing<T, S> as RingBuffer<T>>⟧.contents r
        ≡ ring.now.items)
        × ReadsInOrder ⟦<FixedRing<T, S> as RingBuffer<T>>⟧.contents };

    #[inline]
    fn into_iter(self) -> RingBufferIterator<'a, T, FixedRing<T, S>> {
        self.iter()
    }
}

impl<T: Debug + Drop, S: RingSlots<T>> Debug for FixedRing<T, S> {
    fn fmt<W: Write>(&self, f: &mut Formatter<W>) -> fmt::Result {
        f.debug_list().entries(self).finish()
    }
}
