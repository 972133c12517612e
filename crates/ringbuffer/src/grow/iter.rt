//! Walks over a growable ring.
ghost use Rattle.std.specs.Prelude.{◌≡◌};
ghost use Rattle.ring_core.specs.Walk.{ReadsInOrder, UnpacksInOrder, UnpacksInReverse, into_iter_to_come, iterator_to_come};

use super::GrowableAllocRingBuffer;
use ring_core::{RingBuffer, RingBufferExt, RingBufferIntoIterator, RingBufferIterator};
use std::fmt::{self, Debug, Formatter, Write};

impl<T: Drop> GrowableAllocRingBuffer<T> {
    /// Turns the ring into a walk that owns it, oldest item first, from either end.
    #[inline]
    pub fn into_iter(self) -> RingBufferIntoIterator<T, Self>
        ensures left { into_iter_to_come ⟦<GrowableAllocRingBuffer<T> as RingBuffer<T>>⟧.contents result
            ≡ self }
        ensures runs { UnpacksInOrder ⟦<GrowableAllocRingBuffer<T> as RingBuffer<T>>⟧.contents
            ⟦<GrowableAllocRingBuffer<T> as RingBuffer<T>>⟧.limit
            ⟦<GrowableAllocRingBuffer<T> as RingBuffer<T>>⟧.slot_changes }
        ensures runs_back { UnpacksInReverse ⟦<GrowableAllocRingBuffer<T> as RingBuffer<T>>⟧.contents
            ⟦<GrowableAllocRingBuffer<T> as RingBuffer<T>>⟧.limit
            ⟦<GrowableAllocRingBuffer<T> as RingBuffer<T>>⟧.slot_changes }
    {
        RingBufferIntoIterator::new(self)
    }
}

impl<T: Drop> IntoIterator for GrowableAllocRingBuffer<T> {
    type Item = T;

    type IntoIter = RingBufferIntoIterator<T, GrowableAllocRingBuffer<T>>;

    ghost into_iter_gives = { λ ring r.
        (into_iter_to_come ⟦<GrowableAllocRingBuffer<T> as RingBuffer<T>>⟧.contents r
        ≡ ring)
        × UnpacksInOrder ⟦<GrowableAllocRingBuffer<T> as RingBuffer<T>>⟧.contents
        ⟦<GrowableAllocRingBuffer<T> as RingBuffer<T>>⟧.limit
        ⟦<GrowableAllocRingBuffer<T> as RingBuffer<T>>⟧.slot_changes };

    #[inline]
    fn into_iter(self) -> RingBufferIntoIterator<T, GrowableAllocRingBuffer<T>> {
        self.into_iter()
    }
}

impl<'a, T: Drop> IntoIterator for &'a GrowableAllocRingBuffer<T> {
    type Item = &'a T;

    type IntoIter = RingBufferIterator<'a, T, GrowableAllocRingBuffer<T>>;

    ghost into_iter_gives = { λ ring r.
        (iterator_to_come ⟦<GrowableAllocRingBuffer<T> as RingBuffer<T>>⟧.contents r
        ≡ ring.now)
        × ReadsInOrder ⟦<GrowableAllocRingBuffer<T> as RingBuffer<T>>⟧.contents };

    #[inline]
    fn into_iter(self) -> RingBufferIterator<'a, T, GrowableAllocRingBuffer<T>> {
        self.iter()
    }
}

impl<T: Debug + Drop> Debug for GrowableAllocRingBuffer<T> {
    fn fmt<W: Write>(&self, f: &mut Formatter<W>) -> fmt::Result {
        f.debug_list().entries(self).finish()
    }
}
