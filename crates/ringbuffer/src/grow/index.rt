//! Indexing a growable ring.
ghost use Rattle.std.specs.Prelude.{◌≡◌, ◌%◌, ◌<◌, Some, length, slice_get};
ghost use Rattle.std.specs.Borrow.{sem};

use super::GrowableAllocRingBuffer;
use ring_core::RingBuffer;
use std::ops::{Index, IndexMut};

impl<T: Drop> Index<usize> for GrowableAllocRingBuffer<T> {
    type Output = T;

    ghost can_index = { λ ring _. 0 < length ring };

    ghost index_gives = { λ ring i x. (Some x ≡ slice_get ring (i % length ring))
        × (i < length ring → Some x ≡ slice_get ring i) };

    /// Returns the item at a position. The ring must hold one.
    fn index(&self, index: usize) -> &T {
        self.get(index).unwrap()
    }
}

impl<T: Drop> IndexMut<usize> for GrowableAllocRingBuffer<T> {
    ghost use Rattle.ringbuffer.specs.grow.Lends.{lends_item};

    /// Lends the item at a position for writing. The ring must hold one.
    fn index_mut(&mut self, index: usize) -> &mut T
        requires { 0 < length self.old }
        ensures* writes_back { sem 𝓛 (lends_item T.row self.entry index result) }
        ensures value { Some result.now ≡ slice_get self.old (index % length self.old) }
        ensures in_range { index < length self.old → index % length self.old ≡ index }
    {
        self.get_mut(index).unwrap()
    }
}
