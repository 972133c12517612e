//! The ring in an array of plain items.
ghost use Rattle.std.specs.Prelude.{◌≡◌, ◌<◌, []};
ghost use Rattle.ringbuffer.specs.View.{after_fill};

mod convert;

use crate::fixed::FixedRing;
use ring_core::RingBuffer;
use ring_slots::CopySlots;
use std::alloc::AllocError;

/// A ring of at most `CAP` items that can be copied, which lie in the value itself, side by side and with no mark beside
/// them. It takes no memory of its own. An item that leaves stays in its cell until another is written there.
pub type CopyRingBuffer<T, const CAP: usize> = FixedRing<T, CopySlots<T, CAP>>;

impl<T: Copy + Drop, const CAP: usize> CopyRingBuffer<T, CAP> {
    /// Makes an empty ring, in whose cells an item lies that nobody sees. Takes O(`CAP`).
    ///
    /// ```rust
    /// let mut ring = CopyRingBuffer::<u32, 2>::new(0);
    /// let _ = ring.push(5);
    /// ```
    pub fn new(filler: T) -> Self
        requires { 0 < CAP }
        ensures { result ≡ record { items = []; changes = 0; capacity = CAP } }
    {
        FixedRing::over(CopySlots::new(filler))
    }

    /// Makes an empty ring, whose filler is the default item.
    pub fn default() -> Self
    where
        T: Default,
        requires { 0 < CAP }
        ensures { result ≡ record { items = []; changes = 0; capacity = CAP } }
    {
        Self::new(T::default())
    }

    /// Returns a ring of copies of the items, whose slots have changed as often. Takes O(`CAP`).
    pub fn copied(&self) -> Self
        ensures { result ≡ self.now }
    {
        FixedRing::from_parts(self.slots.copied(), self.span)
    }

    /// Drops all items of `other`, and pushes copies of the items onto it. Unlike `copied` it makes no second array. Takes
    /// O(n) in the items of both.
    pub fn copy_into(&self, other: &mut Self)
        ensures { other.new ≡ after_fill other.old self.now.items }
    {
        // For the proof: the contents are within the limit.
        let _ = self.len();
        let (first, second) = self.as_slices();
        other.truncate(0);
        other.extend_from_slice(first);
        other.extend_from_slice(second);
    }
}

/// As the method `copied` of the ring. It is never refused.
impl<T: Copy + Drop, const CAP: usize> Clone for CopyRingBuffer<T, CAP> {
    ghost is_clone = { λ ring made. made ≡ ring };

    ghost is_infallible = { λ _. Unit {0} };

    #[inline]
    fn clone(&self) -> Result<Self, AllocError> {
        Ok(self.copied())
    }
}
