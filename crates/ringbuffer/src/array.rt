//! The ring in an array.
ghost use Rattle.std.specs.Prelude.{◌≡◌, ◌<◌, [], IfOk, IsOk};
ghost use Rattle.std.specs.List.{AllZip};
ghost use Rattle.ringbuffer.specs.Clones.{ClonesFirst};
ghost use Rattle.ringbuffer.specs.View.{after_fill};

mod convert;

use crate::fixed::FixedRing;
use ring_core::RingBuffer;
use ring_slots::ArraySlots;
use std::alloc::AllocError;

/// A ring of at most `CAP` items, which lie in the value itself. It takes no memory of its own.
pub type ConstGenericRingBuffer<T, const CAP: usize> = FixedRing<T, ArraySlots<T, CAP>>;

impl<T: Drop, const CAP: usize> ConstGenericRingBuffer<T, CAP> {
    /// Makes an empty ring. Takes O(`CAP`).
    ///
    /// ```rust
    /// let mut ring = ConstGenericRingBuffer::<u32, 2>::new();
    /// let _ = ring.push(5);
    /// ```
    pub fn new() -> Self
        requires { 0 < CAP }
        ensures { result ≡ record { items = []; changes = 0; capacity = CAP } }
    {
        FixedRing::over(ArraySlots::new())
    }

    /// Makes an empty ring.
    pub fn default() -> Self
        requires { 0 < CAP }
        ensures { result ≡ record { items = []; changes = 0; capacity = CAP } }
    {
        Self::new()
    }
}

impl<T: Clone + Drop, const CAP: usize> ConstGenericRingBuffer<T, CAP> {
    /// Returns a ring of clones of the items. Takes O(`CAP`).
    ///
    /// # Errors
    ///
    /// Where a clone was refused.
    pub fn clone(&self) -> Result<Self, AllocError>
        ensures items { IfOk result (λ ring. AllZip T.is_clone self.now.items ring.items) }
        ensures succeeds { ((x : T) → T.is_infallible x) → IsOk result }
        ensures empty_succeeds { self.now.items ≡ [] → IsOk result }
    {
        // For the proof: the contents are within the limit.
        let _ = self.len();
        let mut ring = Self::new();
        self.clone_into(&mut ring)?;
        Ok(ring)
    }

    /// Drops all items of `other`, and pushes clones of the items onto it. Unlike `clone` it makes no second array. Takes O(n)
    /// in the items of both.
    ///
    /// ```rust
    /// ring.clone_into(kept).unwrap();
    /// ```
    ///
    /// # Errors
    ///
    /// Where a clone was refused. Then `other` holds the clones before it alone.
    pub fn clone_into(&self, other: &mut Self) -> Result<(), AllocError>
        ensures { ClonesFirst T.is_clone T.is_infallible self.now.items result
            (λ ys. other.new ≡ after_fill other.old ys) }
    {
        // For the proof: the contents are within the limit.
        let _ = self.len();
        self.clone_onto(other)
    }
}

/// As the method `clone` of the ring.
impl<T: Clone + Drop, const CAP: usize> Clone for ConstGenericRingBuffer<T, CAP> {
    ghost is_clone = { λ ring made. AllZip T.is_clone ring.items made.items };

    ghost is_infallible = { λ _. (x : T) → T.is_infallible x };

    #[inline]
    fn clone(&self) -> Result<Self, AllocError> {
        ConstGenericRingBuffer::clone(self)
    }
}
