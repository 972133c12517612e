//! Clones of a growable ring.
ghost use Rattle.std.specs.Prelude.{◌≡◌, [], IfOk, IsOk};
ghost use Rattle.std.specs.List.{AllZip};

use super::GrowableAllocRingBuffer;
use std::alloc::AllocError;

impl<T: Clone + Drop> GrowableAllocRingBuffer<T> {
    /// Returns a ring of clones of the items. Takes O(n).
    ///
    /// # Errors
    ///
    /// Where memory or a clone was refused.
    pub fn clone(&self) -> Result<Self, AllocError>
        ensures items { IfOk result (AllZip T.is_clone self.now) }
        ensures empty_succeeds { self.now ≡ [] → IsOk result }
    {
        if self.deque.is_empty() {
            return Ok(Self::new(*self.deque.allocator()));
        }
        Ok(GrowableAllocRingBuffer {
            deque: self.deque.clone()?,
        })
    }
}

/// As the method `clone` of the ring.
impl<T: Clone + Drop> Clone for GrowableAllocRingBuffer<T> {
    ghost is_clone = { AllZip T.is_clone };

    ghost is_infallible = { λ ring. ring ≡ [] };

    #[inline]
    fn clone(&self) -> Result<Self, AllocError> {
        GrowableAllocRingBuffer::clone(self)
    }
}
