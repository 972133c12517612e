//! The ring on the heap.
ghost use Rattle.std.specs.Prelude.{◌≡◌, ◌≢◌, ◌^◌, ◌<◌, [], IfOk, IsErr, IsOk, OnErr, OnOk, Some, length};
ghost use Rattle.std.specs.List.{AllZip};
ghost use Rattle.ring_core.specs.Contents.{ChangesSlots, keep_last};

mod convert;

use crate::fixed::FixedRing;
use ring_core::{RingBuffer, move_all};
use ring_slots::{HeapSlots, RingSlots};
use std::alloc::{AllocError, Global};

/// A ring of at most `capacity` items, which lie in one block of memory: as many slots as the least power of two that
/// is at least the capacity. The block is asked for when the ring is made, and no call asks for more.
pub type AllocRingBuffer<T> = FixedRing<T, HeapSlots<T>>;

impl<T: Drop> AllocRingBuffer<T> {
    /// Makes an empty ring of this capacity.
    ///
    /// ```rust
    /// let mut ring = AllocRingBuffer::new(alloc, 2)?;
    /// ```
    ///
    /// # Errors
    ///
    /// Where memory was refused or the bytes can't be asked for, and for every capacity above the greatest power of two.
    pub fn new(alloc: Global, capacity: usize) -> Result<Self, AllocError>
        requires { 0 < capacity }
        ensures made { IfOk result
            (λ ring. ring ≡ record { items = []; changes = 0; capacity = capacity }) }
        ensures too_large { 2 ^ 63 < capacity → IsErr result }
    {
        let slots = HeapSlots::new(alloc, capacity)?;
        Ok(FixedRing::over(slots))
    }

    /// Calls `new`.
    ///
    /// # Errors
    ///
    /// As `new`.
    pub fn with_capacity(alloc: Global, capacity: usize) -> Result<Self, AllocError>
        requires { 0 < capacity }
        ensures made { IfOk result
            (λ ring. ring ≡ record { items = []; changes = 0; capacity = capacity }) }
        ensures too_large { 2 ^ 63 < capacity → IsErr result }
    {
        Self::new(alloc, capacity)
    }

    /// Makes an empty ring of capacity 2 to the power of `exponent`.
    ///
    /// # Errors
    ///
    /// As `new`.
    pub fn with_capacity_power_of_2(alloc: Global, exponent: usize) -> Result<Self, AllocError>
        requires { exponent < 64 }
        ensures { IfOk result
            (λ ring. ring ≡ record { items = []; changes = 0; capacity = 2 ^ exponent }) }
    {
        Self::new(alloc, 1 << exponent)
    }

    /// Moves the items into memory for another capacity, and keeps the newest if they are more. The count of slot changes
    /// begins anew. Takes O(n). For the capacity that is there it does nothing.
    ///
    /// # Errors
    ///
    /// Where memory was refused or the bytes can't be asked for, and for every capacity above the greatest power of two.
    /// The ring stays as it was.
    pub fn set_capacity(&mut self, capacity: usize) -> Result<(), AllocError>
        requires { 0 < capacity }
        ensures items { OnOk result (self.new.items ≡ keep_last (Some capacity) self.old.items) }
        ensures capacity { OnOk result (self.new.capacity ≡ capacity) }
        ensures changes { OnOk result (capacity ≢ self.old.capacity
            → ChangesSlots 0 [] self.new.changes self.new.items (length self.old.items)) }
        ensures same { capacity ≡ self.old.capacity → IsOk result × (self.new ≡ self.old) }
        ensures err { OnErr result (self.new ≡ self.old) }
        ensures too_large { 2 ^ 63 < capacity → IsErr result }
    {
        if capacity == self.slots.limit() {
            // For the proof: no capacity is above the greatest power of two that fits a word.
            let _ = self.slots.size();
            return Ok(());
        }
        let mut other = Self::new(self.slots.allocator(), capacity)?;
        let _ = move_all(&mut other, self);
        *self = other;
        Ok(())
    }
}

impl<T: Clone + Drop> AllocRingBuffer<T> {
    /// Returns a ring of the same capacity, of clones of the items. Takes O(n).
    ///
    /// # Errors
    ///
    /// Where memory or a clone was refused.
    pub fn clone(&self) -> Result<Self, AllocError>
        ensures items { IfOk result (λ ring. AllZip T.is_clone self.now.items ring.items) }
        ensures capacity { IfOk result (λ ring. ring.capacity ≡ self.now.capacity) }
    {
        // For the proof: the contents are within the limit.
        let _ = self.len();
        let mut ring = Self::new(self.slots.allocator(), self.capacity())?;
        self.clone_onto(&mut ring)?;
        Ok(ring)
    }
}

/// As the method `clone` of the ring.
impl<T: Clone + Drop> Clone for AllocRingBuffer<T> {
    ghost is_clone = { λ ring made. AllZip T.is_clone ring.items made.items
        × (made.capacity ≡ ring.capacity) };

    #[inline]
    fn clone(&self) -> Result<Self, AllocError> {
        AllocRingBuffer::clone(self)
    }
}
