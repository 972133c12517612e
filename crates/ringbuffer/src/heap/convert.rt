//! Heap rings made of other collections. Each function names its source, whose items keep their order.
ghost use Rattle.std.specs.Prelude.{◌≡◌, ◌<◌, All, IfOk, IsSome, List, Some, chars, length, string_bytes};
ghost use Rattle.std.specs.Iterator.{Drains, IsFiniteIterable};
ghost use Rattle.ring_core.specs.Contents.{keep_last};
ghost use Rattle.ringbuffer.specs.Somes.{somes};
ghost use Rattle.ringbuffer.specs.Conversion.{ClonesMeet, HoldsAll};

use crate::convert::extend_somes;
use crate::fixed::FixedRing;
use crate::grow::GrowableAllocRingBuffer;
use crate::heap::AllocRingBuffer;
use ring_core::RingBuffer;
use ring_slots::RingSlots;
use std::alloc::{AllocError, Global};
use std::collections::{LinkedList, VecDeque};

impl<T: Drop> AllocRingBuffer<T> {
    /// Makes a ring of this capacity that holds the last items of a source.
    fn holding<I: IntoIterator<Item = T> + Drop>(
        alloc: Global,
        capacity: usize,
        items: I,
    ) -> Result<Self, AllocError>
    where
        I::IntoIter: Drop,
        requires capacity { 0 < capacity }
        requires ends { IsFiniteIterable I.into_iter_gives I.IntoIter.can_next I.IntoIter.remaining
            items }
        ensures { IfOk result
            (λ ring. (it : I.IntoIter) × (xs : List T) × I.into_iter_gives items it
            × Drains I.IntoIter.next_gives it xs × (ring.items ≡ keep_last (Some capacity) xs)
            × (ring.capacity ≡ capacity)) }
    {
        let mut ring = Self::new(alloc, capacity)?;
        let _ = ring.extend(items);
        Ok(ring)
    }

    /// Makes a ring of the items of an array, moved out of their places, which must all hold one. Their number is the
    /// ring's capacity.
    ///
    /// # Errors
    ///
    /// Where memory was refused. The items are dropped.
    pub fn from_array<const N: usize>(
        alloc: Global,
        items: [Option<T>; N],
    ) -> Result<Self, AllocError>
        requires capacity { 0 < N }
        requires some { All IsSome items }
        ensures { IfOk result (HoldsAll (somes items)) }
    {
        let mut ring = Self::new(alloc, N)?;
        let _ = extend_somes(&mut ring, items);
        Ok(ring)
    }

    /// Makes a ring of the items of a vector, of which there must be one. Their number is the ring's capacity.
    ///
    /// # Errors
    ///
    /// Where memory was refused. The items are dropped.
    pub fn from_vec(alloc: Global, items: Vec<T>) -> Result<Self, AllocError>
        requires { 0 < length items.items }
        ensures { IfOk result (HoldsAll items.items) }
    {
        Self::holding(alloc, items.len(), items)
    }

    /// Makes a ring of the items of a deque, of which there must be one. Their number is the ring's capacity.
    ///
    /// # Errors
    ///
    /// Where memory was refused. The items are dropped.
    pub fn from_deque(alloc: Global, items: VecDeque<T>) -> Result<Self, AllocError>
        requires { 0 < length items.items }
        ensures { IfOk result (HoldsAll items.items) }
    {
        Self::from_vec(alloc, items.into_vec())
    }

    /// Makes a ring of the items of a linked list, of which there must be one. Their number is the ring's capacity.
    ///
    /// # Errors
    ///
    /// Where memory was refused. The items are dropped.
    pub fn from_linked_list(alloc: Global, items: LinkedList<T>) -> Result<Self, AllocError>
        requires { 0 < length items }
        ensures { IfOk result (HoldsAll items) }
    {
        Self::holding(alloc, items.len(), items)
    }

    /// Makes a ring of the items of a growable ring, of which there must be one. Their number is the ring's capacity.
    ///
    /// # Errors
    ///
    /// Where memory was refused. The items are dropped.
    pub fn from_growable(
        alloc: Global,
        ring: GrowableAllocRingBuffer<T>,
    ) -> Result<Self, AllocError>
        requires { 0 < length ring }
        ensures { IfOk result (HoldsAll ring) }
    {
        Self::from_deque(alloc, ring.into_deque())
    }

    /// Makes a ring of the items of an array ring, of which there must be one. Their number is the ring's capacity.
    ///
    /// # Errors
    ///
    /// Where memory was refused. The items are dropped.
    pub fn from_const<S: RingSlots<T>>(
        alloc: Global,
        ring: FixedRing<T, S>,
    ) -> Result<Self, AllocError>
        requires { 0 < length ring.items }
        ensures { IfOk result (HoldsAll ring.items) }
    {
        Self::holding(alloc, ring.len(), ring)
    }
}

impl AllocRingBuffer<char> {
    /// Makes a ring of the characters of a text that isn't empty. The ring's capacity is the number of the text's
    /// bytes.
    ///
    /// # Errors
    ///
    /// Where memory was refused.
    pub fn from_text(alloc: Global, text: &str) -> Result<Self, AllocError>
        requires { 0 < length text.now }
        ensures items { IfOk result (λ ring. ring.items ≡ chars text.now) }
        ensures capacity { IfOk result (λ ring. ring.capacity ≡ length text.now) }
    {
        Self::holding(alloc, text.len(), text.chars())
    }

    /// Makes a ring of the characters of a string that isn't empty. The ring's capacity is the number of the string's
    /// bytes.
    ///
    /// # Errors
    ///
    /// Where memory was refused.
    pub fn from_string(alloc: Global, text: String) -> Result<Self, AllocError>
        requires { 0 < length (string_bytes text) }
        ensures items { IfOk result (λ ring. ring.items ≡ chars (string_bytes text)) }
        ensures capacity { IfOk result (λ ring. ring.capacity ≡ length (string_bytes text)) }
    {
        Self::from_text(alloc, text.as_str())
    }
}

impl<T: Clone + Drop> AllocRingBuffer<T> {
    /// Makes a ring of clones of the items of a slice, of which there must be one. Their number is the ring's capacity.
    ///
    /// # Errors
    ///
    /// Where memory or a clone was refused.
    pub fn from_slice(alloc: Global, items: &[T]) -> Result<Self, AllocError>
        requires { 0 < length items.now }
        ensures { IfOk result (λ ring. ClonesMeet T.is_clone items.now (λ ys. HoldsAll ys ring)) }
    {
        let mut ring = Self::new(alloc, items.len())?;
        ring.fill_from_slices(items, &[])?;
        Ok(ring)
    }

    /// Makes a ring of the items of a slice lent for writing, as `from_slice`. The slice is as it was.
    ///
    /// # Errors
    ///
    /// As `from_slice`.
    pub fn from_mut_slice(alloc: Global, items: &mut [T]) -> Result<Self, AllocError>
        requires { 0 < length items.old }
        ensures items { IfOk result
            (λ ring. ClonesMeet T.is_clone items.old (λ ys. HoldsAll ys ring)) }
        ensures unchanged { items.new ≡ items.old }
    {
        Self::from_slice(alloc, items)
    }

    /// Makes a ring of clones of the items of an array, of which there must be one. Their number is the ring's
    /// capacity.
    ///
    /// # Errors
    ///
    /// As `from_slice`.
    pub fn from_array_ref<const N: usize>(alloc: Global, items: &[T; N]) -> Result<Self, AllocError>
        requires { 0 < N }
        ensures { IfOk result (λ ring. ClonesMeet T.is_clone items.now (λ ys. HoldsAll ys ring)) }
    {
        Self::from_slice(alloc, items)
    }

    /// Makes a ring of the items of an array lent for writing, as `from_array_ref`. The array is as it was.
    ///
    /// # Errors
    ///
    /// As `from_slice`.
    pub fn from_mut_array<const N: usize>(
        alloc: Global,
        items: &mut [T; N],
    ) -> Result<Self, AllocError>
        requires { 0 < N }
        ensures items { IfOk result
            (λ ring. ClonesMeet T.is_clone items.old (λ ys. HoldsAll ys ring)) }
        ensures unchanged { items.new ≡ items.old }
    {
        Self::from_slice(alloc, items)
    }
}
