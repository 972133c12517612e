//! Growable rings made of other collections. Each function names its source, whose items keep their order.
ghost use Rattle.std.specs.Prelude.{◌≡◌, [], All, IfOk, IsOk, IsSome, List, OnErr, Some, chars, string_bytes};
ghost use Rattle.std.specs.Iterator.{Drains, IsFiniteIterable, YieldsThen};
ghost use Rattle.std.specs.List.{AllZip};
ghost use Rattle.ringbuffer.specs.Somes.{somes};

use crate::convert::{extend_cloned, extend_somes};
use crate::fixed::FixedRing;
use crate::grow::GrowableAllocRingBuffer;
use crate::heap::AllocRingBuffer;
use ring_core::RingBuffer;
use ring_slots::RingSlots;
use std::alloc::{AllocError, Global};
use std::collections::{LinkedList, VecDeque};

impl<T: Drop> GrowableAllocRingBuffer<T> {
    /// Makes a ring of a source's items, in order.
    ///
    /// # Errors
    ///
    /// Where memory was refused. The items are dropped.
    pub fn from_iter<I: IntoIterator<Item = T>>(alloc: Global, items: I) -> Result<Self, AllocError>
    where
        I::IntoIter: Drop,
        requires { IsFiniteIterable I.into_iter_gives I.IntoIter.can_next I.IntoIter.remaining
            items }
        ensures items { IfOk result
            (λ ring. (it : I.IntoIter) × I.into_iter_gives items it
            × Drains I.IntoIter.next_gives it ring) }

        // A source of nothing is not refused.
        ensures refused { OnErr result
            ((it : I.IntoIter) × (xs : List T) × (x : T) × (after : I.IntoIter)
            × I.into_iter_gives items it × YieldsThen I.IntoIter.next_gives it xs (Some x) after) }
    {
        let mut ring = Self::new(alloc);
        ring.extend(items)?;
        Ok(ring)
    }

    /// Makes a ring of the items of an array, moved out of their places, which must all hold one.
    ///
    /// # Errors
    ///
    /// Where memory was refused. The items are dropped.
    pub fn from_array<const N: usize>(
        alloc: Global,
        items: [Option<T>; N],
    ) -> Result<Self, AllocError>
        requires { All IsSome items }
        ensures items { IfOk result (λ ring. ring ≡ somes items) }
        ensures empty_succeeds { N ≡ 0 → IsOk result }
    {
        let mut ring = Self::new(alloc);
        extend_somes(&mut ring, items)?;
        Ok(ring)
    }

    /// Makes a ring of the items of a vector, in its memory. It is never refused.
    pub fn from_vec(_alloc: Global, items: Vec<T>) -> Result<Self, AllocError>
        ensures ok { IsOk result }
        ensures items { IfOk result (λ ring. ring ≡ items.items) }
    {
        Ok(GrowableAllocRingBuffer {
            deque: VecDeque::from(items),
        })
    }

    /// Makes a ring of the items of a linked list.
    ///
    /// # Errors
    ///
    /// Where memory was refused. The items are dropped.
    pub fn from_linked_list(alloc: Global, items: LinkedList<T>) -> Result<Self, AllocError>
        ensures { IfOk result (λ ring. ring ≡ items) }
    {
        Self::from_iter(alloc, items)
    }

    /// Makes a ring of the items of a heap ring.
    ///
    /// # Errors
    ///
    /// Where memory was refused. The items are dropped.
    pub fn from_alloc(alloc: Global, ring: AllocRingBuffer<T>) -> Result<Self, AllocError>
        ensures { IfOk result (λ made. made ≡ ring.items) }
    {
        Self::from_iter(alloc, ring)
    }

    /// Makes a ring of the items of an array ring.
    ///
    /// # Errors
    ///
    /// Where memory was refused. The items are dropped.
    pub fn from_const<S: RingSlots<T>>(
        alloc: Global,
        ring: FixedRing<T, S>,
    ) -> Result<Self, AllocError>
        ensures { IfOk result (λ made. made ≡ ring.items) }
    {
        Self::from_iter(alloc, ring)
    }
}

impl GrowableAllocRingBuffer<char> {
    /// Makes a ring of the characters of a text.
    ///
    /// # Errors
    ///
    /// Where memory was refused.
    pub fn from_text(alloc: Global, text: &str) -> Result<Self, AllocError>
        ensures { IfOk result (λ ring. ring ≡ chars text.now) }
    {
        Self::from_iter(alloc, text.chars())
    }

    /// Makes a ring of the characters of a string.
    ///
    /// # Errors
    ///
    /// Where memory was refused.
    pub fn from_string(alloc: Global, text: String) -> Result<Self, AllocError>
        ensures { IfOk result (λ ring. ring ≡ chars (string_bytes text)) }
    {
        Self::from_text(alloc, text.as_str())
    }
}

impl<T: Clone + Drop> GrowableAllocRingBuffer<T> {
    /// Makes a ring of clones of the items of a slice.
    ///
    /// # Errors
    ///
    /// Where memory or a clone was refused.
    pub fn from_slice(alloc: Global, items: &[T]) -> Result<Self, AllocError>
        ensures items { IfOk result (AllZip T.is_clone items.now) }
        ensures empty_succeeds { items.now ≡ [] → IsOk result }
    {
        if items.is_empty() {
            return Ok(Self::new(alloc));
        }
        Self::from_vec(alloc, items.to_vec(alloc)?)
    }

    /// Makes a ring of the items of a slice lent for writing, as `from_slice`. The slice is as it was.
    ///
    /// # Errors
    ///
    /// As `from_slice`.
    pub fn from_mut_slice(alloc: Global, items: &mut [T]) -> Result<Self, AllocError>
        ensures items { IfOk result (AllZip T.is_clone items.old) }
        ensures empty_succeeds { items.old ≡ [] → IsOk result }
        ensures unchanged { items.new ≡ items.old }
    {
        Self::from_slice(alloc, items)
    }

    /// Makes a ring of clones of the items of an array.
    ///
    /// # Errors
    ///
    /// As `from_slice`.
    pub fn from_array_ref<const N: usize>(alloc: Global, items: &[T; N]) -> Result<Self, AllocError>
        ensures items { IfOk result (AllZip T.is_clone items.now) }
        ensures empty_succeeds { N ≡ 0 → IsOk result }
    {
        Self::from_slice(alloc, items)
    }

    /// Makes a ring of the items of an array lent for writing, as `from_array_ref`. The array is as it was.
    ///
    /// # Errors
    ///
    /// As `from_slice`.
    pub fn from_mut_array<const N: usize>(
        alloc: Global,
        items: &mut [T; N],
    ) -> Result<Self, AllocError>
        ensures items { IfOk result (AllZip T.is_clone items.old) }
        ensures empty_succeeds { N ≡ 0 → IsOk result }
        ensures unchanged { items.new ≡ items.old }
    {
        Self::from_slice(alloc, items)
    }
}

impl<T: Drop> From<VecDeque<T>> for GrowableAllocRingBuffer<T> {
    ghost from_gives = { λ deque ring. ring ≡ deque.items };

    /// Makes the ring over a deque, which asks for no memory.
    fn from(deque: VecDeque<T>) -> Self {
        GrowableAllocRingBuffer { deque }
    }
}

impl<T: Drop> From<Vec<T>> for GrowableAllocRingBuffer<T> {
    ghost from_gives = { λ items ring. ring ≡ items.items };

    /// Makes a ring of a vector's items, in its memory.
    fn from(items: Vec<T>) -> Self {
        GrowableAllocRingBuffer::from(VecDeque::from(items))
    }
}
