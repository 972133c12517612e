//! Array rings made of other collections. Each function names its source, whose items keep their order.
ghost use Rattle.std.specs.Prelude.{◌≡◌, ◌<◌, All, IfOk, IsOk, IsSome, [], chars, string_bytes};
ghost use Rattle.std.specs.Iterator.{IsFiniteIterable};
ghost use Rattle.ringbuffer.specs.Somes.{somes};
ghost use Rattle.ringbuffer.specs.Sources.{GivesAll};
ghost use Rattle.ringbuffer.specs.Conversion.{ClonesMeet, HoldsLast};

use crate::array::ConstGenericRingBuffer;
use crate::convert::{extend_cloned, extend_somes};
use crate::grow::GrowableAllocRingBuffer;
use crate::heap::AllocRingBuffer;
use std::alloc::AllocError;
use std::collections::{LinkedList, VecDeque};

impl<T: Drop, const CAP: usize> ConstGenericRingBuffer<T, CAP> {
    /// Makes a ring of the last `CAP` items of a source that ends, or all where they are fewer. The others are dropped.
    pub fn from_iter<I: IntoIterator<Item = T>>(items: I) -> Self
    where
        I::IntoIter: Drop,
        requires capacity { 0 < CAP }
        requires ends { IsFiniteIterable I.into_iter_gives I.IntoIter.can_next I.IntoIter.remaining
            items }
        ensures { GivesAll I.into_iter_gives I.IntoIter.next_gives items
            (λ xs. HoldsLast CAP xs result) }
    {
        let mut ring = Self::new();
        let _ = ring.extend(items);
        ring
    }

    /// Makes a ring of the items of an array, moved out of their places, which must all hold one.
    pub fn from_array(items: [Option<T>; CAP]) -> Self
        requires capacity { 0 < CAP }
        requires some { All IsSome items }
        ensures { result.items ≡ somes items }
    {
        let mut ring = Self::new();
        let _ = extend_somes(&mut ring, items);
        ring
    }

    /// Makes a ring of the last `CAP` items of a vector, or all where they are fewer. The others are dropped.
    pub fn from_vec(items: Vec<T>) -> Self
        requires { 0 < CAP }
        ensures { HoldsLast CAP items.items result }
    {
        Self::from_iter(items)
    }

    /// Makes a ring of the last `CAP` items of a deque, or all where they are fewer. The others are dropped.
    pub fn from_deque(items: VecDeque<T>) -> Self
        requires { 0 < CAP }
        ensures { HoldsLast CAP items.items result }
    {
        Self::from_vec(items.into_vec())
    }

    /// Makes a ring of the last `CAP` items of a linked list, or all where they are fewer. The others are dropped.
    pub fn from_linked_list(items: LinkedList<T>) -> Self
        requires { 0 < CAP }
        ensures { HoldsLast CAP items result }
    {
        Self::from_iter(items)
    }

    /// Makes a ring of the last `CAP` items of a growable ring, or all where they are fewer. The others are dropped.
    pub fn from_growable(ring: GrowableAllocRingBuffer<T>) -> Self
        requires { 0 < CAP }
        ensures { HoldsLast CAP ring result }
    {
        Self::from_deque(ring.into_deque())
    }

    /// Makes a ring of the last `CAP` items of a heap ring, or all where they are fewer. The others are dropped.
    pub fn from_alloc(ring: AllocRingBuffer<T>) -> Self
        requires { 0 < CAP }
        ensures { HoldsLast CAP ring.items result }
    {
        Self::from_iter(ring)
    }
}

impl<const CAP: usize> ConstGenericRingBuffer<char, CAP> {
    /// Makes a ring of the last `CAP` characters of a text, or all where they are fewer.
    pub fn from_text(text: &str) -> Self
        requires { 0 < CAP }
        ensures { HoldsLast CAP (chars text.now) result }
    {
        Self::from_iter(text.chars())
    }

    /// Makes a ring of the last `CAP` characters of a string, or all where they are fewer.
    pub fn from_string(text: String) -> Self
        requires { 0 < CAP }
        ensures { HoldsLast CAP (chars (string_bytes text)) result }
    {
        Self::from_text(text.as_str())
    }
}

impl<T: Clone + Drop, const CAP: usize> ConstGenericRingBuffer<T, CAP> {
    /// Makes a ring of clones of the last `CAP` items of a slice, or of all where they are fewer. Every item is cloned.
    ///
    /// # Errors
    ///
    /// Where a clone was refused.
    pub fn from_slice(items: &[T]) -> Result<Self, AllocError>
        requires { 0 < CAP }
        ensures items { IfOk result
            (λ ring. ClonesMeet T.is_clone items.now (λ ys. HoldsLast CAP ys ring)) }
        ensures succeeds { ((x : T) → T.is_infallible x) → IsOk result }
        ensures empty_succeeds { items.now ≡ [] → IsOk result }
    {
        let mut ring = Self::new();
        extend_cloned(&mut ring, items.iter())?;
        Ok(ring)
    }

    /// Makes a ring of the items of a slice lent for writing, as `from_slice`. The slice is as it was.
    ///
    /// # Errors
    ///
    /// As `from_slice`.
    pub fn from_mut_slice(items: &mut [T]) -> Result<Self, AllocError>
        requires { 0 < CAP }
        ensures items { IfOk result
            (λ ring. ClonesMeet T.is_clone items.old (λ ys. HoldsLast CAP ys ring)) }
        ensures succeeds { ((x : T) → T.is_infallible x) → IsOk result }
        ensures empty_succeeds { items.old ≡ [] → IsOk result }
        ensures unchanged { items.new ≡ items.old }
    {
        Self::from_slice(items)
    }

    /// Makes a ring of clones of the items of an array.
    ///
    /// # Errors
    ///
    /// As `from_slice`.
    pub fn from_array_ref(items: &[T; CAP]) -> Result<Self, AllocError>
        requires { 0 < CAP }
        ensures items { IfOk result
            (λ ring. ClonesMeet T.is_clone items.now (λ ys. HoldsLast CAP ys ring)) }
        ensures succeeds { ((x : T) → T.is_infallible x) → IsOk result }
    {
        Self::from_slice(items)
    }

    /// Makes a ring of the items of an array lent for writing, as `from_array_ref`. The array is as it was.
    ///
    /// # Errors
    ///
    /// As `from_slice`.
    pub fn from_mut_array(items: &mut [T; CAP]) -> Result<Self, AllocError>
        requires { 0 < CAP }
        ensures items { IfOk result
            (λ ring. ClonesMeet T.is_clone items.old (λ ys. HoldsLast CAP ys ring)) }
        ensures succeeds { ((x : T) → T.is_infallible x) → IsOk result }
        ensures unchanged { items.new ≡ items.old }
    {
        Self::from_slice(items)
    }
}
