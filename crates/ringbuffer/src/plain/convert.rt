//! Rings of plain items made of other collections. Each function names its source, whose items keep their order.
//! `filler` is an item that lies, unseen, where no item was put yet.
ghost use Rattle.std.specs.Prelude.{◌≡◌, ◌<◌, chars, string_bytes};
ghost use Rattle.std.specs.Iterator.{IsFiniteIterable};
ghost use Rattle.ringbuffer.specs.Sources.{GivesAll};
ghost use Rattle.ringbuffer.specs.Conversion.{HoldsLast};

use crate::fixed::{FixedRing, Span};
use crate::grow::GrowableAllocRingBuffer;
use crate::heap::AllocRingBuffer;
use crate::plain::CopyRingBuffer;
use ring_slots::{CopySlots, RingSlots};
use std::collections::{LinkedList, VecDeque};

impl<T: Copy + Drop, const CAP: usize> CopyRingBuffer<T, CAP> {
    /// Makes a ring of the last `CAP` items of a source that ends, or all where they are fewer. The others are dropped.
    pub fn from_iter<I: IntoIterator<Item = T>>(filler: T, items: I) -> Self
    where
        I::IntoIter: Drop,
        requires capacity { 0 < CAP }
        requires ends { IsFiniteIterable I.into_iter_gives I.IntoIter.can_next I.IntoIter.remaining
            items }
        ensures { GivesAll I.into_iter_gives I.IntoIter.next_gives items
            (λ xs. HoldsLast CAP xs result) }
    {
        let mut ring = Self::new(filler);
        let _ = ring.extend(items);
        ring
    }

    /// Makes a full ring of an array, which becomes its cells: no item is moved. Each counts as one slot change.
    pub fn from_array(items: [T; CAP]) -> Self
        requires { 0 < CAP }
        ensures { result ≡ record { items = items; changes = CAP; capacity = CAP } }
    {
        FixedRing::from_parts(CopySlots::holding(items), Span { start: 0, len: CAP })
    }

    /// Makes a full ring of copies of the items of an array.
    pub fn from_array_ref(items: &[T; CAP]) -> Self
        requires { 0 < CAP }
        ensures { result ≡ record { items = items.now; changes = CAP; capacity = CAP } }
    {
        Self::from_array(*items)
    }

    /// Makes a ring of the items of an array lent for writing, as `from_array_ref`. The array is as it was.
    pub fn from_mut_array(items: &mut [T; CAP]) -> Self
        requires { 0 < CAP }
        ensures made { result ≡ record { items = items.old; changes = CAP; capacity = CAP } }
        ensures unchanged { items.new ≡ items.old }
    {
        Self::from_array(*items)
    }

    /// Makes a ring of copies of the last `CAP` items of a slice, or of all where they are fewer.
    pub fn from_slice(filler: T, items: &[T]) -> Self
        requires { 0 < CAP }
        ensures { HoldsLast CAP items.now result }
    {
        let mut ring = Self::new(filler);
        ring.extend_from_slice(items);
        ring
    }

    /// Makes a ring of the items of a slice lent for writing, as `from_slice`. The slice is as it was.
    pub fn from_mut_slice(filler: T, items: &mut [T]) -> Self
        requires { 0 < CAP }
        ensures items { HoldsLast CAP items.old result }
        ensures unchanged { items.new ≡ items.old }
    {
        Self::from_slice(filler, items)
    }

    /// Makes a ring of the last `CAP` items of a vector, or all where they are fewer. The others are dropped.
    pub fn from_vec(filler: T, items: Vec<T>) -> Self
        requires { 0 < CAP }
        ensures { HoldsLast CAP items.items result }
    {
        Self::from_slice(filler, &items)
    }

    /// Makes a ring of the last `CAP` items of a deque, or all where they are fewer. The others are dropped.
    pub fn from_deque(filler: T, items: VecDeque<T>) -> Self
        requires { 0 < CAP }
        ensures { HoldsLast CAP items.items result }
    {
        Self::from_vec(filler, items.into_vec())
    }

    /// Makes a ring of the last `CAP` items of a linked list, or all where they are fewer. The others are dropped.
    pub fn from_linked_list(filler: T, items: LinkedList<T>) -> Self
        requires { 0 < CAP }
        ensures { HoldsLast CAP items result }
    {
        Self::from_iter(filler, items)
    }

    /// Makes a ring of the last `CAP` items of a growable ring, or all where they are fewer. The others are dropped.
    pub fn from_growable(filler: T, ring: GrowableAllocRingBuffer<T>) -> Self
        requires { 0 < CAP }
        ensures { HoldsLast CAP ring result }
    {
        Self::from_deque(filler, ring.into_deque())
    }

    /// Makes a ring of the last `CAP` items of a heap ring, or all where they are fewer. The others are dropped.
    pub fn from_alloc(filler: T, ring: AllocRingBuffer<T>) -> Self
        requires { 0 < CAP }
        ensures { HoldsLast CAP ring.items result }
    {
        Self::from_const(filler, ring)
    }

    /// Makes a ring of the last `CAP` items of a fixed ring, or all where they are fewer. The others are dropped.
    pub fn from_const<S: RingSlots<T>>(filler: T, ring: FixedRing<T, S>) -> Self
        requires { 0 < CAP }
        ensures { HoldsLast CAP ring.items result }
    {
        Self::from_iter(filler, ring)
    }
}

impl<const CAP: usize> CopyRingBuffer<char, CAP> {
    /// Makes a ring of the last `CAP` characters of a text, or all where they are fewer.
    pub fn from_text(text: &str) -> Self
        requires { 0 < CAP }
        ensures { HoldsLast CAP (chars text.now) result }
    {
        Self::from_iter('\0', text.chars())
    }

    /// Makes a ring of the last `CAP` characters of a string, or all where they are fewer.
    pub fn from_string(text: String) -> Self
        requires { 0 < CAP }
        ensures { HoldsLast CAP (chars (string_bytes text)) result }
    {
        Self::from_text(text.as_str())
    }
}
