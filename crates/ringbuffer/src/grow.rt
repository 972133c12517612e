//! The ring without a limit, over a deque.

ghost use Rattle.std.specs.Prelude.{◌≡◌, [], IfOk, List, None, Some, refl, slice_set};
ghost use Rattle.std.specs.Borrow.{sem};
ghost use Rattle.ring_core.proofs.Limits.{counts_none};

mod clones;
mod compare;
mod convert;
mod ends;
mod extend;
mod fill;
mod index;
mod iter;
mod slices;

use self::extend::pour;
use self::fill::clones;
use crate::few::{FEW_COMPARED, FEW_IN};
use crate::position::{index_at, signed_index_at};
use crate::two_slices::{clone_slices, clone_slices_into, equal_to_slice, is_in_slices};
use ring_core::RingBuffer;
use std::alloc::{AllocError, Global};
use std::collections::VecDeque;
use std::marker::Model;
use std::mem;

/// As many small items, and more, leave the deque by rotations, which move a stretch at once.
const MANY: usize = 32;

/// Items of more bytes leave by pops: a rotation copies all their bytes.
const MOST_BYTES_ROTATED: usize = 16;

/// A ring buffer without a limit: it keeps every item, and grows as a `VecDeque` does.
///
/// A push asks for memory where there is no room for the item. Where it is refused the item comes back, and the ring is
/// as it was. A contract sees the ring as the list of its items, oldest first.
#[derive(Drop)]
pub struct GrowableAllocRingBuffer<T> {
    deque: VecDeque<T>,
}

impl<T> Model for GrowableAllocRingBuffer<T> {
    ghost use Rattle.std.specs.Prelude.{List};

    ghost Value = { List T };

    ghost view = { λ ring. ring.deque.items };
}

impl<T: Drop> GrowableAllocRingBuffer<T> {
    /// Makes an empty ring, which has asked for no memory.
    ///
    /// ```rust
    /// let mut ring = GrowableAllocRingBuffer::new(alloc);
    /// ```
    pub fn new(alloc: Global) -> Self
        ensures { result ≡ [] }
    {
        GrowableAllocRingBuffer {
            deque: VecDeque::new(alloc),
        }
    }

    /// Calls `new`.
    pub fn default(alloc: Global) -> Self
        ensures { result ≡ [] }
    {
        Self::new(alloc)
    }

    /// Makes an empty ring with room for `capacity` items.
    ///
    /// # Errors
    ///
    /// Where memory was refused, also where the bytes for `capacity` items can't be asked for at all.
    pub fn with_capacity(alloc: Global, capacity: usize) -> Result<Self, AllocError>
        ensures { IfOk result (λ ring. ring ≡ []) }
    {
        Ok(GrowableAllocRingBuffer {
            deque: VecDeque::with_capacity(alloc, capacity)?,
        })
    }
}

impl<T: Drop> GrowableAllocRingBuffer<T> {
    ghost use Rattle.ringbuffer.specs.grow.Lends.{lends_deque};

    /// Returns the deque, whose list of items is the contents.
    pub fn as_ref(&self) -> &VecDeque<T>
        ensures { result.now.items ≡ self.now }
    {
        &self.deque
    }

    /// Lends the deque, for calls that a ring lacks. The ring then holds what the deque holds.
    pub fn as_mut(&mut self) -> &mut VecDeque<T>
        ensures* writes_back { sem 𝓛 (lends_deque T.row self.entry result) }
        ensures value { result.now.items ≡ self.old }
    {
        &mut self.deque
    }

    /// Turns the ring into its deque, with all items.
    pub fn into_deque(self) -> VecDeque<T>
        ensures { result.items ≡ self }
    {
        self.deque
    }
}

impl<T: Drop> GrowableAllocRingBuffer<T> {
    /// Takes out all items with their memory.
    fn take_vec(&mut self) -> Vec<T>
        ensures items { result.items ≡ self.old }
        ensures none { self.new ≡ [] }
    {
        let alloc = *self.deque.allocator();
        mem::replace(&mut self.deque, VecDeque::new(alloc)).into_vec()
    }
}

impl<T: Drop> RingBuffer<T> for GrowableAllocRingBuffer<T> {
    ghost contents = { λ ring. ring };

    ghost limit = { λ _. None };

    ghost with_item = { slice_set };

    ghost sets_item = { λ _ _ _. refl };

    ghost keeps_limit = { λ _ _ _. refl };

    ghost counts_write = { λ ring _ _. counts_none (λ _. None) ring refl };

    fn len(&self) -> usize {
        self.deque.len()
    }

    fn capacity(&self) -> usize {
        self.deque.capacity()
    }

    fn buffer_size(&self) -> usize {
        self.deque.capacity()
    }

    fn push(&mut self, item: T) -> Result<Option<T>, T> {
        match self.deque.push_back(item) {
            Ok(()) => Ok(None),
            Err(failed) => Err(failed.value),
        }
    }

    fn extend<I: IntoIterator<Item = T>>(&mut self, items: I) -> Result<(), AllocError>
    where
        I::IntoIter: Drop,
    {
        let items = items.into_iter();
        let least = items.size_hint().0;
        // A vector takes items in fewer steps, but it is made of the deque first, and the old items may have to move for it:
        // it is worth it where many come, and as many as there are.
        if least < FEW_IN || least < self.deque.len() {
            return self.push_each(items);
        }
        let mut room = self.take_vec();
        let _ = room.reserve(least);
        let (filled, rest, over) = pour(room, items);
        self.deque = VecDeque::from_vec(filled);
        let Some(item) = over else {
            return Ok(());
        };
        if let Err(_) = self.push(item) {
            return Err(AllocError);
        }
        self.push_each(rest)
    }

    fn dequeue(&mut self) -> Option<T> {
        self.deque.pop_front()
    }

    fn clear(&mut self) {
        self.deque.clear();
    }

    fn fill_with<F: FnMut() -> T + Drop>(&mut self, make: F) -> Result<(), AllocError> {
        self.deque.clear();
        let mut items = self.take_vec();
        let capacity = items.capacity();
        let filled = items.resize_with(capacity, make);
        self.deque = VecDeque::from_vec(items);
        filled
    }

    fn fill(&mut self, value: T) -> Result<(), AllocError>
    where
        T: Clone,
    {
        self.deque.clear();
        let (items, filled) = clones(self.take_vec(), value);
        self.deque = VecDeque::from_vec(items);
        filled
    }

    fn retain<F: FnMut(&T) -> bool>(&mut self, keep: F) -> Result<(), T> {
        GrowableAllocRingBuffer::retain(self, keep)
    }

    fn to_vec(&self, alloc: Global) -> Result<Vec<T>, AllocError>
    where
        T: Clone,
    {
        clone_slices(self.deque.as_slices(), alloc)
    }

    fn copy_to_slice(&self, output: &mut [T]) -> Result<usize, AllocError>
    where
        T: Clone,
    {
        clone_slices_into(self.deque.as_slices(), output)
    }

    fn contains(&self, x: &T) -> bool
    where
        T: PartialEq,
    {
        is_in_slices(self.deque.as_slices(), x)
    }

    fn eq_slice(&self, items: &[T]) -> bool
    where
        T: PartialEq,
    {
        if self.deque.len() != items.len() {
            return false;
        }
        if items.len() >= FEW_COMPARED {
            return equal_to_slice(self.deque.as_slices(), items);
        }
        for i in 0..items.len() {
            let same = self.deque[i] == items[i];
            if !same {
                return false;
            }
        }
        true
    }

    fn get(&self, index: usize) -> Option<&T> {
        self.deque.get(index_at(index, self.deque.len())?)
    }

    fn get_signed(&self, index: isize) -> Option<&T> {
        self.deque.get(signed_index_at(index, self.deque.len())?)
    }

    fn get_mut(&mut self, index: usize) -> Option<&mut T> {
        let index = index_at(index, self.deque.len())?;
        self.deque.get_mut(index)
    }

    fn get_mut_signed(&mut self, index: isize) -> Option<&mut T> {
        let index = signed_index_at(index, self.deque.len())?;
        self.deque.get_mut(index)
    }
}
