//! The calls on slices, which each ring has of its own.

use crate::item::Item;
use ringbuffer::{
    AllocRingBuffer, ConstGenericRingBuffer, CopyRingBuffer, DoubleEndedRing, FixedRing,
    GrowableAllocRingBuffer, RingBuffer, TakesCopies,
};
use std::alloc::Global;
use std::hash::Hash;

/// A ring whose calls are counted.
pub trait Measured<T: Item>: DoubleEndedRing<T> + Clone + PartialOrd + Hash + Particular {
    /// Copies the oldest items to a slice, and returns how many.
    fn copy(&self, output: &mut [T]) -> usize;

    /// Puts copies of a slice's items last.
    fn bring(&mut self, items: &[T]);

    /// Takes out the oldest items into a slice, and returns how many.
    fn take(&mut self, output: &mut [T]) -> usize;

    /// Copies all items into new memory, and returns how many.
    fn copies(&self, alloc: Global) -> usize;
}

/// What only some rings can do. The others do nothing.
pub trait Particular: Sized {
    /// Makes the items one slice, and returns the number of its last item.
    fn contiguous(&mut self) -> u64 {
        0
    }

    /// Puts copies of the items in place of those of another ring, and returns how many.
    fn copy_onto(&self, _other: &mut Self) -> u64 {
        0
    }

    /// Moves the items into memory for another capacity.
    fn resize(&mut self, _capacity: usize) {}
}

impl<T: Item, S: TakesCopies<T>> Measured<T> for FixedRing<T, S>
where
    FixedRing<T, S>: Clone + Particular,
{
    #[inline]
    fn copy(&self, output: &mut [T]) -> usize {
        self.copy_to_slice(output)
    }

    #[inline]
    fn bring(&mut self, items: &[T]) {
        self.extend_from_slice(items);
    }

    #[inline]
    fn take(&mut self, output: &mut [T]) -> usize {
        self.dequeue_into(output)
    }

    fn copies(&self, alloc: Global) -> usize {
        self.to_vec_copied(alloc).map_or(0, |items| items.len())
    }
}

impl<T: Item> Measured<T> for GrowableAllocRingBuffer<T> {
    #[inline]
    fn copy(&self, output: &mut [T]) -> usize {
        self.copy_to_slice(output)
    }

    #[inline]
    fn bring(&mut self, items: &[T]) {
        let _ = self.extend_from_slice(items);
    }

    #[inline]
    fn take(&mut self, output: &mut [T]) -> usize {
        self.dequeue_into(output)
    }

    fn copies(&self, alloc: Global) -> usize {
        self.to_vec_copied(alloc).map_or(0, |items| items.len())
    }
}

impl<T: Item, const CAP: usize> Particular for ConstGenericRingBuffer<T, CAP> {}

impl<T: Item, const CAP: usize> Particular for CopyRingBuffer<T, CAP> {
    #[inline]
    fn contiguous(&mut self) -> u64 {
        last_number(self.make_contiguous())
    }

    fn copy_onto(&self, other: &mut Self) -> u64 {
        self.copy_into(other);
        other.len() as u64
    }
}

impl<T: Item> Particular for AllocRingBuffer<T> {
    #[inline]
    fn contiguous(&mut self) -> u64 {
        last_number(self.make_contiguous())
    }

    fn resize(&mut self, capacity: usize) {
        if 0 < capacity {
            let _ = self.set_capacity(capacity);
        }
    }
}

impl<T: Item> Particular for GrowableAllocRingBuffer<T> {
    #[inline]
    fn contiguous(&mut self) -> u64 {
        last_number(self.make_contiguous())
    }

    fn copy_onto(&self, other: &mut Self) -> u64 {
        let _ = self.copy_into(other);
        other.len() as u64
    }
}

/// Returns the number of a slice's last item, if there is one.
#[inline]
fn last_number<T: Item>(items: &[T]) -> u64 {
    items.last().map_or(0, |item| item.number())
}
