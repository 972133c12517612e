//! Copies between a growable ring and slices, and its items as slices.
ghost use Rattle.std.specs.Prelude.{◌≡◌, ◌↔◌, ◌-◌, ◌<◌, ◌≤◌, [], ◌++◌, IfOk, OnErr, OnOk, drop, length, min, take};
ghost use Rattle.std.specs.Borrow.{sem};

use super::{GrowableAllocRingBuffer, MANY, MOST_BYTES_ROTATED};
use crate::few::FEW;
use crate::two_slices::{copy_slices, slices_to_vec};
use core::mem::replace_with;
use ring_slots::item_size;
use std::alloc::{AllocError, Global};
use std::collections::VecDeque;
use std::mem;

impl<T: Copy + Drop> GrowableAllocRingBuffer<T> {
    /// Returns copies of the items, oldest first, in new memory, as `to_vec` returns clones. Takes O(n).
    ///
    /// # Errors
    ///
    /// Where memory was refused. The ring is as it was.
    pub fn to_vec_copied(&self, alloc: Global) -> Result<Vec<T>, AllocError>
        ensures { IfOk result (λ copies. copies.items ≡ self.now) }
    {
        slices_to_vec(self.as_slices(), alloc)
    }

    /// Copies the oldest items to the first places of a slice, as many as it has, and returns how many. Takes O(n) in
    /// these.
    pub fn copy_to_slice(&self, output: &mut [T]) -> usize
        ensures count { result ≡ min (length output.old) (length self.now) }
        ensures copied { output.new ≡ take result self.now ++ drop result output.old }
    {
        copy_slices(self.as_slices(), output)
    }

    /// Drops all items of `other`, and puts copies of the items there. Unlike `clone_into` it copies stretches at once. Takes
    /// O(n) in the items of both.
    ///
    /// # Errors
    ///
    /// Where memory for all of them was refused. `other` is empty then.
    pub fn copy_into(&self, other: &mut Self) -> Result<(), AllocError>
        ensures ok { OnOk result (other.new ≡ self.now) }
        ensures err { OnErr result (other.new ≡ []) }
    {
        let (first, second) = self.as_slices();
        other.deque.clear();
        let mut room = other.take_vec();
        let reserved = room.reserve(self.deque.len());
        if reserved.is_ok() {
            let _ = room.extend_from_slice(first);
            let _ = room.extend_from_slice(second);
        }
        other.deque = VecDeque::from_vec(room);
        reserved
    }

    /// Takes out the oldest items, as many as a slice has places, copies them to its first places, and returns how many.
    /// Takes O(n) in these.
    // Inlined always, since a call would save and restore six registers.
    #[inline(always)]
    pub fn dequeue_into(&mut self, output: &mut [T]) -> usize
        ensures count { result ≡ min (length output.old) (length self.old) }
        ensures copied { output.new ≡ take result self.old ++ drop result output.old }
        ensures rest { self.new ≡ drop result self.old }
    {
        if output.len() < FEW {
            return self.dequeue_each(output);
        }
        let count = self.copy_to_slice(output);
        self.drop_first(count);
        count
    }

    /// Takes out the oldest items one by one. The deque is a value meanwhile, so that its fields stay in registers. Out of
    /// line, so that blocks take no step for it.
    #[inline(never)]
    fn dequeue_each(&mut self, output: &mut [T]) -> usize
        ensures count { result ≡ min (length output.old) (length self.old) }
        ensures copied { output.new ≡ take result self.old ++ drop result output.old }
        ensures rest { self.new ≡ drop result self.old }
    {
        let alloc = *self.deque.allocator();
        let mut deque = mem::replace(&mut self.deque, VecDeque::new(alloc));
        let count = output.len().min(deque.len());
        for k in 0..count {
            output[k] = deque.pop_front().unwrap();
        }
        self.deque = deque;
        count
    }
}

impl<T: Drop> GrowableAllocRingBuffer<T> {
    /// Drops the first items. Most of many small ones go by rotations, and the last by pops: the others then lie where pops alone
    /// would leave them, also where that is the end of the deque's memory.
    #[inline]
    pub(crate) fn drop_first(&mut self, count: usize)
        requires { count ≤ length self.old }
        ensures { self.new ≡ drop count self.old }
    {
        let left = if count >= MANY && item_size::<T>() <= MOST_BYTES_ROTATED {
            self.drop_by_rotations(count)
        } else {
            count
        };
        // Rotations mostly leave one item, for which a call costs more than the pop.
        if left == 1 {
            self.deque.pop_front();
        } else {
            self.drop_by_pops(left);
        }
    }

    /// Drops the first items one at a time. Out of line, since LLVM unrolls the pops where it sees how few they are, into more
    /// instructions for each.
    #[inline(never)]
    fn drop_by_pops(&mut self, count: usize)
        requires { count ≤ length self.old }
        ensures { self.new ≡ drop count self.old }
    {
        replace_with(&mut self.deque, count, without_first);
    }

    /// Drops some of the first items, and returns how many of `count` are left to drop. A rotation moves items after the others,
    /// no more than there are of these, and cuts them off there, which takes no step for each.
    fn drop_by_rotations(&mut self, count: usize) -> usize
        requires { count ≤ length self.old }
        ensures bound { result ≤ count }
        ensures rest { self.new ≡ drop (count - result) self.old }
    {
        let mut left = count;
        while left >= MANY {
            let step = (left - 1).min(self.deque.len() / 2);
            let rest = self.deque.len() - step;
            self.deque.rotate_left(step);
            self.deque.truncate(rest);
            left -= step;
        }
        left
    }
}

impl<T: Drop> GrowableAllocRingBuffer<T> {
    ghost use Rattle.ringbuffer.specs.grow.Lends.{lends_items};

    /// Returns the items in two slices, oldest first, as they lie in the deque.
    #[inline]
    pub fn as_slices(&self) -> (&[T], &[T])
        ensures items { result.0.now ++ result.1.now ≡ self.now }
        ensures first { (0 < length result.0.now) ↔ (0 < length self.now) }
    {
        self.deque.as_slices()
    }

    /// Lends the items in one slice, oldest first, for writing. The deque moves them where they don't lie side by side,
    /// in O(n).
    pub fn make_contiguous(&mut self) -> &mut [T]
        ensures* writes_back { sem 𝓛 (lends_items T.row self.entry result) }
        ensures value { result.now ≡ self.old }
    {
        self.deque.make_contiguous()
    }
}

/// Drops the first items of a deque, one at a time. It is a value here and not behind a reference, so that its fields stay in
/// registers.
#[inline]
fn without_first<T: Drop>(deque: VecDeque<T>, count: usize) -> (VecDeque<T>, ())
    requires { count ≤ length deque.items }
    ensures { result.0.items ≡ drop count deque.items }
{
    let mut deque = deque;
    let rest = deque.len() - count;
    while deque.len() > rest {
        deque.pop_front();
    }
    (deque, ())
}
