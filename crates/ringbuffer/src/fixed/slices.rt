//! The items of a ring of a fixed capacity as slices, and copied to them.
ghost use Rattle.std.specs.Prelude.{◌≡◌, ◌+◌, ◌<◌, ◌++◌, ◌↔◌, IfOk, drop, length, min, take};
ghost use Rattle.ring_slots.specs.Slots.{HoldsStretch, IsFullStretch};
ghost use Rattle.ringbuffer.specs.View.{after_takes};

use crate::few::FEW;
use crate::fixed::FixedRing;
use crate::two_slices::{copy_slices, slices_to_vec};
use ring_core::{RingBuffer, RingBufferExt};
use ring_slots::{CopySlots, HeapSlots, RingSlots};
use std::alloc::{AllocError, Global};

impl<T: Copy + Drop, S: RingSlots<T>> FixedRing<T, S> {
    /// Returns copies of the items, oldest first, in new memory, as `to_vec` returns clones. Takes O(n).
    ///
    /// # Errors
    ///
    /// Where memory was refused. The ring is as it was.
    pub fn to_vec_copied(&self, alloc: Global) -> Result<Vec<T>, AllocError>
        ensures { IfOk result (λ copies. copies.items ≡ self.now.items) }
    {
        match self.rows() {
            Some(rows) => slices_to_vec(rows, alloc),
            None => self.iter().copied().collect(alloc),
        }
    }

    /// Copies the oldest items to the first places of a slice, as many as it has, and returns how many. Takes O(n) in
    /// these.
    #[inline]
    pub fn copy_to_slice(&self, output: &mut [T]) -> usize
        ensures count { result ≡ min (length output.old) (length self.now.items) }
        ensures copied { output.new ≡ take result self.now.items ++ drop result output.old }
    {
        // An array of Options shows no rows, and copies few items one at a time as it is.
        if S::goes_by_stretch() && output.len() == 1 {
            return self.copy_one(output);
        }
        match self.rows() {
            Some(rows) => copy_slices(rows, output),
            None => self.copy_each(output),
        }
    }

    /// Copies the oldest item, if there is one, to the only place of a slice: to find the rows would cost more. Out of line, so
    /// that many items pay for a look at their number alone.
    #[inline(never)]
    fn copy_one(&self, output: &mut [T]) -> usize
        requires { length output.old ≡ 1 }
        ensures count { result ≡ min (length output.old) (length self.now.items) }
        ensures copied { output.new ≡ take result self.now.items ++ drop result output.old }
    {
        let Some(item) = self.first() else {
            return 0;
        };
        output[0] = *item;
        1
    }

    /// Copies the oldest items out of slots that show no row.
    #[inline]
    fn copy_each(&self, output: &mut [T]) -> usize
        ensures count { result ≡ min (length output.old) (length self.now.items) }
        ensures copied { output.new ≡ take result self.now.items ++ drop result output.old }
    {
        if output.is_empty() || self.span.len == 0 {
            return 0;
        }
        let count = output.len().min(self.span.len);
        if count >= FEW {
            return self.copy_stretches(output);
        }
        for k in 0..count {
            output[k] = *self.at(k);
        }
        count
    }

    /// Copies them in two stretches of slots: up to the last slot, and on from the first. Out of line, so that
    /// few items take no step for it.
    #[inline(never)]
    fn copy_stretches(&self, output: &mut [T]) -> usize
        ensures count { result ≡ min (length output.old) (length self.now.items) }
        ensures copied { output.new ≡ take result self.now.items ++ drop result output.old }
    {
        let count = output.len().min(self.span.len);
        let first = count.min(self.slots.size() - self.span.start);
        let (front, others) = output.split_at_mut(first);
        Self::copy_stretch(&self.slots, self.span.start, front);
        Self::copy_stretch(&self.slots, 0, &mut others[..count - first]);
        count
    }

    /// Copies the items of slots side by side to a slice. No place is counted round here, so that the loop goes straight on.
    #[inline]
    fn copy_stretch(slots: &S, from: usize, output: &mut [T])
        requires { IsFullStretch (S.seen slots.now).slots from (length output.old) }
        ensures { HoldsStretch (S.seen slots.now).slots from (length output.old) output.new }
    {
        // For the proof: the number of slots fits a word.
        let _ = slots.size();
        for k in 0..output.len() {
            output[k] = *slots.get(from + k);
        }
    }

    /// Takes out the oldest items, as many as a slice has places, copies them to its first places, and returns how many.
    /// Takes O(n) in these.
    pub fn dequeue_into(&mut self, output: &mut [T]) -> usize
        ensures count { result ≡ min (length output.old) (length self.old.items) }
        ensures copied { output.new ≡ take result self.old.items ++ drop result output.old }
        ensures rest { self.new ≡ after_takes result self.old }
    {
        // An array of Options shows no rows, and copies few items one at a time as it is.
        if S::goes_by_stretch() && output.len() == 1 {
            return self.dequeue_one_into(output);
        }
        let count = self.copy_to_slice(output);
        if count > 0 {
            self.drop_first(count);
        }
        count
    }

    /// Takes out the oldest item, if there is one, and puts it into the only place of a slice: to find the rows would cost
    /// more. Out of line, so that many items pay for a look at their number alone.
    #[inline(never)]
    fn dequeue_one_into(&mut self, output: &mut [T]) -> usize
        requires { length output.old ≡ 1 }
        ensures count { result ≡ min (length output.old) (length self.old.items) }
        ensures copied { output.new ≡ take result self.old.items ++ drop result output.old }
        ensures rest { self.new ≡ after_takes result self.old }
    {
        let Some(item) = self.take_first() else {
            return 0;
        };
        output[0] = item;
        1
    }
}

impl<T: Drop, S: ShowsRows<T>> FixedRing<T, S> {
    /// Returns the items in two slices, oldest first: those up to the last slot, and those that go on at the first. The
    /// second is empty where the items don't go on there.
    #[inline]
    pub fn as_slices(&self) -> (&[T], &[T])
        ensures items { result.0.now ++ result.1.now ≡ self.now.items }
        ensures first { (0 < length result.0.now) ↔ (0 < length self.now.items) }
    {
        let first = self.span.len.min(self.slots.size() - self.span.start);
        (
            self.slots.slice(self.span.start, first),
            self.slots.slice(0, self.span.len - first),
        )
    }
}

/// Slots whose items lie side by side, so that a row of them is a slice.
pub trait ShowsRows<T>: RingSlots<T> {
    ghost use Rattle.ring_slots.specs.Slots.{HoldsStretch, IsFullStretch};

    /// Returns the items of `len` full slots that lie side by side from the place `from` on.
    fn slice(&self, from: usize, len: usize) -> &[T]
        requires { IsFullStretch (Self.seen self.now).slots from len }
        ensures { HoldsStretch (Self.seen self.now).slots from len result.now };
}

impl<T> ShowsRows<T> for HeapSlots<T> {
    #[inline]
    fn slice(&self, from: usize, len: usize) -> &[T] {
        HeapSlots::slice(self, from, len)
    }
}

impl<T: Copy, const CAP: usize> ShowsRows<T> for CopySlots<T, CAP> {
    #[inline]
    fn slice(&self, from: usize, len: usize) -> &[T] {
        CopySlots::slice(self, from, len)
    }
}
