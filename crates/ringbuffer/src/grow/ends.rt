//! Both ends and the middle of a growable ring.
ghost use Rattle.std.specs.Prelude.{◌≡◌, ◌-◌, ◌≤◌, ◌++◌, IsOk, None, Some, drop, filter, length, option_to_list, slice_get, take};
ghost use Rattle.std.specs.Fn.{CalledAt};
ghost use Rattle.std.specs.List.Retain.{IsFiltered};
ghost use Rattle.ring_core.specs.Contents.{keep_last};
ghost use Rattle.ring_core.specs.Mapping.{ByMap};

use super::{GrowableAllocRingBuffer, MANY};
use ring_core::{DoubleEndedRing, RingBuffer, range_within};
use std::alloc::AllocError;
use std::ops::RangeBounds;

impl<T: Drop> GrowableAllocRingBuffer<T> {
    /// Takes out the newest item, if there is one.
    pub fn pop_back(&mut self) -> Option<T>
        ensures items { self.old ≡ self.new ++ option_to_list result }
        ensures value { result ≡ slice_get self.old (length self.old - 1) }
        ensures rest { self.new ≡ take (length self.old - 1) self.old }
    {
        self.deque.pop_back()
    }

    /// Keeps the oldest items, as many as `len` says, and drops the others. Does nothing to a ring of no more items. Takes
    /// O(n) in those that are dropped.
    pub fn truncate(&mut self, len: usize)
        ensures { self.new ≡ take len self.old }
    {
        self.deque.truncate(len);
    }

    /// Keeps the newest items, as many as `len` says, and drops the others. Does nothing to a ring of no more items. Takes
    /// O(n) in those that are dropped.
    pub fn keep_newest(&mut self, len: usize)
        ensures { self.new ≡ keep_last (Some len) self.old }
    {
        let others = self.deque.len().saturating_sub(len);
        self.drop_between(0, others);
    }

    /// Keeps the items for which `keep` returns `true`, in order, and drops the others. It asks about each item once, oldest
    /// first. It is never refused. This call is the library's own: the Rust crate has none like it.
    pub fn retain<F: FnMut(&T) -> bool>(&mut self, keep: F) -> Result<(), T>
        requires { F.IsAlwaysCallable keep }
        ensures filtered { IsFiltered (CalledAt F.FnMut) keep self.old self.new }
        ensures value { ByMap (CalledAt F.FnMut) keep (λ keeps. self.new ≡ filter keeps self.old) }
        ensures succeeds { IsOk result }
    {
        self.deque.retain(keep);
        Ok(())
    }

    /// Drops the items from one index up to another, and leaves the others where the deque's `drain` would. Many are rotated to
    /// the front, where a stretch leaves at once.
    fn drop_between(&mut self, start: usize, end: usize)
        requires order { start ≤ end }
        requires within { end ≤ length self.old }
        ensures { self.new ≡ take start self.old ++ drop end self.old }
    {
        if end - start < MANY {
            self.deque.drain(start..end);
            return;
        }
        if start == 0 {
            return self.drop_first(end);
        }
        let others = self.deque.len() - start;
        self.deque.rotate_right(others);
        self.drop_first(end - start);
        self.deque.rotate_right(start);
    }
}

/// `push_front` as the deque's, and the others as the ring's own methods of these names.
impl<T: Drop> DoubleEndedRing<T> for GrowableAllocRingBuffer<T> {
    fn push_front(&mut self, item: T) -> Result<Option<T>, T> {
        if let Err(failed) = self.deque.push_front(item) {
            return Err(failed.value);
        }
        Ok(None)
    }

    fn pop_back(&mut self) -> Option<T> {
        GrowableAllocRingBuffer::pop_back(self)
    }

    fn truncate(&mut self, len: usize) {
        GrowableAllocRingBuffer::truncate(self, len);
    }

    fn keep_newest(&mut self, len: usize) {
        GrowableAllocRingBuffer::keep_newest(self, len);
    }

    fn try_push(&mut self, item: T) -> Result<(), T> {
        if let Err(item) = self.push(item) {
            return Err(item);
        }
        Ok(())
    }

    fn insert(&mut self, index: usize, item: T) -> Result<(), T> {
        if let Err(failed) = self.deque.insert(index, item) {
            return Err(failed.value);
        }
        Ok(())
    }

    fn remove(&mut self, index: usize) -> Option<T> {
        self.deque.remove(index)
    }

    fn remove_range<X: RangeBounds<usize>>(&mut self, range: X) {
        let range = range_within(&range, self.deque.len());
        self.drop_between(range.start, range.end);
    }

    fn swap(&mut self, i: usize, j: usize) {
        self.deque.swap(i, j);
    }

    fn rotate_left(&mut self, count: usize) {
        self.deque.rotate_left(count);
    }

    fn rotate_right(&mut self, count: usize) {
        self.deque.rotate_right(count);
    }

    fn clone_into(&self, other: &mut Self) -> Result<(), AllocError>
    where
        T: Clone,
    {
        other.deque.clear();
        other.deque.reserve(self.deque.len())?;
        for i in 0..self.deque.len() {
            other.deque.push_back_reserved(self.deque[i].clone()?);
        }
        Ok(())
    }
}
