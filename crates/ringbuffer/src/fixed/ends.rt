//! The calls of a ring of a fixed capacity at its two ends.
ghost use Rattle.std.specs.Prelude.{◌++◌, option_to_list, ◌≡◌, ◌+◌, ◌-◌, ◌%◌, ◌<◌, ◌≤◌, ◌∷◌, length, None, Some, slice_get, ◌↔◌, IfErr, IsErr, OnOk};
ghost use Rattle.ringbuffer.specs.View.{after_cut, after_clear, after_pop, after_push_front, after_put, after_put_first, after_take, after_takes, after_truncate, after_keep_newest};
ghost use Rattle.ringbuffer.specs.Layout.{AreFull, Empties, IsLaidOut, IsSpanOf, LaysApart, LaysOut, view_from};

use crate::fixed::{FixedRing, Span};
use ring_core::{DoubleEndedRing, RingBuffer};
use ring_slots::RingSlots;
use std::alloc::AllocError;
use std::ops::RangeBounds;

impl<T: Drop, S: RingSlots<T>> FixedRing<T, S> {
    /// Puts the item last if there is room for it, and overwrites nothing.
    ///
    /// ```rust
    /// queue.try_push(job)
    /// ```
    ///
    /// # Errors
    ///
    /// Hands `item` back if the ring is full, which stays as it was.
    #[inline]
    pub fn try_push(&mut self, item: T) -> Result<(), T>
        ensures ok { OnOk result (self.new ≡ after_put self.old item) }
        ensures err { IfErr result (λ back. (back ≡ item) × (self.new ≡ self.old)) }
        ensures full { IsErr result ↔ (length self.old.items ≡ S.limit self.old.capacity) }
    {
        if self.is_full() {
            return Err(item);
        }
        self.put_last(item);
        Ok(())
    }

    /// Puts an item before the first. At the limit the last item gives way, and is handed back.
    #[inline]
    pub fn push_front(&mut self, item: T) -> Option<T>
        ensures value { result ≡ slice_get (item ∷ self.old.items) (S.limit self.old.capacity) }
        ensures after { self.new ≡ after_push_front (S.limit self.old.capacity) self.old item }
    {
        let before = self.span;
        if before.len == self.slots.limit() {
            let old = Self::take_last(&mut self.slots, before);
            self.span.start = Self::put_before(&mut self.slots, before.start, item);
            return Some(old);
        }
        self.put_first(item);
        None
    }

    /// Takes out the newest item, if there is one.
    #[inline]
    pub fn pop_back(&mut self) -> Option<T>
        ensures items { self.old.items ≡ self.new.items ++ option_to_list result }
        ensures value { result ≡ slice_get self.old.items (length self.old.items - 1) }
        ensures after { self.new ≡ after_pop self.old }
    {
        let span = self.span;
        if span.len == 0 {
            return None;
        }
        self.span.len -= 1;
        Some(Self::take_last(&mut self.slots, span))
    }

    /// Keeps the oldest items, as many as `len` says, and drops the others. Does nothing to a ring of no more items. Takes
    /// O(n) in those that are dropped.
    pub fn truncate(&mut self, len: usize)
        ensures { self.new ≡ after_truncate len self.old }
    {
        if len < self.span.len {
            Self::drop_items(&mut self.slots, self.span.start, len, self.span.len);
            self.span.len = len;
        }
    }

    /// Keeps the newest items, as many as `len` says, and drops the others. Does nothing to a ring of no more items. Takes
    /// O(n) in those that are dropped.
    pub fn keep_newest(&mut self, len: usize)
        ensures { self.new ≡ after_keep_newest len self.old }
    {
        let others = self.span.len.saturating_sub(len);
        self.drop_first(others);
    }

    /// Puts an item after the last, where there is room for one.
    #[inline]
    pub(crate) fn put_last(&mut self, item: T)
        requires { length self.old.items < S.limit self.old.capacity }
        ensures { self.new ≡ after_put self.old item }
    {
        // For the proof: the number of slots fits a word.
        let _ = self.slots.size();
        let span = self.span;
        let end = self.slots.place(span.start, span.len);
        Self::put_at(&mut self.slots, span, end, item);
        self.span.len += 1;
    }

    /// Puts an item before the first, where there is room for one.
    #[inline]
    pub(crate) fn put_first(&mut self, item: T)
        requires { length self.old.items < S.limit self.old.capacity }
        ensures { self.new ≡ after_put_first self.old item }
    {
        // For the proof: the number of slots fits a word.
        let _ = self.slots.size();
        self.span.start = Self::put_before(&mut self.slots, self.span.start, item);
        self.span.len += 1;
    }

    /// Takes out the first item, if there is one.
    #[inline]
    pub(crate) fn take_first(&mut self) -> Option<T>
        ensures value { result ≡ slice_get self.old.items 0 }
        ensures after { self.new ≡ after_take self.old }
    {
        let Span { start, len } = self.span;
        if len == 0 {
            return None;
        }
        let (start, item) = Self::take_from(&mut self.slots, start);
        self.span = Span {
            start,
            len: len - 1,
        };
        Some(item)
    }

    /// Drops the first items, as many as `count` says.
    pub(crate) fn drop_first(&mut self, count: usize)
        requires { count ≤ length self.old.items }
        ensures { self.new ≡ after_takes count self.old }
    {
        let start = self.span.start;
        Self::drop_items(&mut self.slots, start, 0, count);
        self.span.start = self.slots.place(start, count);
        self.span.len -= count;
    }

    /// Drops all items of a ring, which begins at the first slot then.
    pub(crate) fn empty_slots(slots: &mut S, span: Span)
        requires span { IsSpanOf span (S.seen slots.old) }
        ensures { LaysOut (S.seen slots.old) (S.seen slots.new) 0
            (after_clear (view_from (S.seen slots.old) span.start)) }
    {
        Self::drop_items(slots, span.start, 0, span.len);
    }

    /// Drops the items from an index up to another, in two stretches of slots: up to the last slot, and on from the first.
    #[inline]
    pub(crate) fn drop_items(slots: &mut S, start: usize, from: usize, to: usize)
        requires laid_out { IsLaidOut (S.seen slots.old) start }
        requires order { from ≤ to }
        requires within { to ≤ length (view_from (S.seen slots.old) start).items }
        ensures first { from ≡ 0
            → LaysOut (S.seen slots.old) (S.seen slots.new)
            ((start + to) % length (S.seen slots.old).slots)
            (after_takes to (view_from (S.seen slots.old) start)) }
        ensures last { to ≡ length (view_from (S.seen slots.old) start).items
            → LaysOut (S.seen slots.old) (S.seen slots.new) start
            (after_truncate from (view_from (S.seen slots.old) start)) }
        ensures apart { LaysApart (S.seen slots.old) (S.seen slots.new) start from (to - from)
            (after_cut from to 0 (view_from (S.seen slots.old) start)) }
    {
        let first = slots.size() - start;
        Self::empty_stretch(slots, start + from.min(first), start + to.min(first));
        Self::empty_stretch(slots, from.saturating_sub(first), to.saturating_sub(first));
    }

    /// Drops the items of slots side by side.
    #[inline]
    fn empty_stretch(slots: &mut S, from: usize, to: usize)
        requires places { from ≤ to }
        requires full { AreFull (S.seen slots.old) from to }
        ensures { Empties (S.seen slots.old) (S.seen slots.new) from to }
    {
        for place in from..to {
            slots.discard(place);
        }
    }
}

/// As the ring's own methods of these names.
impl<T: Drop, S: RingSlots<T>> DoubleEndedRing<T> for FixedRing<T, S> {
    #[inline]
    fn push_front(&mut self, item: T) -> Result<Option<T>, T> {
        // For the proof: the contents are within the limit.
        let _ = self.len();
        Ok(FixedRing::push_front(self, item))
    }

    #[inline]
    fn pop_back(&mut self) -> Option<T> {
        FixedRing::pop_back(self)
    }

    fn truncate(&mut self, len: usize) {
        FixedRing::truncate(self, len);
    }

    fn keep_newest(&mut self, len: usize) {
        FixedRing::keep_newest(self, len);
    }

    #[inline]
    fn try_push(&mut self, item: T) -> Result<(), T> {
        FixedRing::try_push(self, item)
    }

    fn insert(&mut self, index: usize, item: T) -> Result<(), T> {
        FixedRing::insert(self, index, item)
    }

    fn remove(&mut self, index: usize) -> Option<T> {
        FixedRing::remove(self, index)
    }

    fn swap(&mut self, i: usize, j: usize) {
        FixedRing::swap(self, i, j);
    }

    fn rotate_left(&mut self, count: usize) {
        FixedRing::rotate_left(self, count);
    }

    fn remove_range<X: RangeBounds<usize>>(&mut self, range: X) {
        FixedRing::remove_range(self, range);
    }

    fn clone_into(&self, other: &mut Self) -> Result<(), AllocError>
    where
        T: Clone,
    {
        self.clone_onto(other)
    }
}
