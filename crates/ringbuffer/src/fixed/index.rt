//! The calls of a ring of a fixed capacity at an index.
ghost use Rattle.std.specs.Prelude.{◌↔◌, IfErr, IsErr, OnOk, ◌≡◌, ◌+◌, ◌-◌, ◌%◌, ◌<◌, ◌≤◌, IsSome, List, None, Some, drop, length, min, slice_get, take};
ghost use Rattle.ring_slots.specs.Slots.{passed_down, passed_up};
ghost use Rattle.ringbuffer.specs.View.{after_cut, after_insert, after_remove, after_remove_range, after_swap, after_writes};
ghost use Rattle.std.specs.Range.Bound.{end_index, start_index};
ghost use Rattle.ringbuffer.specs.Layout.{IsSpanOf, LaysOut, Moves, slot_after, view_from};

use crate::fixed::{FixedRing, Span};
use ring_core::{RingBuffer, range_within};
use ring_slots::RingSlots;
use std::mem;
use std::ops::{Range, RangeBounds};

impl<T: Drop, S: RingSlots<T>> FixedRing<T, S> {
    /// Puts an item at an index, before the items from there on. At the length it is put last. Moves the fewer of the items
    /// before and after, each once: O(n) in these.
    ///
    /// # Errors
    ///
    /// Hands `item` back if the ring is full, which stays as it was.
    pub fn insert(&mut self, index: usize, item: T) -> Result<(), T>
        requires { index ≤ length self.old.items }
        ensures ok { OnOk result (self.new ≡ after_insert index item self.old) }
        ensures err { IfErr result (λ back. (back ≡ item) × (self.new ≡ self.old)) }
        ensures full { IsErr result ↔ (length self.old.items ≡ S.limit self.old.capacity) }
    {
        if self.is_full() {
            return Err(item);
        }
        let behind = self.span.len - index;
        if index <= behind {
            let first = self.pass_down(0, index, item);
            self.put_first(first);
            return Ok(());
        }
        let last = self.pass_up(index, behind, item);
        self.put_last(last);
        Ok(())
    }

    /// Takes out the item at an index, or returns `None` from the length on. Moves the fewer of the items before and after,
    /// each once: O(n) in these.
    pub fn remove(&mut self, index: usize) -> Option<T>
        ensures value { result ≡ slice_get self.old.items index }
        ensures some { index < length self.old.items → self.new ≡ after_remove index self.old }
        ensures none { length self.old.items ≤ index → self.new ≡ self.old }
    {
        if index >= self.len() {
            return None;
        }
        let behind = self.span.len - 1 - index;
        if index <= behind {
            let first = self.take_first()?;
            return Some(self.pass_up(0, index, first));
        }
        let last = self.pop_back()?;
        Some(self.pass_down(index, behind, last))
    }

    /// Exchanges the items at two indices below the length, by three slot changes, or none where the indices are equal.
    pub fn swap(&mut self, i: usize, j: usize)
        requires first { i < length self.old.items }
        requires second { j < length self.old.items }
        ensures { self.new ≡ after_swap i j self.old }
    {
        if i == j {
            return;
        }
        let a = self.slots.place_branchless(self.span.start, i);
        let b = self.slots.place_branchless(self.span.start, j);
        let first = self.slots.take(a);
        let second = mem::replace(self.slots.get_mut(b), first);
        self.slots.put(a, second);
    }

    /// Drops the items at the indexes in a range, as `2..5` or `3..`, in order. The fewer of the items before and after
    /// close the gap, each by one move. A bound past the length is cut to it, and a range that ends before it starts has
    /// no items. Takes O(n) in the items that are dropped or moved.
    ///
    /// ```rust
    /// ring.remove_range(2..5);
    /// ```
    pub fn remove_range<X: RangeBounds<usize>>(&mut self, range: X)
        requires { X.has_bounds range }
        ensures { self.new ≡ after_remove_range (start_index (X.start_bound range))
            (end_index (X.end_bound range) (length self.old.items)) self.old }
    {
        let span = self.span;
        let Range {
            start: from,
            end: to,
        } = range_within(&range, span.len);
        if from >= to {
            return;
        }
        if from <= span.len - to {
            self.span.start = Self::cut_from_front(&mut self.slots, span, from, to);
        } else {
            Self::cut_from_back(&mut self.slots, span, from, to);
        }
        self.span.len -= to - from;
    }

    /// Drops the items from an index up to another, and moves those before up, the last of them first. Returns the next
    /// start.
    fn cut_from_front(slots: &mut S, span: Span, from: usize, to: usize) -> usize
        requires span { IsSpanOf span (S.seen slots.old) }
        requires order { from < to }
        requires within { to ≤ span.len }
        ensures { LaysOut (S.seen slots.old) (S.seen slots.new) result
            (after_cut from to from (view_from (S.seen slots.old) span.start)) }
    {
        let gap = to - from;
        Self::drop_items(slots, span.start, from, to);
        for moved in 0..from {
            let index = from - 1 - moved;
            Self::move_item(slots, span.start, index, index + gap);
        }
        slots.place(span.start, gap)
    }

    /// Drops the items from an index up to another, and moves those after them down, the first of them first.
    fn cut_from_back(slots: &mut S, span: Span, from: usize, to: usize)
        requires span { IsSpanOf span (S.seen slots.old) }
        requires order { from < to }
        requires within { to ≤ span.len }
        ensures { LaysOut (S.seen slots.old) (S.seen slots.new) span.start
            (after_cut from to (span.len - to) (view_from (S.seen slots.old) span.start)) }
    {
        let gap = to - from;
        Self::drop_items(slots, span.start, from, to);
        for moved in 0..span.len - to {
            let index = from + moved;
            Self::move_item(slots, span.start, index + gap, index);
        }
    }

    /// Moves an item into an empty slot. Both are found by their counts from the start.
    #[inline]
    pub(crate) fn move_item(slots: &mut S, start: usize, from: usize, to: usize)
        requires start { start < length (S.seen slots.old).slots }
        requires from { from < length (S.seen slots.old).slots }
        requires to { to < length (S.seen slots.old).slots }
        requires full { IsSome (slot_after (S.seen slots.old).slots start from) }
        requires empty { slot_after (S.seen slots.old).slots start to ≡ None }
        ensures { Moves (S.seen slots.old) (S.seen slots.new) start from to }
    {
        let had = slots.place_branchless(start, from);
        let item = slots.take(had);
        let gets = slots.place_branchless(start, to);
        slots.put(gets, item);
    }

    /// Puts an item before the `count` items from an index on, each of which moves to the next index. Returns the one that
    /// was last, or `item` where there are none.
    fn pass_up(&mut self, index: usize, count: usize, item: T) -> T
        requires { index + count ≤ length self.old.items }
        ensures { (xs : List T) × passed_up item result (take count (drop index self.old.items)) xs
            × (self.new ≡ after_writes index xs self.old) }
    {
        let (place, first) = Self::stretch(&self.slots, self.span.start, index, count);
        let over = self.slots.pass_up(place, first, item);
        self.slots.pass_up(0, count - first, over)
    }

    /// Puts an item after the `count` items from an index on, each of which moves to the index before. Returns the one
    /// that was first, or `item` where there are none.
    fn pass_down(&mut self, index: usize, count: usize, item: T) -> T
        requires { index + count ≤ length self.old.items }
        ensures { (xs : List T) × passed_down item result (take count (drop index self.old.items)) xs
            × (self.new ≡ after_writes index xs self.old) }
    {
        let (place, first) = Self::stretch(&self.slots, self.span.start, index, count);
        let over = self.slots.pass_down(0, count - first, item);
        self.slots.pass_down(place, first, over)
    }

    /// Returns the place of an index, and how many of `count` items from there on lie up to the last slot. The others lie
    /// from the first slot on.
    #[inline]
    fn stretch(slots: &S, start: usize, index: usize, count: usize) -> (usize, usize)
        requires start { start < length (S.seen slots.now).slots }
        requires index { index ≤ length (S.seen slots.now).slots }
        ensures place { result.0 ≡ (start + index) % length (S.seen slots.now).slots }
        ensures first { result.1 ≡ min count (length (S.seen slots.now).slots - result.0) }
    {
        let place = slots.place(start, index);
        (place, count.min(slots.size() - place))
    }
}
