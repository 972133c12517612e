//! Copies of a slice's items put into a ring of a fixed capacity.
ghost use Rattle.std.specs.Prelude.{◌≡◌, ◌+◌, ◌%◌, ◌<◌, ◌≤◌, ℕ, length, min};
ghost use Rattle.ringbuffer.specs.Layout.{IsSpanOf, LaysOut, view_from};
ghost use Rattle.ringbuffer.specs.View.{after_extend, after_extend_from_slice, after_push, after_puts, after_takes};

use crate::few::FEW_IN;
use crate::fixed::{FixedRing, Span};
use ring_slots::{ArraySlots, CopySlots, HeapSlots, RingSlots};

/// Slots that take in copies of many items at once.
pub trait TakesCopies<T: Copy + Drop>: RingSlots<T> {
    ghost use Rattle.std.specs.Prelude.{◌≡◌, true};
    ghost use Rattle.ring_slots.specs.Slots.{IsEmptyStretch, with_items};

    /// Puts copies of some items into empty slots that lie side by side from a place on, each by one change.
    #[inline]
    fn put_copies(&mut self, from: usize, items: &[T])
        requires { IsEmptyStretch (Self.seen self.old).slots from (length items.now) }
        ensures { Self.seen self.new ≡ with_items (Self.seen self.old) from items.now }
    {
        // For the proof: the number of slots fits a word.
        let _ = self.size();
        for k in 0..items.len() {
            self.put(from + k, items[k]);
        }
    }

    /// Returns whether a full ring does better to write new items over the oldest. Their slots are the same only where the
    /// limit is the number of slots.
    fn writes_over() -> bool
        ensures { result ≡ true → (capacity size : ℕ) → Self.is_size capacity size → Self.limit capacity ≡ size };
}

impl<T: Copy + Drop> TakesCopies<T> for HeapSlots<T> {
    #[inline]
    fn put_copies(&mut self, from: usize, items: &[T]) {
        HeapSlots::put_copies(self, from, items);
    }

    // No step is taken to empty a slot.
    #[inline]
    fn writes_over() -> bool {
        false
    }
}

impl<T: Copy + Drop, const CAP: usize> TakesCopies<T> for ArraySlots<T, CAP> {
    // To empty a slot is to write its mark.
    #[inline]
    fn writes_over() -> bool {
        true
    }
}

impl<T: Copy + Drop, const CAP: usize> TakesCopies<T> for CopySlots<T, CAP> {
    #[inline]
    fn put_copies(&mut self, from: usize, items: &[T]) {
        CopySlots::put_copies(self, from, items);
    }

    // No step is taken to empty a slot.
    #[inline]
    fn writes_over() -> bool {
        false
    }
}

impl<T: Copy + Drop, S: TakesCopies<T>> FixedRing<T, S> {
    /// Pushes copies of a slice's items in order, as `extend` would: the oldest items give way. Items of the slice that
    /// later ones would overwrite are passed over. Takes O(n) in those that are put.
    #[inline]
    pub fn extend_from_slice(&mut self, items: &[T])
        ensures { self.new ≡ after_extend_from_slice (S.limit self.old.capacity) self.old items.now }
    {
        let capacity = self.slots.limit();
        if !S::writes_over() && items.len() == 1 {
            return self.push_one(items[0]);
        }
        let (_, newest) = items.split_at(items.len().saturating_sub(capacity));
        if !S::writes_over() {
            self.keep_newest(capacity - newest.len());
            self.put_all(newest);
        } else if newest.len() < FEW_IN {
            self.extend_one_by_one(newest.iter().copied());
        } else {
            self.write_over(newest);
        }
    }

    /// Pushes an item, and drops the one that it overwrites: to find its stretch of slots would cost more. Out of line, so
    /// that many items pay for a look at their number alone.
    #[inline(never)]
    fn push_one(&mut self, item: T)
        ensures { self.new ≡ after_push (S.limit self.old.capacity) self.old item }
    {
        let capacity = self.slots.limit();
        let (span, _) = Self::push_from(&mut self.slots, self.span, item, capacity);
        self.span = span;
    }

    /// Pushes copies of no more items than the limit, stretch by stretch: those that find no room go into the slots of the oldest. Out of line, so
    /// that few items take no step for it.
    #[inline(never)]
    fn write_over(&mut self, items: &[T])
        requires within { length items.now ≤ S.limit self.old.capacity }
        requires same_slots { (capacity size : ℕ) → S.is_size capacity size → S.limit capacity ≡ size }
        ensures { self.new ≡ after_extend (S.limit self.old.capacity) self.old items.now }
    {
        let room = self.slots.limit() - self.span.len;
        let (fitting, others) = items.split_at(items.len().min(room));
        self.put_all(fitting);
        self.replace_oldest(others);
    }

    /// Puts copies of the items of a slice in the place of as many oldest items. The ring is full where there are any.
    fn replace_oldest(&mut self, items: &[T])
        requires full { 0 < length items.now → length self.old.items ≡ S.limit self.old.capacity }
        requires within { length items.now ≤ S.limit self.old.capacity }
        requires same_slots { (capacity size : ℕ) → S.is_size capacity size → S.limit capacity ≡ size }
        ensures { self.new ≡ after_puts items.now (after_takes (length items.now) self.old) }
    {
        let span = self.span;
        let (first, second) = items.split_at(items.len().min(self.slots.size() - span.start));
        let start = Self::replace_contiguous(&mut self.slots, span, first);
        let span = Span {
            start,
            len: span.len,
        };
        self.span.start = Self::replace_contiguous(&mut self.slots, span, second);
    }

    /// Puts copies of items in the place of as many oldest ones, which lie side by side. Returns the next start.
    #[inline]
    fn replace_contiguous(slots: &mut S, span: Span, items: &[T]) -> usize
        requires span { IsSpanOf span (S.seen slots.old) }
        requires full { 0 < length items.now → span.len ≡ length (S.seen slots.old).slots }
        requires contiguous { span.start + length items.now ≤ length (S.seen slots.old).slots }
        ensures start { result ≡ (span.start + length items.now) % length (S.seen slots.old).slots }
        ensures after { LaysOut (S.seen slots.old) (S.seen slots.new) result
            (after_puts items.now (after_takes (length items.now) (view_from (S.seen slots.old) span.start))) }
    {
        // For the proof: the number of slots fits a word.
        let _ = slots.size();
        for k in 0..items.len() {
            slots.discard(span.start + k);
            slots.put(span.start + k, items[k]);
        }
        slots.place(span.start, items.len())
    }

    /// Puts copies of the items of a slice after the last, where there is room for them.
    fn put_all(&mut self, items: &[T])
        requires { length self.old.items + length items.now ≤ S.limit self.old.capacity }
        ensures { self.new ≡ after_puts items.now self.old }
    {
        // For the proof: the number of slots fits a word.
        let _ = self.slots.size();
        let span = self.span;
        Self::put_round(&mut self.slots, span, items);
        self.span.len = span.len + items.len();
    }

    /// Puts copies of items after the last, in two stretches of slots: up to the last slot, and on from the first.
    fn put_round(slots: &mut S, span: Span, items: &[T])
        requires span { IsSpanOf span (S.seen slots.old) }
        requires room { span.len + length items.now ≤ length (S.seen slots.old).slots }
        ensures { LaysOut (S.seen slots.old) (S.seen slots.new) span.start
            (after_puts items.now (view_from (S.seen slots.old) span.start)) }
    {
        let end = slots.place_after(span.start, span.len);
        let (first, second) = items.split_at(items.len().min(slots.size() - end));
        Self::put_copies(slots, span, end, first);
        // A slice that ends before the last slot has no second stretch.
        if second.is_empty() {
            return;
        }
        let start = span.start;
        let len = span.len + first.len();
        Self::put_copies(slots, Span { start, len }, 0, second);
    }

    /// Puts copies of items after the last, side by side from a place on.
    fn put_copies(slots: &mut S, span: Span, place: usize, items: &[T])
        requires span { IsSpanOf span (S.seen slots.old) }
        requires room { span.len + length items.now ≤ length (S.seen slots.old).slots }
        requires place { 0 < length items.now
            → place ≡ (span.start + span.len) % length (S.seen slots.old).slots }
        requires contiguous { place + length items.now ≤ length (S.seen slots.old).slots }
        ensures { LaysOut (S.seen slots.old) (S.seen slots.new) span.start
            (after_puts items.now (view_from (S.seen slots.old) span.start)) }
    {
        slots.put_copies(place, items);
    }
}
