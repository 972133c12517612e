//! Pushing the items of a source onto a ring of a fixed capacity.
ghost use Rattle.std.specs.Prelude.{◌≡◌, ◌+◌, ◌-◌, ◌%◌, ◌^◌, ◌<◌, ◌≤◌, if◌then◌else◌, false, ◌++◌, IsOk, List, length, true, Some};
ghost use Rattle.std.specs.Iterator.{Drains, ExtendsWithItems, IsFinite, IsFiniteIterable};
ghost use Rattle.ringbuffer.specs.View.{after_put, after_take, after_extend};
ghost use Rattle.ringbuffer.specs.Sources.{Gives, GivesAll};
ghost use Rattle.ringbuffer.specs.Layout.{after_pushes, CanPush, IsSpanOf, LaysOut, view_from};
ghost use Rattle.ringbuffer.specs.Pushing.{PushesOnto};
ghost use Rattle.ring_core.specs.Contents.{ChangesSlots, keep_last};
ghost use Rattle.ring_core.specs.Extension.{Extends};

use crate::fixed::{FixedRing, Span};
use ring_core::RingBuffer;
use ring_slots::RingSlots;
use std::alloc::AllocError;

impl<T: Drop, S: RingSlots<T>> FixedRing<T, S> {
    /// Pushes the items of a source that ends, in order, as the trait's `extend` does. It stands here too, since each
    /// ring is std's `Extend` as well, and a call by a dot would find both.
    pub fn extend<I: IntoIterator<Item = T>>(&mut self, items: I) -> Result<(), AllocError>
        requires { IsFiniteIterable I.into_iter_gives I.IntoIter.can_next I.IntoIter.remaining
            items }
        ensures extends { Extends I.into_iter_gives I.IntoIter.next_gives items (Some (S.limit self.old.capacity))
            self.old.items self.new.items self.old.changes self.new.changes result }
        ensures limit { S.limit self.new.capacity ≡ S.limit self.old.capacity }
        ensures succeeds { IsOk result }
    {
        RingBuffer::extend(self, items)
    }

    /// Pushes the items of a source that ends, in order.
    pub(crate) fn extend_one_by_one<I: IntoIterator<Item = T>>(&mut self, items: I)
    where
        I::IntoIter: Drop,
        requires { IsFiniteIterable I.into_iter_gives I.IntoIter.can_next I.IntoIter.remaining
            items }
        ensures { GivesAll I.into_iter_gives I.IntoIter.next_gives items
            (λ xs. self.new ≡ after_extend (S.limit self.old.capacity) self.old xs) }
    {
        let capacity = self.slots.limit();
        let span = self.span;
        let span = Self::push_each(&mut self.slots, span, items, capacity);
        self.span = span;
    }

    /// Pushes the items of a source that ends, in order. Returns where the items lie then.
    #[inline]
    fn push_each<I: IntoIterator<Item = T>>(
        slots: &mut S,
        span: Span,
        items: I,
        capacity: usize,
    ) -> Span
    where
        I::IntoIter: Drop,
        requires ends { IsFiniteIterable I.into_iter_gives I.IntoIter.can_next I.IntoIter.remaining
            items }
        requires can_push { CanPush (S.seen slots.old) span capacity }
        ensures { GivesAll I.into_iter_gives I.IntoIter.next_gives items
            (PushesOnto (S.seen slots.old) (S.seen slots.new) span result capacity) }
    {
        let mut span = span;
        for item in items {
            let old;
            (span, old) = Self::push_from(slots, span, item, capacity);
            drop(old);
        }
        span
    }

    /// Pushes the items of a source that ends, in order, stretch by stretch.
    pub(crate) fn extend_by_stretch<I: IntoIterator<Item = T>>(&mut self, items: I)
    where
        I::IntoIter: Drop,
        requires { IsFiniteIterable I.into_iter_gives I.IntoIter.can_next I.IntoIter.remaining
            items }
        ensures { GivesAll I.into_iter_gives I.IntoIter.next_gives items
            (λ xs. self.new ≡ after_extend (S.limit self.old.capacity) self.old xs) }
    {
        let capacity = self.slots.limit();
        let span = self.span;
        let span = Self::push_all(&mut self.slots, span, items.into_iter(), capacity);
        self.span = span;
    }

    /// Pushes the items of a source that ends, in order. Returns where the items lie then. The slots are written stretch by
    /// stretch, which the compiler makes a loop with neither a mask nor a comparison of the length.
    #[inline]
    fn push_all<I: Iterator<Item = T> + Drop>(
        slots: &mut S,
        span: Span,
        mut items: I,
        capacity: usize,
    ) -> Span
        requires can_next { I.can_next items }
        requires ends { IsFinite (I.remaining items) }
        requires can_push { CanPush (S.seen slots.old) span capacity }
        ensures { (xs : List T) × Drains I.next_gives items xs
            × PushesOnto (S.seen slots.old) (S.seen slots.new) span result capacity xs }
    {
        let mut span = span;
        while let Some(item) = items.next() {
            let (next, old) = Self::push_from(slots, span, item, capacity);
            drop(old);
            let more;
            (span, more) = Self::push_stretch(slots, next, &mut items, capacity);
            if !more {
                return span;
            }
        }
        span
    }

    /// Pushes the next items of a source up to the last slot, or to the capacity where the ring isn't full. Returns where
    /// the items lie then, and whether more may come.
    #[inline]
    fn push_stretch<I: Iterator<Item = T>>(
        slots: &mut S,
        span: Span,
        items: &mut I,
        capacity: usize,
    ) -> (Span, bool)
        requires can_next { I.can_next items.old }
        requires ends { IsFinite (I.remaining items.old) }
        requires can_push { CanPush (S.seen slots.old) span capacity }
        ensures { (xs : List T)
            × Gives I.can_next I.next_gives I.remaining result.1 items.old xs items.new
            × PushesOnto (S.seen slots.old) (S.seen slots.new) span result.0 capacity xs }
    {
        let full = span.len == capacity;
        let end = slots.place_after(span.start, span.len);
        let count = Self::pushes_to_end(slots.size(), end, capacity - span.len, full);
        for i in 0..count {
            let Some(item) = items.next() else {
                let now = Self::after_pushes(slots, span, i, full);
                return (now, false);
            };
            let now = Self::after_pushes(slots, span, i, full);
            Self::push_at(slots, now, end + i, item, full);
        }
        let now = Self::after_pushes(slots, span, count, full);
        (now, true)
    }

    /// Returns the number of pushes up to the last slot, or to the capacity if the ring isn't full.
    #[inline]
    pub(crate) fn pushes_to_end(size: usize, end: usize, room: usize, full: bool) -> usize
        requires { end ≤ size }
        ensures end { end + result ≤ size }
        ensures room { full ≡ false → result ≤ room }
        ensures some { end < size → (full ≡ false → 0 < room) → 0 < result }
    {
        if full {
            size - end
        } else {
            room.min(size - end)
        }
    }

    /// Returns where the items lie after `count` pushes: onto a full ring the start moves on, otherwise the length grows.
    #[inline]
    pub(crate) fn after_pushes(slots: &S, span: Span, count: usize, full: bool) -> Span
        requires start { span.start < length (S.seen slots.now).slots }
        requires count { count ≤ length (S.seen slots.now).slots }
        requires fits { full ≡ false → span.len + count < 2 ^ 64 }
        ensures { result ≡ after_pushes full span count (length (S.seen slots.now).slots) }
    {
        let Span { start, len } = span;
        if full {
            let start = slots.place(start, count);
            Span { start, len }
        } else {
            let len = len + count;
            Span { start, len }
        }
    }

    /// Pushes an item, where the place after the last is known, and whether the first gives way.
    #[inline]
    pub(crate) fn push_at(slots: &mut S, span: Span, place: usize, item: T, full: bool)
        requires span { IsSpanOf span (S.seen slots.old) }
        requires some { full ≡ true → 0 < span.len }
        requires room { full ≡ false → span.len < length (S.seen slots.old).slots }
        requires place { place ≡ (span.start + span.len) % length (S.seen slots.old).slots }
        ensures { LaysOut (S.seen slots.old) (S.seen slots.new)
            (if full then (span.start + 1) % length (S.seen slots.old).slots else span.start)
            (if full then after_put (after_take (view_from (S.seen slots.old) span.start)) item
            else after_put (view_from (S.seen slots.old) span.start) item) }
    {
        if full {
            let start = Self::drop_from(slots, span.start);
            let len = span.len - 1;
            Self::put_at(slots, Span { start, len }, place, item);
        } else {
            Self::put_at(slots, span, place, item);
        }
    }
}

/// As the ring's own `extend`. It is never refused.
impl<T: Drop, S: RingSlots<T>> Extend<T> for FixedRing<T, S> {
    ghost extend_gives = { λ ring items made. (made.items ≡ keep_last (Some (S.limit ring.capacity)) (ring.items ++ items))
        × (S.limit made.capacity ≡ S.limit ring.capacity)
        × ChangesSlots ring.changes ring.items made.changes made.items (length items) };

    fn extend<U: IntoIterator<Item = T>>(&mut self, items: U) -> Result<(), AllocError>
        requires { IsFiniteIterable U.into_iter_gives U.IntoIter.can_next U.IntoIter.remaining
            items }
        ensures ran { ExtendsWithItems U.into_iter_gives U.IntoIter.next_gives (λ ring items made.
            (made.items ≡ keep_last (Some (S.limit ring.capacity)) (ring.items ++ items))
            × (S.limit made.capacity ≡ S.limit ring.capacity)
            × ChangesSlots ring.changes ring.items made.changes made.items (length items)) items self.old self.new result }
        ensures succeeds { IsOk result }
    {
        FixedRing::extend(self, items)
    }
}
