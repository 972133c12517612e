//! The steps of which the calls of a ring of a fixed capacity are made: one item put in or taken out, over slots and a span.
ghost use Rattle.std.specs.Prelude.{◌≡◌, ◌+◌, ◌-◌, ◌%◌, ◌<◌, length, None, Some, slice_get};
ghost use Rattle.ring_core.specs.Contents.{overwritten};
ghost use Rattle.ringbuffer.specs.View.{after_pop, after_push, after_put, after_put_first, after_take};
ghost use Rattle.ringbuffer.specs.Moved.{ReturnsWith, TakesWith};
ghost use Rattle.ringbuffer.specs.Layout.{CanPush, IsLaidOut, IsSpanOf, LaysOut, view_from};

use crate::fixed::{FixedRing, Span};
use core::mem::replace_with;
use ring_slots::RingSlots;

/// Makes a call on a ring. One that goes by value is a local meanwhile, so that its fields stay in registers.
#[inline]
pub(crate) fn moved<R, X, Y, F: FnOnce(&mut R, X) -> Y>(
    ring: &mut R,
    goes_by_value: bool,
    x: X,
    call: F,
) -> Y
    requires { TakesWith F.FnOnce call ring.old x }
    ensures { ReturnsWith F.FnOnce call ring.old x result ring.new }
{
    if !goes_by_value {
        return call(ring, x);
    }
    replace_with(
        ring,
        (call, x),
        |ring, with|
            requires { TakesWith F.FnOnce with.0 ring with.1 }
            ensures { ReturnsWith F.FnOnce with.0 ring with.1 result.1 result.0 }
        {
            let (call, x) = with;
            let mut local = ring;
            let y = call(&mut local, x);
            (local, y)
        },
    )
}

impl<T: Drop, S: RingSlots<T>> FixedRing<T, S> {
    /// Pushes an item. Returns where the items lie then, and the item that gave way.
    #[inline]
    pub(crate) fn push_from(
        slots: &mut S,
        span: Span,
        item: T,
        capacity: usize,
    ) -> (Span, Option<T>)
        requires { CanPush (S.seen slots.old) span capacity }
        ensures after { LaysOut (S.seen slots.old) (S.seen slots.new) result.0.start
            (after_push capacity (view_from (S.seen slots.old) span.start) item) }
        ensures len { result.0.len
            ≡ length (after_push capacity (view_from (S.seen slots.old) span.start) item).items }
        ensures value { result.1
            ≡ overwritten (Some capacity) (view_from (S.seen slots.old) span.start).items }
    {
        let Span { start, len } = span;
        if len == capacity {
            let (start, old) = Self::put_over(slots, span, item);
            (Span { start, len }, Some(old))
        } else {
            let place = slots.place(start, len);
            Self::put_at(slots, span, place, item);
            let len = len + 1;
            (Span { start, len }, None)
        }
    }

    /// Puts an item after the last, at the place that follows it.
    #[inline]
    pub(crate) fn put_at(slots: &mut S, span: Span, place: usize, item: T)
        requires span { IsSpanOf span (S.seen slots.old) }
        requires room { span.len < length (S.seen slots.old).slots }
        requires place { place ≡ (span.start + span.len) % length (S.seen slots.old).slots }
        ensures { LaysOut (S.seen slots.old) (S.seen slots.new) span.start
            (after_put (view_from (S.seen slots.old) span.start) item) }
    {
        slots.put(place, item);
    }

    /// Puts an item after the last once the first has given way. Returns the next start and the item that was first.
    #[inline]
    pub(crate) fn put_over(slots: &mut S, span: Span, item: T) -> (usize, T)
        requires span { IsSpanOf span (S.seen slots.old) }
        requires some { 0 < span.len }
        ensures value { slice_get (view_from (S.seen slots.old) span.start).items 0
            ≡ Some result.1 }
        ensures after { LaysOut (S.seen slots.old) (S.seen slots.new) result.0
            (after_put (after_take (view_from (S.seen slots.old) span.start)) item) }
    {
        let place = slots.place_after(span.start, span.len);
        let (next, old) = Self::take_from(slots, span.start);
        slots.put(place, item);
        (next, old)
    }

    /// Takes the last item. Inlined first of all, as `put_before` is, so that on a full ring their two places are found as
    /// one.
    #[inline(always)]
    pub(crate) fn take_last(slots: &mut S, span: Span) -> T
        requires span { IsSpanOf span (S.seen slots.old) }
        requires some { 0 < span.len }
        ensures value { slice_get (view_from (S.seen slots.old) span.start).items (span.len - 1)
            ≡ Some result }
        ensures after { LaysOut (S.seen slots.old) (S.seen slots.new) span.start
            (after_pop (view_from (S.seen slots.old) span.start)) }
    {
        let last = slots.place(span.start, span.len - 1);
        slots.take(last)
    }

    /// Puts an item before the first, where there is room for one. Returns its place, which is the next start.
    #[inline(always)]
    pub(crate) fn put_before(slots: &mut S, start: usize, item: T) -> usize
        requires laid_out { IsLaidOut (S.seen slots.old) start }
        requires room { length (view_from (S.seen slots.old) start).items
            < length (S.seen slots.old).slots }
        ensures { LaysOut (S.seen slots.old) (S.seen slots.new) result
            (after_put_first (view_from (S.seen slots.old) start) item) }
    {
        let place = slots.place(start, slots.size() - 1);
        slots.put(place, item);
        place
    }

    /// Takes the first item, and returns the next start before it.
    #[inline]
    pub(crate) fn take_from(slots: &mut S, start: usize) -> (usize, T)
        requires laid_out { IsLaidOut (S.seen slots.old) start }
        requires some { 0 < length (view_from (S.seen slots.old) start).items }
        ensures value { slice_get (view_from (S.seen slots.old) start).items 0 ≡ Some result.1 }
        ensures next { result.0 ≡ (start + 1) % length (S.seen slots.old).slots }
        ensures after { LaysOut (S.seen slots.old) (S.seen slots.new) result.0
            (after_take (view_from (S.seen slots.old) start)) }
    {
        let next = slots.next(start);
        (next, slots.take(start))
    }

    /// Drops the first item, and returns the next start.
    #[inline]
    pub(crate) fn drop_from(slots: &mut S, start: usize) -> usize
        requires laid_out { IsLaidOut (S.seen slots.old) start }
        requires some { 0 < length (view_from (S.seen slots.old) start).items }
        ensures next { result ≡ (start + 1) % length (S.seen slots.old).slots }
        ensures after { LaysOut (S.seen slots.old) (S.seen slots.new) result
            (after_take (view_from (S.seen slots.old) start)) }
    {
        let next = slots.next(start);
        slots.discard(start);
        next
    }
}
