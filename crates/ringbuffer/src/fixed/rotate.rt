//! Rotations of the items of a ring of a fixed capacity.
ghost use Rattle.std.specs.Prelude.{◌≡◌, ◌-◌, ◌≤◌, length};
ghost use Rattle.ringbuffer.specs.View.{after_rotate, after_firsts_to_back, after_lasts_to_front};
ghost use Rattle.ringbuffer.specs.Layout.{IsSpanOf, LaysOut, view_from};

use crate::fixed::{FixedRing, Span};
use ring_slots::RingSlots;

impl<T: Drop, S: RingSlots<T>> FixedRing<T, S> {
    /// Moves the oldest items after the newest, as many as `count` says, or the others the other way: O(n) in the fewer.
    pub fn rotate_left(&mut self, count: usize)
        requires { count ≤ length self.old.items }
        ensures { self.new ≡ after_rotate count self.old }
    {
        let span = self.span;
        let others = span.len - count;
        self.span.start = if count <= others {
            Self::firsts_to_back(&mut self.slots, span, count)
        } else {
            Self::lasts_to_front(&mut self.slots, span, others)
        };
    }

    /// Moves the newest items before the oldest, as many as `count` says, or the others the other way: O(n) in the fewer.
    pub fn rotate_right(&mut self, count: usize)
        requires { count ≤ length self.old.items }
        ensures { self.new ≡ after_rotate (length self.old.items - count) self.old }
    {
        let others = self.span.len - count;
        self.rotate_left(others);
    }

    /// Moves the first items after the others, one by one, as many as `count` says. Returns the next start.
    fn firsts_to_back(slots: &mut S, span: Span, count: usize) -> usize
        requires span { IsSpanOf span (S.seen slots.old) }
        requires some { count ≤ span.len }
        ensures { LaysOut (S.seen slots.old) (S.seen slots.new) result
            (after_firsts_to_back count (view_from (S.seen slots.old) span.start)) }
    {
        let Span { start, len } = span;
        let mut start = start;
        for _ in 0..count {
            let end = slots.place_after(start, len);
            let (next, item) = Self::take_from(slots, start);
            let others = Span {
                start: next,
                len: len - 1,
            };
            Self::put_at(slots, others, end, item);
            start = next;
        }
        start
    }

    /// Moves the last items before the others, one by one, as many as `count` says. Returns the next start.
    fn lasts_to_front(slots: &mut S, span: Span, count: usize) -> usize
        requires span { IsSpanOf span (S.seen slots.old) }
        requires some { count ≤ span.len }
        ensures { LaysOut (S.seen slots.old) (S.seen slots.new) result
            (after_lasts_to_front count (view_from (S.seen slots.old) span.start)) }
    {
        let Span { start, len } = span;
        let mut start = start;
        for _ in 0..count {
            let item = Self::take_last(slots, Span { start, len });
            start = Self::put_before(slots, start, item);
        }
        start
    }
}
