//! The items of a ring moved side by side, and lent as one slice.
ghost use Rattle.std.specs.Prelude.{◌≡◌, ◌+◌, ◌*◌, ◌<◌, ◌≤◌, length};
ghost use Rattle.std.specs.Borrow.{Array, Lends, sem};

use crate::fixed::{FixedRing, Span};
use ring_slots::LendsRows;

impl<T: Drop, S: LendsRows<T>> FixedRing<T, S> {
    ghost use Rattle.ringbuffer.specs.Layout.{IsSpanOf, view_from};
    ghost use Rattle.ringbuffer.specs.contiguous.Contiguous.{beside, contiguous_start};
    ghost use Rattle.ringbuffer.specs.View.{after_rewrite, rotated};
    ghost use Rattle.ringbuffer.specs.contracts.fixed.FixedRing.{the_row};

    /// Lends the items in one slice, oldest first, for writing. Where some go on at the first slot, they are moved first,
    /// without memory, in O(n). This counts as four changes an item, moved or not.
    pub fn make_contiguous(&mut self) -> &mut [T]
        ensures* writes_back { sem 𝓛
            (Lends (the_row T.row S.row S.RingSlots) (Array T.row 0) self.entry result
            (after_rewrite self.old)) }
        ensures value { result.now ≡ self.old.items }
    {
        let span = self.span;
        let changes = self
            .slots
            .changes()
            .after(span.len)
            .after(span.len)
            .after(span.len)
            .after(span.len);
        let start = Self::move_contiguous(&mut self.slots, span);
        self.span.start = start;
        self.slots.slice_mut(start, span.len, changes)
    }

    /// Moves the items side by side, where they go on at the first slot. Returns their next start. Where the free slots are
    /// at least as many as the items in the last slots, each item moves once.
    fn move_contiguous(slots: &mut S, span: Span) -> usize
        requires span { IsSpanOf span (S.seen slots.old) }
        ensures start { result ≡ contiguous_start (length (S.seen slots.old).slots) span.start span.len }
        ensures contiguous { (S.seen slots.new).slots
            ≡ beside (length (S.seen slots.old).slots) result (view_from (S.seen slots.old) span.start).items }
        ensures counted { (S.seen slots.new).changes ≤ (S.seen slots.old).changes + 3 * span.len }
        ensures capacity { (S.seen slots.new).capacity ≡ (S.seen slots.old).capacity }
    {
        let first = slots.size() - span.start;
        if first < span.len && span.len <= span.start {
            slots.bring_first(span.start, span.len - first);
            return 0;
        }
        let (moved, start) = Self::close_gap(slots, span);
        let changes = slots.changes().after(span.len);
        slots
            .slice_mut(start, span.len, changes)
            .rotate_right(moved);
        start
    }

    /// Moves the items from the front that lie in the last slots down after the last item, so that all lie side by side.
    /// Returns how many it moved, and the next start.
    fn close_gap(slots: &mut S, span: Span) -> (usize, usize)
        requires span { IsSpanOf span (S.seen slots.old) }
        ensures start { result.1 ≡ contiguous_start (length (S.seen slots.old).slots) span.start span.len }
        ensures moved { result.0 ≤ span.len }
        ensures contiguous { (S.seen slots.new).slots ≡ beside (length (S.seen slots.old).slots) result.1
            (rotated result.0 (view_from (S.seen slots.old) span.start).items) }
        ensures counted { (S.seen slots.new).changes ≡ (S.seen slots.old).changes + 2 * result.0 }
        ensures capacity { (S.seen slots.new).capacity ≡ (S.seen slots.old).capacity }
    {
        let first = slots.size() - span.start;
        if span.len <= first {
            return (0, span.start);
        }
        slots.move_down(span.start, span.len - first);
        (first, 0)
    }
}
