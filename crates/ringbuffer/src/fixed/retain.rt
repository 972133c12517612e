//! Keeping the items of a ring of a fixed capacity that a test picks.
ghost use Rattle.std.specs.Prelude.{◌≡◌, ◌≤◌, length};
ghost use Rattle.std.specs.Fn.{CalledAt};
ghost use Rattle.ringbuffer.specs.Layout.{IsSpanOf, LaysOut, view_from};
ghost use Rattle.ringbuffer.specs.Retaining.{Retains};
ghost use Rattle.ringbuffer.specs.View.{View};

use crate::fixed::{FixedRing, Span};
use ring_slots::RingSlots;

impl<T: Drop, S: RingSlots<T>> FixedRing<T, S> {
    /// Keeps the items for which `keep` returns `true`, in order, and drops the others.
    pub(crate) fn retain_in_place<F: FnMut(&T) -> bool>(&mut self, keep: F)
        requires { F.IsAlwaysCallable keep }
        ensures { Retains (CalledAt F.FnMut) keep self.old self.new }
    {
        self.span.len = Self::close_up(&mut self.slots, self.span, keep);
    }

    /// Keeps the items for which `keep` returns `true`, each in the slot after those kept before it, and drops the others.
    /// Returns how many it kept.
    fn close_up<F: FnMut(&T) -> bool>(slots: &mut S, span: Span, mut keep: F) -> usize
        requires span { IsSpanOf span (S.seen slots.old) }
        requires callable { F.IsAlwaysCallable keep }
        ensures kept { (v : View T) × LaysOut (S.seen slots.old) (S.seen slots.new) span.start v
            × Retains (CalledAt F.FnMut) keep (view_from (S.seen slots.old) span.start) v
            × (result ≡ length v.items) }
        ensures within { result ≤ span.len }
    {
        let mut kept = 0;
        for index in 0..span.len {
            let place = slots.place_branchless(span.start, index);
            if !keep(slots.get(place)) {
                slots.discard(place);
                continue;
            }
            if kept < index {
                Self::move_item(slots, span.start, index, kept);
            }
            kept += 1;
        }
        kept
    }
}
