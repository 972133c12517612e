//! Clones between slices and a ring of a fixed capacity.
ghost use Rattle.std.specs.Prelude.{◌≡◌, ◌<◌, ◌≤◌, IfOk, IsOk, List, MatchResult, OnOk, length, min, take};
ghost use Rattle.std.specs.List.{AllZip};
ghost use Rattle.ring_core.specs.Extension.{ClonesOut};
ghost use Rattle.ringbuffer.specs.Clones.{ClonesLast};
ghost use Rattle.ringbuffer.specs.Layout.{CanPush};
ghost use Rattle.ringbuffer.specs.Pushing.{PushesOnto};
ghost use Rattle.ringbuffer.specs.View.{after_extend};

use crate::fixed::{FixedRing, Span};
use ring_core::RingBuffer;
use ring_slots::RingSlots;
use std::alloc::AllocError;

impl<T: Clone + Drop, S: RingSlots<T>> FixedRing<T, S> {
    /// Pushes clones of the items of a slice that the limit leaves. Where a clone is refused, those before it stay.
    pub(crate) fn extend_by_clones(&mut self, items: &[T]) -> Result<(), AllocError>
        ensures { ClonesLast T.is_clone T.is_infallible (S.limit self.old.capacity) items.now result
            (λ ys. self.new ≡ after_extend (S.limit self.old.capacity) self.old ys) }
    {
        let capacity = self.slots.limit();
        let (_, newest) = items.split_at(items.len().saturating_sub(capacity));
        let span = self.span;
        let (span, pushed) = Self::push_clones(&mut self.slots, span, newest, capacity);
        self.span = span;
        pushed
    }

    /// Pushes clones of the items of a slice, stretch by stretch. Returns where the items lie then.
    #[inline]
    fn push_clones(
        slots: &mut S,
        span: Span,
        items: &[T],
        capacity: usize,
    ) -> (Span, Result<(), AllocError>)
        requires { CanPush (S.seen slots.old) span capacity }
        ensures { (ys : List T) × AllZip T.is_clone (take (length ys) items.now) ys
            × MatchResult result.1 (λ _. length ys ≡ length items.now) (λ _. (x : T) × ¬ (T.is_infallible x))
            × PushesOnto (S.seen slots.old) (S.seen slots.new) span result.0 capacity ys }
    {
        let mut span = span;
        let mut done = 0;
        while done < items.len() {
            let (count, pushed);
            (span, count, pushed) = Self::push_clone_stretch(slots, span, &items[done..], capacity);
            if let Err(error) = pushed {
                return (span, Err(error));
            }
            done += count;
        }
        (span, Ok(()))
    }

    /// Pushes clones of the first items of a slice up to the last slot, or to the capacity where the ring isn't full. Returns
    /// where the items lie then, and how many were pushed.
    #[inline]
    fn push_clone_stretch(
        slots: &mut S,
        span: Span,
        items: &[T],
        capacity: usize,
    ) -> (Span, usize, Result<(), AllocError>)
        requires { CanPush (S.seen slots.old) span capacity }
        ensures within { result.1 ≤ length items.now }
        ensures some { OnOk result.2 (0 < length items.now → 0 < result.1) }
        ensures pushed { (ys : List T) × (length ys ≡ result.1) × AllZip T.is_clone (take (length ys) items.now) ys
            × MatchResult result.2 (λ _. Unit {0}) (λ _. (x : T) × ¬ (T.is_infallible x))
            × PushesOnto (S.seen slots.old) (S.seen slots.new) span result.0 capacity ys }
    {
        let full = span.len == capacity;
        let end = slots.place_after(span.start, span.len);
        let free = Self::pushes_to_end(slots.size(), end, capacity - span.len, full);
        let count = free.min(items.len());
        for i in 0..count {
            let now = Self::after_pushes(slots, span, i, full);
            let Ok(clone) = items[i].clone() else {
                return (now, i, Err(AllocError));
            };
            Self::push_at(slots, now, end + i, clone, full);
        }
        (Self::after_pushes(slots, span, count, full), count, Ok(()))
    }

    /// Puts clones of the oldest items into the first places of a slice, as many as it has, one by one. Returns how many.
    pub(crate) fn clone_each_into(&self, output: &mut [T]) -> Result<usize, AllocError>
        ensures clones { ClonesOut T.is_clone self.now.items output.old output.new result }
        ensures count { IfOk result (λ n. n ≡ min (length output.old) (length self.now.items)) }
        ensures succeeds { ((x : T) → T.is_infallible x) → IsOk result }
    {
        let count = output.len().min(self.len());
        for k in 0..count {
            output[k] = self.at(k).clone()?;
        }
        Ok(count)
    }
}
