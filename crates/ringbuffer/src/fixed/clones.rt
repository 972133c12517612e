//! Clones of items, put onto a ring of a fixed capacity.
ghost use Rattle.std.specs.Prelude.{◌≡◌, ◌+◌, ◌≤◌, [], ◌++◌, length};
ghost use Rattle.ringbuffer.specs.Clones.{ClonesFirst};
ghost use Rattle.ringbuffer.specs.View.{after_fill, after_puts};
ghost use Rattle.ringbuffer.specs.Layout.{IsLaidOut, LaysOut, view_from};

use crate::fixed::{FixedRing, Span};
use ring_core::RingBuffer;
use ring_slots::RingSlots;
use std::alloc::AllocError;

impl<T: Clone + Drop, S: RingSlots<T>> FixedRing<T, S> {
    /// Drops all items of another ring, and pushes clones of this one's items onto it. Where a clone is refused, those
    /// before it stay there.
    #[inline]
    pub(crate) fn clone_onto(&self, other: &mut Self) -> Result<(), AllocError>
        requires { length self.now.items ≤ S.limit other.old.capacity }
        ensures { ClonesFirst T.is_clone T.is_infallible self.now.items result
            (λ ys. other.new ≡ after_fill other.old ys) }
    {
        match self.rows() {
            Some((first, second)) => other.fill_from_slices(first, second),
            None => self.clone_each_onto(other),
        }
    }

    /// Drops all items, and pushes clones of the items of two slices in order. Where a clone is refused, those before it
    /// stay.
    #[inline]
    pub(crate) fn fill_from_slices(&mut self, first: &[T], second: &[T]) -> Result<(), AllocError>
        requires { length first.now + length second.now ≤ S.limit self.old.capacity }
        ensures { ClonesFirst T.is_clone T.is_infallible (first.now ++ second.now) result
            (λ ys. self.new ≡ after_fill self.old ys) }
    {
        Self::empty_slots(&mut self.slots, self.span);
        let (len, made) = Self::put_clones_of_both(&mut self.slots, first, second);
        self.span = Span { start: 0, len };
        made
    }

    /// Drops all items of another ring, and pushes clones of this one's items onto it, read one by one.
    fn clone_each_onto(&self, other: &mut Self) -> Result<(), AllocError>
        requires { length self.now.items ≤ S.limit other.old.capacity }
        ensures { ClonesFirst T.is_clone T.is_infallible self.now.items result
            (λ ys. other.new ≡ after_fill other.old ys) }
    {
        Self::empty_slots(&mut other.slots, other.span);
        let (len, made) = self.clone_into_slots(&mut other.slots);
        other.span = Span { start: 0, len };
        made
    }

    /// Puts clones of the items into the slots of an empty ring that begins at the first. Returns how many it put. Where a
    /// clone is refused, those before it stay.
    fn clone_into_slots(&self, slots: &mut S) -> (usize, Result<(), AllocError>)
        requires laid_out { IsLaidOut (S.seen slots.old) 0 }
        requires empty { (view_from (S.seen slots.old) 0).items ≡ [] }
        requires room { length self.now.items ≤ length (S.seen slots.old).slots }
        ensures { ClonesFirst T.is_clone T.is_infallible self.now.items result.1
            (λ ys. (length ys ≡ result.0) × LaysOut (S.seen slots.old) (S.seen slots.new) 0
            (after_puts ys (view_from (S.seen slots.old) 0))) }
    {
        let count = self.len();
        for len in 0..count {
            let Ok(item) = self.at(len).clone() else {
                return (len, Err(AllocError));
            };
            Self::put_next(slots, len, item);
        }
        (count, Ok(()))
    }

    /// Puts clones of the items of two slices into the slots of an empty ring that begins at the first. Returns how many it
    /// put. Where a clone is refused, those before it stay.
    #[inline]
    fn put_clones_of_both(
        slots: &mut S,
        first: &[T],
        second: &[T],
    ) -> (usize, Result<(), AllocError>)
        requires laid_out { IsLaidOut (S.seen slots.old) 0 }
        requires empty { (view_from (S.seen slots.old) 0).items ≡ [] }
        requires room { length first.now + length second.now ≤ length (S.seen slots.old).slots }
        ensures { ClonesFirst T.is_clone T.is_infallible (first.now ++ second.now) result.1
            (λ ys. (length ys ≡ result.0) × LaysOut (S.seen slots.old) (S.seen slots.new) 0
            (after_puts ys (view_from (S.seen slots.old) 0))) }
    {
        let (len, made) = Self::put_clones(slots, 0, first);
        if let Err(error) = made {
            return (len, Err(error));
        }
        Self::put_clones(slots, len, second)
    }

    /// Puts clones after the last item of a ring that begins at the first slot, side by side. Returns the length after
    /// them. Where a clone is refused, those before it stay.
    #[inline]
    fn put_clones(slots: &mut S, len: usize, items: &[T]) -> (usize, Result<(), AllocError>)
        requires laid_out { IsLaidOut (S.seen slots.old) 0 }
        requires len { len ≡ length (view_from (S.seen slots.old) 0).items }
        requires room { len + length items.now ≤ length (S.seen slots.old).slots }
        ensures { ClonesFirst T.is_clone T.is_infallible items.now result.1
            (λ ys. (result.0 ≡ len + length ys) × LaysOut (S.seen slots.old) (S.seen slots.new) 0
            (after_puts ys (view_from (S.seen slots.old) 0))) }
    {
        // For the proof: the number of slots fits a word.
        let _ = slots.size();
        for i in 0..items.len() {
            let Ok(item) = items[i].clone() else {
                return (len + i, Err(AllocError));
            };
            Self::put_next(slots, len + i, item);
        }
        (len + items.len(), Ok(()))
    }
}
