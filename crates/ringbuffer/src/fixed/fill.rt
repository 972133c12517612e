//! Filling a ring of a fixed capacity.
ghost use Rattle.std.specs.Prelude.{◌≡◌, ◌<◌, ◌≤◌, [], List, length};
ghost use Rattle.std.specs.List.{FoldsTo};
ghost use Rattle.ringbuffer.specs.Clones.{ClonesOne};
ghost use Rattle.ringbuffer.specs.View.{after_put, after_puts, after_fill};
ghost use Rattle.ringbuffer.specs.Layout.{IsLaidOut, LaysOut, view_from};

use crate::fixed::{FixedRing, Span};
use ring_slots::RingSlots;
use std::alloc::AllocError;

impl<T: Drop, S: RingSlots<T>> FixedRing<T, S> {
    /// Drops all items, and pushes as many results of `make` as the limit says. An item counts once it is stored.
    pub(crate) fn fill_by_calls<F: FnMut() -> T + Drop>(&mut self, make: F)
        requires { F.IsAlwaysCallable make }
        ensures { (xs : List T) × (last : F) × FoldsTo F.step make xs last
            × (length xs ≡ S.limit self.old.capacity)
            × (self.new ≡ after_fill self.old xs) }
    {
        let capacity = self.slots.limit();
        Self::empty_slots(&mut self.slots, self.span);
        Self::put_results(&mut self.slots, make, capacity);
        self.span = Span {
            start: 0,
            len: capacity,
        };
    }

    /// Drops all items, and pushes as many clones of `value` as the limit says. Where a clone is refused, those before it
    /// stay.
    pub(crate) fn fill_by_clones(&mut self, value: T) -> Result<(), AllocError>
    where
        T: Clone,
        ensures { ClonesOne T.is_clone T.is_infallible value (S.limit self.old.capacity) result
            (λ xs. self.new ≡ after_fill self.old xs) }
    {
        let capacity = self.slots.limit();
        Self::empty_slots(&mut self.slots, self.span);
        let (len, made) = Self::put_clones_of(&mut self.slots, value, capacity);
        self.span = Span { start: 0, len };
        made
    }

    /// Puts as many results of `make` as `count` says into the slots of an empty ring that begins at the first.
    #[inline]
    fn put_results<F: FnMut() -> T + Drop>(slots: &mut S, mut make: F, count: usize)
        requires callable { F.IsAlwaysCallable make }
        requires laid_out { IsLaidOut (S.seen slots.old) 0 }
        requires empty { (view_from (S.seen slots.old) 0).items ≡ [] }
        requires room { count ≤ length (S.seen slots.old).slots }
        ensures { (xs : List T) × (last : F) × FoldsTo F.step make xs last × (length xs ≡ count)
            × LaysOut (S.seen slots.old) (S.seen slots.new) 0
            (after_puts xs (view_from (S.seen slots.old) 0)) }
    {
        for len in 0..count {
            Self::put_next(slots, len, make());
        }
    }

    /// Puts as many clones of `value` as `count` says into the slots of an empty ring that begins at the first. Returns
    /// how many it put. Where a clone is refused, those before it stay.
    #[inline]
    fn put_clones_of(slots: &mut S, value: T, count: usize) -> (usize, Result<(), AllocError>)
    where
        T: Clone,
        requires laid_out { IsLaidOut (S.seen slots.old) 0 }
        requires empty { (view_from (S.seen slots.old) 0).items ≡ [] }
        requires room { count ≤ length (S.seen slots.old).slots }
        ensures { ClonesOne T.is_clone T.is_infallible value count result.1
            (λ xs. (length xs ≡ result.0) × LaysOut (S.seen slots.old) (S.seen slots.new) 0
            (after_puts xs (view_from (S.seen slots.old) 0))) }
    {
        for len in 0..count {
            let Ok(item) = value.clone() else {
                return (len, Err(AllocError));
            };
            Self::put_next(slots, len, item);
        }
        (count, Ok(()))
    }

    /// Puts an item after the last of a ring that begins at the first slot, so that a loop of these goes straight on.
    #[inline]
    pub(crate) fn put_next(slots: &mut S, len: usize, item: T)
        requires laid_out { IsLaidOut (S.seen slots.old) 0 }
        requires len { len ≡ length (view_from (S.seen slots.old) 0).items }
        requires room { len < length (S.seen slots.old).slots }
        ensures { LaysOut (S.seen slots.old) (S.seen slots.new) 0
            (after_put (view_from (S.seen slots.old) 0) item) }
    {
        Self::put_at(slots, Span { start: 0, len }, len, item);
    }
}
