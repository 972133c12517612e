//! The ring of a fixed capacity: items that lie in slots, counted round from a start.
ghost use Rattle.std.specs.Prelude.{◌≡◌, ◌<◌, ◌↔◌, ◌++◌, IfOk, IfSome, [], length, None, Some, replicate, slice_get};
ghost use Rattle.std.specs.Borrow.{Lends, sem};
ghost use Rattle.std.specs.List.{AllZip, list_any};
ghost use Rattle.std.specs.Option.{option_copied};
ghost use Rattle.ring_core.specs.Contents.{index_at};
ghost use Rattle.ringbuffer.specs.View.{View, after_write};
ghost use Rattle.ringbuffer.specs.Layout.{IsSound, view_from};

mod by_stretch;
mod clone_slices;
mod clones;
mod compare;
mod contiguous;
mod copies;
mod ends;
mod extend;
mod fill;
mod index;
mod iter;
mod retain;
mod ring_buffer;
mod rotate;
mod slices;
mod steps;

pub use copies::TakesCopies;
use ring_core::RingBuffer;
use ring_slots::RingSlots;
pub use slices::ShowsRows;
use std::alloc::{AllocError, Global};
use std::marker::{Model, PhantomData};
use std::ops::{Index, IndexMut};

/// Where the items of a ring lie: `len` of them, in the slots from `start` on, counted round.
///
/// The calls that run in a loop take and return it as a value: behind a `&mut` the compiler can't tell a ring's fields
/// from an item's slot, and would read each field again after each item that is stored.
#[derive(Clone, Copy)]
pub(crate) struct Span {
    pub(crate) start: usize,
    pub(crate) len: usize,
}

/// A ring of a fixed capacity over slots of one of the three kinds: `len` items in the slots from `start` on. All other
/// slots are empty.
///
/// A contract sees its items, oldest first, how often its slots were changed, and its capacity.
pub struct FixedRing<T, S: RingSlots<T>> {
    pub(crate) slots: S,
    pub(crate) span: Span,
    pub(crate) item: PhantomData<T>,
}

impl<T, S: RingSlots<T>> Model for FixedRing<T, S> {
    ghost use Rattle.ringbuffer.specs.Layout.{IsSound, view_from};
    ghost use Rattle.ringbuffer.specs.View.{View};

    ghost Value = { View T };

    ghost view = { λ r. view_from (S.seen r.slots) r.span.start };

    ghost invariant = { λ r. IsSound S.limit (S.seen r.slots) r.span.start r.span.len };
}

impl<T: Drop, S: RingSlots<T>> Drop for FixedRing<T, S> {
    // Drops the items, oldest first.
    fn drop(self) {
        let FixedRing {
            mut slots,
            span,
            item: _,
        } = self;
        Self::empty_slots(&mut slots, span);
        slots.free();
    }
}

impl<T: Drop, S: RingSlots<T>> FixedRing<T, S> {
    ghost use Rattle.ringbuffer.specs.contracts.fixed.FixedRing.{the_row};

    /// Makes an empty ring over empty slots.
    pub fn over(slots: S) -> Self
        requires some { 0 < S.limit (S.seen slots).capacity }
        requires empty { (S.seen slots).slots ≡ replicate (length (S.seen slots).slots) None }
        ensures { result ≡ record { items = []; changes = (S.seen slots).changes; capacity = (S.seen slots).capacity } }
    {
        // For the proof: there are as many slots as the limit says.
        let _ = slots.limit();
        Self::from_parts(slots, Span { start: 0, len: 0 })
    }

    /// Makes a ring of the items that lie in some slots.
    #[inline]
    pub(crate) fn from_parts(slots: S, span: Span) -> Self
        requires { IsSound S.limit (S.seen slots) span.start span.len }
        ensures { result ≡ view_from (S.seen slots) span.start }
    {
        FixedRing {
            slots,
            span,
            item: PhantomData,
        }
    }

    /// Returns the item at an index below the length. In a loop over indexes its place takes fewer steps without a branch.
    #[inline]
    pub(crate) fn at(&self, index: usize) -> &T
        requires { index < length self.now.items }
        ensures { slice_get self.now.items index ≡ Some result.now }
    {
        self.slots
            .get(self.slots.place_branchless(self.span.start, index))
    }

    /// Returns the first item, if there is one. It lies at the start, so no place is counted round.
    #[inline]
    pub(crate) fn first(&self) -> Option<&T>
        ensures { option_copied result ≡ slice_get self.now.items 0 }
    {
        if self.span.len == 0 {
            return None;
        }
        Some(self.slots.get(self.span.start))
    }

    /// Returns the items in two slices, oldest first, if the slots can show them so.
    pub(crate) fn rows(&self) -> Option<(&[T], &[T])>
        ensures items { IfSome result (λ rows. rows.0.now ++ rows.1.now ≡ self.now.items) }
        ensures first { IfSome result
            (λ rows. (0 < length rows.0.now) ↔ (0 < length self.now.items)) }
    {
        let first = self.span.len.min(self.slots.size() - self.span.start);
        let before = self.slots.row(self.span.start, first)?;
        let behind = self.slots.row(0, self.span.len - first)?;
        Some((before, behind))
    }

    /// Returns whether an item equals `x`, read one by one.
    pub(crate) fn holds(&self, x: &T) -> bool
    where
        T: PartialEq,
        ensures { result ≡ list_any (λ y. T.eq y x.now) self.now.items }
    {
        for i in 0..self.len() {
            if *self.at(i) == *x {
                return true;
            }
        }
        false
    }

    /// Returns clones of the items, read one by one.
    pub(crate) fn clone_items(&self, alloc: Global) -> Result<Vec<T>, AllocError>
    where
        T: Clone,
        ensures { IfOk result (λ clones. AllZip T.is_clone self.now.items clones.items) }
    {
        let len = self.len();
        let mut clones = Vec::with_capacity(alloc, len)?;
        for i in 0..len {
            clones.push(self.at(i).clone()?)?;
        }
        Ok(clones)
    }

    /// Lends the item at an index below the length for writing.
    #[inline]
    pub(crate) fn at_mut(&mut self, index: usize) -> &mut T
        requires { index < length self.old.items }
        ensures* writes_back { sem 𝓛
            (Lends (the_row T.row S.row S.RingSlots) T.row self.entry result
            (after_write self.old index)) }
        ensures value { slice_get self.old.items index ≡ Some result.now }
    {
        let place = self.slots.place(self.span.start, index);
        self.slots.get_mut(place)
    }
}

impl<T: Drop, S: RingSlots<T>> Index<usize> for FixedRing<T, S> {
    type Output = T;

    ghost can_index = { λ s _. 0 < length s.items };

    ghost index_gives = { λ s i x. (slice_get s.items (index_at (length s.items) i) ≡ Some x)
        × (i < length s.items → slice_get s.items i ≡ Some x) };

    #[inline]
    fn index(&self, index: usize) -> &T {
        self.get(index).unwrap()
    }
}

impl<T: Drop, S: RingSlots<T>> IndexMut<usize> for FixedRing<T, S> {
    ghost use Rattle.ringbuffer.specs.contracts.fixed.FixedRing.{the_row};

    #[inline]
    fn index_mut(&mut self, index: usize) -> &mut T
        requires { 0 < length self.old.items }
        ensures* writes_back { sem 𝓛
            (Lends (the_row T.row S.row S.RingSlots) T.row self.entry result
            (after_write self.old (index_at (length self.old.items) index))) }
        ensures value { slice_get self.old.items (index_at (length self.old.items) index)
            ≡ Some result.now }
        ensures in_range { index < length self.old.items
            → index_at (length self.old.items) index ≡ index }
    {
        self.get_mut(index).unwrap()
    }
}
