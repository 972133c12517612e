//! The calls of every ring, of a ring of a fixed capacity.
ghost use Rattle.std.specs.Prelude.{◌≡◌, ◌<◌, ◌≤◌, IfOk, IsOk, length, None, Some, refl};
ghost use Rattle.ring_core.specs.Contents.{overwritten, IsWithin, Pushes, index_at};
ghost use Rattle.ring_core.proofs.Limits.{counts_one};
ghost use Rattle.ringbuffer.specs.View.{View, after_push, after_write};

use crate::few::{FEW, FEW_COMPARED};
use crate::fixed::steps::moved;
use crate::fixed::{FixedRing, Span};
use crate::position::{index_at, signed_index_at};
use crate::two_slices::{clone_slices, clone_slices_into, equal_to_slice, is_in_slices};
use ring_core::RingBuffer;
use ring_slots::RingSlots;
use std::alloc::{AllocError, Global};

impl<T: Drop, S: RingSlots<T>> RingBuffer<T> for FixedRing<T, S> {
    ghost contents = { λ r. r.items };

    ghost limit = { λ r. Some (S.limit r.capacity) };

    ghost with_item = { after_write };

    ghost slot_changes = { λ r. r.changes };

    ghost sets_item = { λ _ _ _. refl };

    ghost keeps_limit = { λ _ _ _. refl };

    ghost counts_write = { λ s _ _ _. counts_one s.changes };

    #[inline]
    fn len(&self) -> usize {
        self.span.len
    }

    #[inline]
    fn capacity(&self) -> usize {
        self.slots.limit()
    }

    #[inline]
    fn buffer_size(&self) -> usize
        ensures size { S.is_size self.now.capacity result }
        ensures room { S.limit self.now.capacity ≤ result }
        ensures holds { length self.now.items ≤ result }
    {
        self.slots.size()
    }

    #[inline]
    fn push(&mut self, item: T) -> Result<Option<T>, T>
        ensures pushed { Pushes (λ (r : View _). Some (S.limit r.capacity)) (λ r. r.items) (λ r. r.changes) self.old self.new item result }
        ensures overwrites { IfOk result
            (λ old. old ≡ overwritten (Some (S.limit self.old.capacity)) self.old.items) }
        ensures pushes { self.new ≡ after_push (S.limit self.old.capacity) self.old item }
        ensures within { IsWithin self.old.items (Some (S.limit self.old.capacity)) }
        ensures ok { IsOk result }

        // The count that the trait shows is the count of the slots themselves.
        ensures counts { ⟦<FixedRing<T, S> as RingBuffer<T>>⟧.slot_changes self.new
            ≡ self.new.changes }
    {
        let capacity = self.slots.limit();
        let before = self.span;
        let (after, old) = Self::push_from(&mut self.slots, before, item, capacity);
        self.span.start = after.start;
        // A full ring keeps its length, and has one store less to make.
        if after.len != before.len {
            self.span.len = after.len;
        }
        Ok(old)
    }

    fn extend<I: IntoIterator<Item = T>>(&mut self, items: I) -> Result<(), AllocError>
    where
        I::IntoIter: Drop,
    {
        if S::goes_by_stretch() {
            moved(self, S::goes_by_value(), items, Self::extend_by_stretch);
        } else {
            self.extend_one_by_one(items);
        }
        Ok(())
    }

    fn extend_from_slice(&mut self, items: &[T]) -> Result<(), AllocError>
    where
        T: Clone,
    {
        moved(self, S::goes_by_value(), items, Self::extend_by_clones)
    }

    #[inline]
    fn dequeue(&mut self) -> Option<T> {
        self.take_first()
    }

    fn clear(&mut self) {
        Self::empty_slots(&mut self.slots, self.span);
        self.span = Span { start: 0, len: 0 };
    }

    fn fill_with<F: FnMut() -> T + Drop>(&mut self, make: F) -> Result<(), AllocError> {
        moved(self, S::goes_by_value(), make, Self::fill_by_calls);
        Ok(())
    }

    fn fill(&mut self, value: T) -> Result<(), AllocError>
    where
        T: Clone,
    {
        moved(self, S::goes_by_value(), value, Self::fill_by_clones)
    }

    fn retain<F: FnMut(&T) -> bool>(&mut self, keep: F) -> Result<(), T> {
        moved(self, S::goes_by_value(), keep, Self::retain_in_place);
        Ok(())
    }

    fn to_vec(&self, alloc: Global) -> Result<Vec<T>, AllocError>
    where
        T: Clone,
    {
        match self.rows() {
            Some(rows) => clone_slices(rows, alloc),
            None => self.clone_items(alloc),
        }
    }

    fn copy_to_slice(&self, output: &mut [T]) -> Result<usize, AllocError>
    where
        T: Clone,
    {
        match self.rows() {
            Some(rows) => clone_slices_into(rows, output),
            None => self.clone_each_into(output),
        }
    }

    fn contains(&self, x: &T) -> bool
    where
        T: PartialEq,
    {
        match self.rows() {
            Some(rows) => is_in_slices(rows, x),
            None if self.span.len >= FEW => self.holds_by_stretch(x),
            None => self.holds(x),
        }
    }

    fn eq_slice(&self, items: &[T]) -> bool
    where
        T: PartialEq,
    {
        if self.span.len != items.len() {
            return false;
        }
        // Few items are read slot by slot, since slices cost some steps of their own.
        match self.rows() {
            Some(rows) if items.len() >= FEW_COMPARED => equal_to_slice(rows, items),
            _ => self.equals_by_stretch(items),
        }
    }

    #[inline]
    fn get(&self, index: usize) -> Option<&T> {
        let index = index_at(index, self.len())?;
        Some(self.at(index))
    }

    #[inline]
    fn peek(&self) -> Option<&T> {
        self.first()
    }

    #[inline]
    fn front(&self) -> Option<&T> {
        self.first()
    }

    #[inline]
    fn get_signed(&self, index: isize) -> Option<&T> {
        let index = signed_index_at(index, self.len())?;
        // The place of an index that was counted from the end takes fewer steps by a branch.
        Some(self.slots.get(self.slots.place(self.span.start, index)))
    }

    #[inline]
    fn get_mut(&mut self, index: usize) -> Option<&mut T> {
        let index = index_at(index, self.len())?;
        Some(self.at_mut(index))
    }

    #[inline]
    fn get_mut_signed(&mut self, index: isize) -> Option<&mut T> {
        let index = signed_index_at(index, self.len())?;
        Some(self.at_mut(index))
    }
}
