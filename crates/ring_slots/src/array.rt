//! Slots that lie in the value itself.
ghost use Rattle.std.specs.Prelude.{◌≡◌, ◌<◌, length, replicate, None, Some, refl};
ghost use Rattle.std.specs.Borrow.{sem};
ghost use Rattle.ring_slots.specs.Slots.{changed, slot_at};

use crate::cells::Cells;
use crate::change_count::ChangeCount;
use crate::full;
use crate::slots::RingSlots;
use std::marker::Model;

/// `CAP` slots in an array, which take no memory of their own.
///
/// A contract sees what each slot holds, and how many changes the slots have had. That count takes no bytes, begins at
/// 0, and rises by the calls of `RingSlots` alone.
#[derive(Drop)]
pub struct ArraySlots<T, const CAP: usize> {
    cells: Cells<Option<T>, CAP>,
    changes: ChangeCount,
}

impl<T, const CAP: usize> Model for ArraySlots<T, CAP> {
    ghost use Rattle.std.specs.Prelude.{◌≡◌, length};
    ghost use Rattle.ring_slots.specs.Slots.{Slots};

    ghost Value = { Slots T };

    ghost view = { λ s. record { slots = s.cells.xs; changes = s.changes.count; capacity = CAP } };

    ghost invariant = { λ s. length s.cells.xs ≡ CAP };
}

impl<T, const CAP: usize> ArraySlots<T, CAP> {
    ghost use Rattle.ring_slots.specs.array.Lends.{lends_slot};

    /// Makes empty slots.
    pub fn new() -> Self
        ensures { result ≡ record { slots = replicate CAP None; changes = 0; capacity = CAP } }
    {
        ArraySlots {
            cells: Cells::empty(),
            changes: ChangeCount::new(),
        }
    }

    /// Lends the slot at a place for one change, and counts it.
    #[inline]
    fn slot_mut(&mut self, place: usize) -> &mut Option<T>
        requires { place < length self.old.slots }
        ensures* writes_back { sem 𝓛 (lends_slot T.row CAP.row self.entry place result) }
        ensures value { result.now ≡ slot_at self.old place }
    {
        self.changes = self.changes.after(1);
        self.cells.at_mut(place)
    }
}

impl<T, const CAP: usize> RingSlots<T> for ArraySlots<T, CAP> {
    ghost seen = { λ s. s };

    ghost is_size = { λ capacity size. (capacity ≡ CAP) × (size ≡ CAP) };

    ghost limit = { λ _. CAP };

    ghost with_slot = { λ s place x. changed s place (Some x) };

    ghost sees_write = { λ _ _ _. refl };

    #[inline]
    fn size(&self) -> usize {
        // For the proof: of `self.cells.xs.len()` only `CAP` is known.
        let cells = &self.cells;
        cells.xs.len()
    }

    #[inline]
    fn limit(&self) -> usize {
        self.size()
    }

    #[inline]
    fn put(&mut self, place: usize, item: T)
    where
        T: Drop,
    {
        *self.slot_mut(place) = Some(item);
    }

    #[inline]
    fn take(&mut self, place: usize) -> T {
        full::take(self.slot_mut(place))
    }

    #[inline]
    fn discard(&mut self, place: usize)
    where
        T: Drop,
    {
        *self.slot_mut(place) = None;
    }

    #[inline]
    fn get(&self, place: usize) -> &T {
        full::item(self.cells.at(place))
    }

    #[inline]
    fn get_mut(&mut self, place: usize) -> &mut T {
        full::item_mut(self.slot_mut(place))
    }

    #[inline]
    fn row(&self, _: usize, _: usize) -> Option<&[T]> {
        None
    }

    #[inline]
    fn pass_up(&mut self, from: usize, len: usize, item: T) -> T {
        self.changes = self.changes.after(len);
        self.cells.pass_item_up(from, len, item)
    }

    #[inline]
    fn pass_down(&mut self, from: usize, len: usize, item: T) -> T {
        self.changes = self.changes.after(len);
        self.cells.pass_item_down(from, len, item)
    }

    #[inline]
    fn goes_by_stretch() -> bool {
        false
    }

    #[inline]
    fn goes_by_value() -> bool {
        false
    }

    #[inline]
    fn free(self)
    where
        T: Drop,
    {}
}
