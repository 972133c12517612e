//! Slots of plain items, which lie in the value itself with no mark beside an item.
ghost use Rattle.std.specs.Prelude.{◌≡◌, ◌<◌, length, map, replicate, None, Some, refl};
ghost use Rattle.ring_slots.specs.Slots.{HoldsStretch, IsEmptyStretch, IsFullStretch, changed, with_items, with_refilled};

use crate::cells::Cells;
use crate::change_count::ChangeCount;
use crate::lends_rows::LendsRows;
use crate::marks::Marks;
use crate::slots::RingSlots;
use std::marker::Model;

/// `CAP` slots in an array of items that can be copied, which take no memory of their own.
///
/// Each cell holds an item from the first on: the one that the slots were made with where none was put. Which slots are
/// full is a ghost: the conditions of the calls say it, no code asks, and an item has no mark beside it.
///
/// A contract sees what each slot holds, and how many changes the slots have had. That count takes no bytes, begins at
/// 0, and rises by the calls of `RingSlots` and `LendsRows` and by `put_copies` alone.
#[derive(Drop)]
pub struct CopySlots<T, const CAP: usize> {
    cells: Cells<T, CAP>,
    marks: Marks,
    changes: ChangeCount,
}

impl<T, const CAP: usize> Model for CopySlots<T, CAP> {
    ghost use Rattle.std.specs.Prelude.{◌≡◌, length};
    ghost use Rattle.ring_slots.specs.Slots.{Slots};
    ghost use Rattle.ring_slots.specs.copies.Shown.{shown};

    ghost Value = { Slots T };

    ghost view = { λ s. record { slots = shown s.marks.full s.cells.xs; changes = s.changes.count; capacity = CAP } };

    ghost invariant = { λ s. (length s.cells.xs ≡ CAP) × (length s.marks.full ≡ CAP) };
}

impl<T: Copy, const CAP: usize> CopySlots<T, CAP> {
    /// Makes empty slots, whose cells hold an item that nobody sees. Takes O(`CAP`).
    pub fn new(filler: T) -> Self
        ensures { result ≡ record { slots = replicate CAP None; changes = 0; capacity = CAP } }
    {
        CopySlots {
            cells: Cells::of(filler),
            marks: Marks::none(CAP),
            changes: ChangeCount::new(),
        }
    }

    /// Makes full slots of an array, which becomes their cells: each item counts as put by one change.
    pub fn holding(items: [T; CAP]) -> Self
        ensures { result ≡ record { slots = map Some items; changes = CAP; capacity = CAP } }
    {
        CopySlots {
            cells: Cells { xs: items },
            marks: Marks::none(CAP).marked(0, CAP, true),
            changes: ChangeCount::new().after(CAP),
        }
    }

    /// Returns slots that hold copies of the items in their places, and have had as many changes. Takes O(`CAP`).
    pub fn copied(&self) -> Self
        ensures { result ≡ self.now }
    {
        CopySlots {
            cells: self.cells.copied(),
            marks: self.marks.marked(0, 0, true),
            changes: self.changes.after(0),
        }
    }

    /// Returns the items of `len` full slots that lie side by side from the place `from` on.
    #[inline]
    pub fn slice(&self, from: usize, len: usize) -> &[T]
        requires { IsFullStretch self.now.slots from len }
        ensures { HoldsStretch self.now.slots from len result.now }
    {
        self.cells.slice(from, len)
    }

    /// Puts copies of some items into empty slots that lie side by side from the place `from` on, each by one change.
    /// Takes O(n) in these.
    #[inline]
    pub fn put_copies(&mut self, from: usize, items: &[T])
        requires { IsEmptyStretch self.old.slots from (length items.now) }
        ensures { self.new ≡ with_items self.old from items.now }
    {
        self.changes = self.changes.after(items.len());
        self.marks = self.marks.marked(from, items.len(), true);
        self.cells.put_slice(from, items);
    }
}

impl<T: Copy, const CAP: usize> LendsRows<T> for CopySlots<T, CAP> {
    ghost with_row = { with_refilled };

    ghost sees_row = { λ _ _ _ _ _. refl };

    #[inline]
    fn changes(&self) -> ChangeCount {
        self.changes.after(0)
    }

    #[inline]
    fn slice_mut(&mut self, from: usize, len: usize, changes: ChangeCount) -> &mut [T] {
        self.changes = changes;
        self.cells.slice_mut(from, len)
    }

    fn move_down(&mut self, from: usize, to: usize) {
        let count = self.size() - from;
        self.changes = self.changes.after(count).after(count);
        self.marks = self.marks.marked(from, count, false);
        self.marks = self.marks.marked(to, count, true);
        self.cells.copy_within(from, to, count);
    }

    fn bring_first(&mut self, from: usize, len: usize) {
        let last = self.size() - from;
        self.changes = self.changes.after(last + len).after(last + len);
        self.marks = self.marks.marked(from, last, false);
        self.marks = self.marks.marked(0, last + len, true);
        self.cells.copy_within(0, last, len);
        self.cells.copy_within(from, 0, last);
    }
}

impl<T: Copy, const CAP: usize> RingSlots<T> for CopySlots<T, CAP> {
    ghost seen = { λ s. s };

    ghost is_size = { λ capacity size. (capacity ≡ CAP) × (size ≡ CAP) };

    ghost limit = { λ _. CAP };

    ghost with_slot = { λ s place x. changed s place (Some x) };

    ghost sees_write = { λ _ _ _. refl };

    #[inline]
    fn size(&self) -> usize {
        // For the proof: of `self.cells.xs.len()` only `CAP` is known.
        let cells = &self.cells;
        cells.xs.len()
    }

    #[inline]
    fn limit(&self) -> usize {
        self.size()
    }

    #[inline]
    fn put(&mut self, place: usize, item: T)
    where
        T: Drop,
    {
        self.changes = self.changes.after(1);
        self.marks = self.marks.set(place, true);
        self.cells.put(place, item);
    }

    #[inline]
    fn take(&mut self, place: usize) -> T {
        self.changes = self.changes.after(1);
        self.marks = self.marks.set(place, false);
        *self.cells.at(place)
    }

    // No cell is written: only the mark changes.
    #[inline]
    fn discard(&mut self, place: usize)
    where
        T: Drop,
    {
        self.changes = self.changes.after(1);
        self.marks = self.marks.set(place, false);
    }

    #[inline]
    fn get(&self, place: usize) -> &T {
        self.cells.at(place)
    }

    #[inline]
    fn get_mut(&mut self, place: usize) -> &mut T {
        self.changes = self.changes.after(1);
        self.cells.at_mut(place)
    }

    #[inline]
    fn row(&self, from: usize, len: usize) -> Option<&[T]> {
        Some(self.slice(from, len))
    }

    #[inline]
    fn pass_up(&mut self, from: usize, len: usize, item: T) -> T {
        self.changes = self.changes.after(len);
        self.marks = self.marks.marked(from, len, true);
        self.cells.pass_up(from, len, item)
    }

    #[inline]
    fn pass_down(&mut self, from: usize, len: usize, item: T) -> T {
        self.changes = self.changes.after(len);
        self.marks = self.marks.marked(from, len, true);
        self.cells.pass_down(from, len, item)
    }

    #[inline]
    fn goes_by_stretch() -> bool {
        true
    }

    #[inline]
    fn goes_by_value() -> bool {
        false
    }

    #[inline]
    fn free(self)
    where
        T: Drop,
    {}
}
