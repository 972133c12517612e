//! What slots give that lend a row of their items as a slice for writing.
ghost use Rattle.std.specs.Prelude.{◌≡◌, ◌+◌, ◌-◌, ◌<◌, ◌≤◌, ℕ, List, length};
ghost use Rattle.std.specs.Borrow.{Array, Lends, sem};
ghost use Rattle.ring_slots.specs.Slots.{HoldsStretch, IsEmptyStretch, IsFullStretch, with_brought_first, with_moved_down, with_refilled};

use crate::change_count::ChangeCount;
use crate::slots::RingSlots;

/// Slots whose items lie side by side, and can be moved and lent as a row.
pub trait LendsRows<T>: RingSlots<T> {
    // The slots after a write of these items into the `len` slots from a place on, with a count of changes.
    ghost with_row: { Self → ℕ → ℕ → ℕ → List T → Self };

    /// Returns the count of changes of the slots.
    fn changes(&self) -> ChangeCount
        ensures { result.count ≡ (Self.seen self.now).changes };

    /// Lends the items of `len` full slots that lie side by side from the place `from` on, for writing. Sets the count
    /// of changes to `changes`, which must be at least `len` more than it was.
    fn slice_mut(&mut self, from: usize, len: usize, changes: ChangeCount) -> &mut [T]
        requires full { IsFullStretch (Self.seen self.old).slots from len }
        requires counted { (Self.seen self.old).changes + len ≤ changes.count }
        ensures* writes_back { sem 𝓛 (Lends Self.row (Array T.row 0) self.entry result
            (with_row self.old from len changes.count)) }
        ensures value { HoldsStretch (Self.seen self.old).slots from len result.now };

    /// Moves the items of all slots from the place `from` on down to those from the place `to` on, each by two changes.
    /// The slots between these places must be empty. Takes O(n) in the items.
    fn move_down(&mut self, from: usize, to: usize)
        requires some { from < length (Self.seen self.old).slots }
        requires order { to ≤ from }
        requires full { IsFullStretch (Self.seen self.old).slots from
            (length (Self.seen self.old).slots - from) }
        requires empty { IsEmptyStretch (Self.seen self.old).slots to (from - to) }
        ensures { Self.seen self.new ≡ with_moved_down (Self.seen self.old) from to };

    /// Moves the items of all slots from the place `from` on to the first slots, and those of the first `len` slots up
    /// after them, each by two changes. The slots between must be empty, and at least as many as the items that go
    /// first. Takes O(n) in the items.
    fn bring_first(&mut self, from: usize, len: usize)
        requires some { from < length (Self.seen self.old).slots }
        requires room { length (Self.seen self.old).slots - from + len ≤ from }
        requires last { IsFullStretch (Self.seen self.old).slots from
            (length (Self.seen self.old).slots - from) }
        requires first { IsFullStretch (Self.seen self.old).slots 0 len }
        requires empty { IsEmptyStretch (Self.seen self.old).slots len (from - len) }
        ensures { Self.seen self.new ≡ with_brought_first (Self.seen self.old) from len };

    ghost sees_row: { (s : Self) (from len changes : ℕ) (xs : List T)
        → Self.seen (with_row s from len changes xs) ≡ with_refilled (Self.seen s) from len changes xs };
}
