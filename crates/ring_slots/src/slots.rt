//! What a ring asks of its slots, which each kind of slots gives.
ghost use Rattle.std.specs.Prelude.{◌≡◌, ◌+◌, ◌%◌, ◌<◌, ◌≤◌, ℕ, length, replicate, None, Some, IfSome};
ghost use Rattle.std.specs.Borrow.{Lends, sem};
ghost use Rattle.ring_slots.specs.Slots.{HoldsStretch, IsEmptyAt, IsFullAt, IsFullStretch, Passes, Slots, changed, passed_down, passed_up, slot_at};

use crate::place::{wrapped, wrapped_after, wrapped_branchless, wrapped_next};

/// A row of slots, with a way to count places round it.
pub trait RingSlots<T>: Sized {
    ghost seen: { Self → Slots T };

    // How many slots there may be for a capacity.
    ghost is_size: { ℕ → ℕ → Type 0 };

    // The limit of a ring over slots for a capacity.
    ghost limit: { ℕ → ℕ };

    // The slots after a write of this item into the slot at a place.
    ghost with_slot: { Self → ℕ → T → Self };

    /// Returns the number of slots.
    fn size(&self) -> usize
        ensures value { result ≡ length (seen self.now).slots }
        ensures size { is_size (seen self.now).capacity result };

    /// Returns the limit of a ring over these slots.
    fn limit(&self) -> usize
        ensures value { result ≡ limit (seen self.now).capacity }
        ensures within { limit (seen self.now).capacity ≤ length (seen self.now).slots };

    /// Returns the place `k` after `start`, counted round the slots.
    #[inline]
    fn place(&self, start: usize, k: usize) -> usize
        requires start { start < length (seen self.now).slots }
        requires count { k ≤ length (seen self.now).slots }
        ensures { result ≡ (start + k) % length (seen self.now).slots }
    {
        wrapped(start, k, self.size())
    }

    /// Returns what `place` does, without a branch. Calls that read take fewer steps so, and those that store take more.
    #[inline]
    fn place_branchless(&self, start: usize, k: usize) -> usize
        requires start { start < length (seen self.now).slots }
        requires count { k ≤ length (seen self.now).slots }
        ensures { result ≡ (start + k) % length (seen self.now).slots }
    {
        wrapped_branchless(start, k, self.size())
    }

    /// Returns the place after `len` items that begin at `start`, counted round the slots. It is `start` where they
    /// fill all slots.
    #[inline]
    fn place_after(&self, start: usize, len: usize) -> usize
        requires start { start < length (seen self.now).slots }
        requires len { len ≤ length (seen self.now).slots }
        ensures { result ≡ (start + len) % length (seen self.now).slots }
    {
        wrapped_after(start, len, self.size())
    }

    /// Returns the place after a place, counted round the slots.
    #[inline]
    fn next(&self, place: usize) -> usize
        requires place { place < length (seen self.now).slots }
        ensures { result ≡ (place + 1) % length (seen self.now).slots }
    {
        wrapped_next(place, self.size())
    }

    /// Puts an item into an empty slot.
    fn put(&mut self, place: usize, item: T)
    where
        T: Drop,
        requires { IsEmptyAt (seen self.old) place }
        ensures { seen self.new ≡ changed (seen self.old) place (Some item) };

    /// Takes the item out of a full slot.
    fn take(&mut self, place: usize) -> T
        requires { IsFullAt (seen self.old) place }
        ensures value { slot_at (seen self.old) place ≡ Some result }
        ensures after { seen self.new ≡ changed (seen self.old) place None };

    /// Takes the item out of a full slot, and drops it.
    fn discard(&mut self, place: usize)
    where
        T: Drop,
        requires { IsFullAt (seen self.old) place }
        ensures { seen self.new ≡ changed (seen self.old) place None }
    {
        drop(self.take(place));
    }

    /// Returns the item of a full slot.
    fn get(&self, place: usize) -> &T
        requires { IsFullAt (seen self.now) place }
        ensures { slot_at (seen self.now) place ≡ Some result.now };

    /// Returns the items of `len` full slots that lie side by side from the place `from` on, where slots of this kind can
    /// show them as a slice.
    fn row(&self, from: usize, len: usize) -> Option<&[T]>
        requires { IsFullStretch (seen self.now).slots from len }
        ensures { IfSome result (λ row. HoldsStretch (seen self.now).slots from len row.now) };

    /// Lends the item of a full slot for writing.
    fn get_mut(&mut self, place: usize) -> &mut T
        requires { IsFullAt (seen self.old) place }
        ensures* writes_back { sem 𝓛
            (Lends Self.row T.row self.entry result (with_slot self.old place)) }
        ensures value { slot_at (seen self.old) place ≡ Some result.now };

    /// Puts an item into the first of `len` full slots that lie side by side from the place `from` on, where each item
    /// moves one slot up, by one change of each slot. Returns the item that was last, or `item` where there are no slots.
    fn pass_up(&mut self, from: usize, len: usize, item: T) -> T
        requires { IsFullStretch (seen self.old).slots from len }
        ensures { Passes (seen self.old) (seen self.new) from len (passed_up item result) };

    /// Puts an item into the last of `len` full slots that lie side by side from the place `from` on, where each item
    /// moves one slot down, by one change of each slot. Returns the item that was first, or `item` where there are no
    /// slots.
    fn pass_down(&mut self, from: usize, len: usize, item: T) -> T
        requires { IsFullStretch (seen self.old).slots from len }
        ensures { Passes (seen self.old) (seen self.new) from len (passed_down item result) };

    /// Returns whether items do better to go stretch by stretch than one by one.
    fn goes_by_stretch() -> bool;

    /// Returns whether calls on many items do better to move the ring into a local.
    fn goes_by_value() -> bool;

    /// Ends slots that are all empty.
    fn free(self)
    where
        T: Drop,
        requires { (seen self).slots ≡ replicate (length (seen self).slots) None };

    ghost sees_write: { (s : Self) (place : ℕ) (x : T)
        → seen (with_slot s place x) ≡ changed (seen s) place (Some x) };
}
