//! Slots on the heap.
ghost use Rattle.std.specs.Prelude.{◌≡◌, ◌+◌, ◌-◌, ◌^◌, ◌<◌, length, replicate, None, Some, refl, IfOk, IsErr};
ghost use Rattle.std.specs.Int.{IsNextPowerOfTwo};
ghost use Rattle.ring_slots.specs.block.Block.{IsNewBlock};
ghost use Rattle.ring_slots.specs.Slots.{HoldsStretch, IsEmptyStretch, IsFullStretch, changed, with_items, with_refilled};

use crate::block::{Deed, Owner};
use crate::bytes::{item_size, may_hold};
use crate::change_count::ChangeCount;
use crate::lends_rows::LendsRows;
use crate::passing::{pass_down, pass_up};
use crate::place::masked;
use crate::slots::RingSlots;
use std::alloc::{AllocError, Global};
use std::marker::{Model, Send, Sync};

const GREATEST_POWER_OF_TWO: usize = 1 << (usize::BITS - 1);

/// Slots on the heap, whose number is chosen when they are made.
///
/// They lie side by side in one block, with no mark that says which of them hold an item: the conditions of the calls
/// do. Items without size take no block.
///
/// They aren't dropped: slots end by `free`, which asks that all of them are empty, and in no other way.
///
/// A contract sees what each slot holds, and how many changes the slots have had. That count takes no bytes, begins at
/// 0, and rises by the calls of `RingSlots` and `LendsRows` and by `put_copies` alone.
pub struct HeapSlots<T> {
    ptr: *mut T,
    // The number of slots less one, which is the mask of their places.
    mask: usize,
    capacity: usize,
    owner: Owner<T>,
    deed: Deed<T>,
    alloc: Global,
    changes: ChangeCount,
}

impl<T> Model for HeapSlots<T> {
    ghost use Rattle.std.specs.Prelude.{◌≡◌, ◌+◌, ◌^◌, ◌<◌, length};
    ghost use Rattle.std.specs.Int.{IsNextPowerOfTwo};
    ghost use Rattle.ring_slots.specs.Slots.{Slots};
    ghost use Rattle.ring_slots.specs.block.Block.{IsDeedOf};

    ghost Value = { Slots T };

    ghost view = { λ s. record { slots = s.owner.slots; changes = s.changes.count; capacity = s.capacity } };

    ghost invariant = { λ s. (length s.owner.slots ≡ s.mask + 1)
        × (s.mask + 1 < 2 ^ 64)
        × IsNextPowerOfTwo s.capacity (length s.owner.slots)
        × IsDeedOf s.alloc s.ptr s.owner s.deed };
}

unsafe impl<T: Send> Send for HeapSlots<T> {}

unsafe impl<T: Sync> Sync for HeapSlots<T> {}

impl<T> HeapSlots<T> {
    /// Makes empty slots, as many as the least power of two that is at least the capacity. An error says that the memory
    /// for them was refused.
    pub fn new(alloc: Global, capacity: usize) -> Result<HeapSlots<T>, AllocError>
        ensures empty { IfOk result (λ s. s.slots ≡ replicate (length s.slots) None) }
        ensures counted { IfOk result (λ s. s.changes ≡ 0) }
        ensures capacity { IfOk result (λ s. s.capacity ≡ capacity) }
        ensures too_large { 2 ^ 63 < capacity → IsErr result }
    {
        if capacity > GREATEST_POWER_OF_TWO {
            return Err(AllocError);
        }
        let size = capacity.next_power_of_two();
        let (ptr, owner, deed) = empty_block(alloc, size)?;
        Ok(HeapSlots {
            ptr,
            mask: size - 1,
            capacity,
            owner,
            deed,
            alloc,
            changes: ChangeCount::new(),
        })
    }

    /// Returns the items of `len` full slots that lie side by side from the place `from` on.
    #[inline]
    pub fn slice(&self, from: usize, len: usize) -> &[T]
        requires { IsFullStretch self.now.slots from len }
        ensures { HoldsStretch self.now.slots from len result.now }
    {
        self.owner.slice(self.ptr, from, len)
    }

    /// Puts copies of some items into empty slots that lie side by side from the place `from` on, each by one change.
    /// Takes O(n) in these.
    #[inline]
    pub fn put_copies(&mut self, from: usize, items: &[T])
    where
        T: Copy,
        requires { IsEmptyStretch self.old.slots from (length items.now) }
        ensures { self.new ≡ with_items self.old from items.now }
    {
        if items.is_empty() {
            return;
        }
        self.changes = self.changes.after(items.len());
        let size = HeapSlots::size(self);
        self.owner.copy_in(self.ptr, size, from, items);
    }

    /// Returns the number of slots.
    #[inline]
    fn size(&self) -> usize
        ensures value { result ≡ length self.now.slots }
        ensures size { IsNextPowerOfTwo self.now.capacity result }
    {
        self.mask + 1
    }

    /// Returns the allocator that gave the slots' block.
    #[inline]
    pub fn allocator(&self) -> Global {
        self.alloc
    }
}

/// Makes `size` empty slots, with the right to give their memory back.
fn empty_block<T>(alloc: Global, size: usize) -> Result<(*mut T, Owner<T>, Deed<T>), AllocError>
    ensures { IfOk result (λ made. IsNewBlock alloc size made.0 made.1 made.2) }
{
    if item_size::<T>() == 0 {
        return Ok(Owner::without_memory(alloc, size));
    }
    if !may_hold::<T>(size) {
        return Err(AllocError);
    }
    Owner::allocate(alloc, size)
}

impl<T> LendsRows<T> for HeapSlots<T> {
    ghost with_row = { with_refilled };

    ghost sees_row = { λ _ _ _ _ _. refl };

    #[inline]
    fn changes(&self) -> ChangeCount {
        self.changes.after(0)
    }

    #[inline]
    fn slice_mut(&mut self, from: usize, len: usize, changes: ChangeCount) -> &mut [T] {
        self.changes = changes;
        let ptr = self.ptr;
        self.owner.slice_mut(ptr, from, len)
    }

    #[inline]
    fn move_down(&mut self, from: usize, to: usize) {
        let size = HeapSlots::size(self);
        self.changes = self.changes.after(size - from).after(size - from);
        self.owner.move_down(self.ptr, size, from, to);
    }

    #[inline]
    fn bring_first(&mut self, from: usize, len: usize) {
        let size = HeapSlots::size(self);
        let count = size - from + len;
        self.changes = self.changes.after(count).after(count);
        self.owner.bring_first(self.ptr, size, from, len);
    }
}

impl<T> RingSlots<T> for HeapSlots<T> {
    ghost seen = { λ s. s };

    ghost is_size = { IsNextPowerOfTwo };

    ghost limit = { λ capacity. capacity };

    ghost with_slot = { λ s place x. changed s place (Some x) };

    ghost sees_write = { λ _ _ _. refl };

    #[inline]
    fn size(&self) -> usize {
        HeapSlots::size(self)
    }

    #[inline]
    fn limit(&self) -> usize {
        self.capacity
    }

    #[inline]
    fn place(&self, start: usize, k: usize) -> usize {
        masked(start, k, self.mask)
    }

    #[inline]
    fn place_branchless(&self, start: usize, k: usize) -> usize {
        masked(start, k, self.mask)
    }

    // A mask needs no test of whether the items fill all slots.
    #[inline]
    fn place_after(&self, start: usize, len: usize) -> usize {
        masked(start, len, self.mask)
    }

    #[inline]
    fn next(&self, place: usize) -> usize {
        masked(place, 1, self.mask)
    }

    #[inline]
    fn put(&mut self, place: usize, item: T)
    where
        T: Drop,
    {
        self.changes = self.changes.after(1);
        let size = HeapSlots::size(self);
        self.owner.put(self.ptr, size, place, item);
    }

    #[inline]
    fn take(&mut self, place: usize) -> T {
        self.changes = self.changes.after(1);
        let size = HeapSlots::size(self);
        self.owner.take(self.ptr, size, place)
    }

    #[inline]
    fn get(&self, place: usize) -> &T {
        &self.owner.slice(self.ptr, place, 1)[0]
    }

    #[inline]
    fn get_mut(&mut self, place: usize) -> &mut T {
        self.changes = self.changes.after(1);
        let ptr = self.ptr;
        self.owner.get_mut(ptr, place)
    }

    #[inline]
    fn row(&self, from: usize, len: usize) -> Option<&[T]> {
        Some(self.slice(from, len))
    }

    #[inline]
    fn pass_up(&mut self, from: usize, len: usize, item: T) -> T {
        let changes = self.changes.after(len);
        pass_up(self.slice_mut(from, len, changes), item)
    }

    #[inline]
    fn pass_down(&mut self, from: usize, len: usize, item: T) -> T {
        let changes = self.changes.after(len);
        pass_down(self.slice_mut(from, len, changes), item)
    }

    #[inline]
    fn goes_by_stretch() -> bool {
        true
    }

    #[inline]
    fn goes_by_value() -> bool {
        true
    }

    fn free(self)
    where
        T: Drop,
    {
        let size = HeapSlots::size(&self);
        let HeapSlots {
            ptr,
            mask: _,
            capacity: _,
            owner,
            deed,
            alloc,
            changes: _,
        } = self;
        if item_size::<T>() == 0 {
            Owner::let_go(owner, deed);
        } else {
            Owner::deallocate(alloc, ptr, size, owner, deed);
        }
    }
}
