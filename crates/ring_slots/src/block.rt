//! A block of memory that slots lie in.
ghost use Rattle.std.specs.Prelude.{◌≡◌, ◌+◌, ◌-◌, ◌<◌, ◌≤◌, ℕ, [], List, Option, length, replicate, slice_index_or, None, Some, IsSome, IfOk};
ghost use Rattle.std.specs.Borrow.{sem};
ghost use Rattle.std.specs.Mem.{type_size};
ghost use Rattle.std.specs.Mem.Slots.{slots_ptr};
ghost use Rattle.std.specs.Vec.Ownership.{FitsInBlock};
ghost use base.Fml.{ftrue};
ghost use denote.RawPtr.{Ptr};
ghost use Rattle.std.specs.declared.alloc.Global as heap;
ghost use Rattle.ring_slots.specs.Slots.{HoldsStretch, IsEmptyStretch, IsFullStretch};
ghost use Rattle.ring_slots.specs.block.Memory.{owned, lent, right};

use core::slots::Slots;
use std::alloc::{AllocError, Allocator, Global};
use std::marker::{Model, PhantomData, Send, Sync};
use std::mem::{align_of, size_of};
use std::slice;

/// The owner of the slots that lie side by side from a pointer on. It takes no bytes, and whoever calls it brings the
/// pointer along.
pub(crate) struct Owner<T> {
    mark: PhantomData<*const T>,
    pub(crate) ghost at: { Ptr },
    pub(crate) ghost slots: { List (Option T) },
}

impl<T> Model for Owner<T> {
    ghost also_owns = { λ s. owned T.row s.at s.slots };

    ghost also_shares = { λ s _ κ. lent T.row s.at s.slots κ };
}

unsafe impl<T: Send> Send for Owner<T> {}

unsafe impl<T: Sync> Sync for Owner<T> {}

/// The right to give back the block of `len` slots. It takes no bytes, and ends only with its block.
pub(crate) struct Deed<T> {
    mark: PhantomData<*const T>,
    pub(crate) ghost at: { Ptr },
    pub(crate) ghost len: { ℕ },
    pub(crate) ghost alloc: { heap.Global },
}

impl<T> Model for Deed<T> {
    ghost also_owns = { λ d. right T.row d.alloc d.at d.len };

    ghost also_shares = { λ _ _ _. ftrue };
}

// The heap takes a block back from any thread.
unsafe impl<T> Send for Deed<T> {}

// A `&` to it holds nothing.
unsafe impl<T> Sync for Deed<T> {}

impl<T> Owner<T> {
    ghost use Rattle.ring_slots.specs.block.Block.{IsDeedOf, IsNewBlock};
    ghost use Rattle.ring_slots.specs.block.Lends.{owner_lends_stretch, owner_lends, owner_with, owner_with_items, owner_with_moved_down, owner_with_brought_first};
    ghost use Rattle.ring_slots.specs.block.Row.{HoldsRow};

    /// Allocates a block of `size` empty slots.
    pub(crate) fn allocate(
        alloc: Global,
        size: usize,
    ) -> Result<(*mut T, Owner<T>, Deed<T>), AllocError>
        requires fits { FitsInBlock T.row size }
        requires sized { 0 < type_size T.row }
        ensures { IfOk result (λ r. IsNewBlock alloc size r.0 r.1 r.2) }
    {
        match alloc.allocate(size * size_of::<T>(), align_of::<T>()) {
            Ok(block) => Ok((
                block as *mut T,
                Owner { mark: PhantomData },
                Deed { mark: PhantomData },
            )),
            Err(error) => Err(error),
        }
    }

    /// Makes empty slots for items without size, which need no memory. Their pointer is aligned as items are.
    pub(crate) fn without_memory(alloc: Global, size: usize) -> (*mut T, Owner<T>, Deed<T>)
        requires { type_size T.row ≡ 0 }
        ensures { IsNewBlock alloc size result.0 result.1 result.2 }
    {
        let none: &[T; 0] = &[];
        (
            none as *const [T; 0] as *mut T,
            Owner { mark: PhantomData },
            Deed { mark: PhantomData },
        )
    }

    /// Ends empty slots that have no block.
    pub(crate) fn let_go(owner: Owner<T>, deed: Deed<T>)
        requires sized { type_size T.row ≡ 0 }
        requires empty { owner.slots ≡ replicate (length owner.slots) None }
    {
        let Owner { mark: _ } = owner;
        let Deed { mark: _ } = deed;
    }

    /// Gives a block back, of which every slot is empty.
    pub(crate) fn deallocate(
        alloc: Global,
        ptr: *mut T,
        size: usize,
        owner: Owner<T>,
        deed: Deed<T>,
    )
        requires sized { 0 < type_size T.row }
        requires empty { owner.slots ≡ replicate size None }
        requires deed { IsDeedOf alloc ptr owner deed }
    {
        let Owner { mark: _ } = owner;
        let Deed { mark: _ } = deed;
        unsafe {
            alloc.deallocate(ptr as *mut u8, size * size_of::<T>(), align_of::<T>());
        }
    }

    /// Puts an item into an empty slot.
    #[inline]
    pub(crate) fn put(&mut self, ptr: *mut T, size: usize, place: usize, item: T)
        requires at { ptr ≡ self.old.at }
        requires size { size ≡ length self.old.slots }
        requires place { place < length self.old.slots }
        requires empty { slice_index_or self.old.slots place None ≡ None }
        ensures { self.new ≡ owner_with self.old place (Some item) }
    {
        let mut row = self.detach(ptr, size);
        row.put(place, item);
        self.attach(row, size);
    }

    /// Takes the item out of a full slot.
    #[inline]
    pub(crate) fn take(&mut self, ptr: *mut T, size: usize, place: usize) -> T
        requires at { ptr ≡ self.old.at }
        requires size { size ≡ length self.old.slots }
        requires full { IsSome (slice_index_or self.old.slots place None) }
        ensures value { slice_index_or self.old.slots place None ≡ Some result }
        ensures after { self.new ≡ owner_with self.old place None }
    {
        let mut row = self.detach(ptr, size);
        let item = row.take(place);
        self.attach(row, size);
        item
    }

    /// Returns the items of `len` full slots that lie side by side from the place `from` on.
    #[inline]
    pub(crate) fn slice(&self, ptr: *mut T, from: usize, len: usize) -> &[T]
        requires at { ptr ≡ self.now.at }
        requires full { IsFullStretch self.now.slots from len }
        ensures { HoldsStretch self.now.slots from len result.now }
    {
        unsafe { slice::from_raw_parts(ptr.add(from), len) }
    }

    /// Lends the items of `len` full slots that lie side by side from the place `from` on, for writing.
    pub(crate) fn slice_mut(&mut self, ptr: *mut T, from: usize, len: usize) -> &mut [T]
        requires at { ptr ≡ self.old.at }
        requires full { IsFullStretch self.old.slots from len }
        ensures* writes_back { sem 𝓛 (owner_lends_stretch T.row self.entry from len result) }
        ensures value { HoldsStretch self.old.slots from len result.now }
    {
        unsafe { slice::from_raw_parts_mut(ptr.add(from), len) }
    }

    /// Lends the item of a full slot for writing.
    #[inline]
    pub(crate) fn get_mut(&mut self, ptr: *mut T, place: usize) -> &mut T
        requires at { ptr ≡ self.old.at }
        requires full { IsSome (slice_index_or self.old.slots place None) }
        ensures* writes_back { sem 𝓛 (owner_lends T.row self.entry place result) }
        ensures value { slice_index_or self.old.slots place None ≡ Some result.now }
    {
        unsafe { &mut *ptr.add(place) }
    }

    /// Puts copies of some items into empty slots that lie side by side from a place on. `size` is the number of slots.
    #[inline]
    pub(crate) fn copy_in(&mut self, ptr: *mut T, size: usize, place: usize, items: &[T])
    where
        T: Copy,
        requires at { ptr ≡ self.old.at }
        requires size { size ≡ length self.old.slots }
        requires some { 0 < length items.now }
        requires empty { IsEmptyStretch self.old.slots place (length items.now) }
        ensures { self.new ≡ owner_with_items self.old place items.now }
    {
        let mut row = self.detach(ptr, size);
        row.copy_in(place, items);
        self.attach(row, size);
    }

    /// Moves the items of all slots from the place `from` on down to those from the place `to` on, of which those up to
    /// `from` are empty. `size` is the number of slots.
    #[inline]
    pub(crate) fn move_down(&mut self, ptr: *mut T, size: usize, from: usize, to: usize)
        requires at { ptr ≡ self.old.at }
        requires size { size ≡ length self.old.slots }
        requires some { from < size }
        requires order { to ≤ from }
        requires full { IsFullStretch self.old.slots from (size - from) }
        requires empty { IsEmptyStretch self.old.slots to (from - to) }
        ensures { self.new ≡ owner_with_moved_down self.old from to }
    {
        let count = size - from;
        let mut row = self.detach(ptr, size);
        row.move_within(from, to, count);
        self.attach(row, to + count);
    }

    /// Moves the items of all slots from the place `from` on to the first slots, and those of the first `len` slots up
    /// after them. The slots between must be empty, and at least as many as the items that go first. `size` is the
    /// number of slots.
    #[inline]
    pub(crate) fn bring_first(&mut self, ptr: *mut T, size: usize, from: usize, len: usize)
        requires at { ptr ≡ self.old.at }
        requires size { size ≡ length self.old.slots }
        requires some { from < size }
        requires room { size - from + len ≤ from }
        requires last { IsFullStretch self.old.slots from (size - from) }
        requires first { IsFullStretch self.old.slots 0 len }
        requires empty { IsEmptyStretch self.old.slots len (from - len) }
        ensures { self.new ≡ owner_with_brought_first self.old from len }
    {
        let count = size - from;
        let mut row = self.detach(ptr, size);
        row.move_within(0, count, len);
        row.move_over(from, 0, count);
        self.attach(row, count + len);
    }

    /// Takes the slots out as a row of core's, which `attach` puts back. An empty slot has a value in the logic, so `T`
    /// must have one.
    fn detach(&mut self, ptr: *mut T, size: usize) -> Slots<T>
        requires at { ptr ≡ self.old.at }
        requires size { size ≡ length self.old.slots }
        requires some { T }
        ensures row { (slots_ptr result ≡ self.old.at) × HoldsRow self.old.slots result size }
        ensures left { (self.new.at ≡ self.old.at) × (self.new.slots ≡ []) }
    {
        unsafe { Slots::from_raw_parts(ptr, size) }
    }

    /// Puts the slots back, of which those from `len` on are empty then, whatever they held.
    fn attach(&mut self, row: Slots<T>, len: usize)
        requires at { slots_ptr row ≡ self.old.at }
        requires out { self.old.slots ≡ [] }
        ensures { (self.new.at ≡ self.old.at) × HoldsRow self.new.slots row len }
    {
        let _parts = unsafe { row.into_raw_parts() };
    }
}
