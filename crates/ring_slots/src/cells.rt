//! An array whose elements are lent, copied and passed along.
ghost use Rattle.std.specs.Prelude.{◌≡◌, ◌+◌, ◌<◌, ◌≤◌, ◌++◌, drop, length, replicate, take, None, Some, slice_index_or, slice_set};
ghost use Rattle.std.specs.Borrow.{sem};
ghost use Rattle.ring_slots.specs.Slots.{IsFullStretch, passed_down, passed_up};

use crate::passing::{pass_down, pass_full_down, pass_full_up, pass_up};

/// An array in a struct of its own, so that a contract can say what a loan of one element leaves.
#[derive(Drop)]
pub(crate) struct Cells<X, const N: usize> {
    pub(crate) xs: [X; N],
}

impl<X, const N: usize> Cells<X, N> {
    ghost use Rattle.ring_slots.specs.cells.Lends.{PassesCells, lends_cell, lends_cells};

    #[inline]
    pub(crate) fn at(&self, place: usize) -> &X
        requires { place < N }
        ensures { result.now ≡ slice_index_or self.now.xs place result.now }
    {
        &self.xs[place]
    }

    #[inline]
    pub(crate) fn at_mut(&mut self, place: usize) -> &mut X
        requires { place < N }
        ensures* writes_back { sem 𝓛 (lends_cell X.row N.row self.entry place result) }
        ensures value { result.now ≡ slice_index_or self.old.xs place result.now }
    {
        &mut self.xs[place]
    }

    /// Lends `len` elements from a place on, for writing.
    #[inline]
    pub(crate) fn slice_mut(&mut self, from: usize, len: usize) -> &mut [X]
        requires { from + len ≤ N }
        ensures* writes_back { sem 𝓛 (lends_cells X.row N.row self.entry from len result) }
        ensures value { result.now ≡ take len (drop from self.old.xs) }
    {
        &mut self.xs[from..from + len]
    }

    /// Puts an element before `len` of them from a place on, each of which moves one up, and returns the one that was last.
    #[inline]
    pub(crate) fn pass_up(&mut self, from: usize, len: usize, x: X) -> X
        requires { from + len ≤ N }
        ensures { PassesCells self.old.xs self.new.xs from len (passed_up x result) }
    {
        let xs = &mut self.xs[..];
        pass_up(&mut xs[from..from + len], x)
    }

    /// Puts an element after `len` of them from a place on, each of which moves one down, and returns the one that was
    /// first.
    #[inline]
    pub(crate) fn pass_down(&mut self, from: usize, len: usize, x: X) -> X
        requires { from + len ≤ N }
        ensures { PassesCells self.old.xs self.new.xs from len (passed_down x result) }
    {
        let xs = &mut self.xs[..];
        pass_down(&mut xs[from..from + len], x)
    }
}

impl<X: Copy, const N: usize> Cells<X, N> {
    /// Makes cells that all hold one element.
    pub(crate) fn of(x: X) -> Self
        ensures { result.xs ≡ replicate N x }
    {
        Cells { xs: [x; N] }
    }

    pub(crate) fn copied(&self) -> Self
        ensures { result ≡ self.now }
    {
        Cells { xs: self.xs }
    }

    #[inline]
    pub(crate) fn put(&mut self, place: usize, x: X)
        requires { place < N }
        ensures { self.new.xs ≡ slice_set self.old.xs place x }
    {
        self.xs[place] = x;
    }

    /// Returns `len` elements from a place on.
    #[inline]
    pub(crate) fn slice(&self, from: usize, len: usize) -> &[X]
        requires { from + len ≤ N }
        ensures { result.now ≡ take len (drop from self.now.xs) }
    {
        let xs = &self.xs[..];
        &xs[from..from + len]
    }

    /// Writes copies of some elements over those from a place on.
    #[inline]
    pub(crate) fn put_slice(&mut self, from: usize, items: &[X])
        requires { from + length items.now ≤ N }
        ensures { self.new.xs ≡ take from self.old.xs
            ++ (items.now ++ drop (from + length items.now) self.old.xs) }
    {
        let xs = &mut self.xs[..];
        xs[from..from + items.len()].copy_from_slice(items);
    }

    /// Copies `count` elements from a place on to those from the place `to` on, which may be some of them.
    pub(crate) fn copy_within(&mut self, from: usize, to: usize, count: usize)
        requires from { from + count ≤ N }
        requires to { to + count ≤ N }
        ensures { self.new.xs ≡ take to self.old.xs
            ++ (take count (drop from self.old.xs) ++ drop (to + count) self.old.xs) }
    {
        // Elements that stay take no step: a full ring has no gap to close.
        if from == to {
            return;
        }
        let xs = &mut self.xs[..];
        xs.copy_within(from..from + count, to);
    }
}

impl<T, const N: usize> Cells<Option<T>, N> {
    ghost use Rattle.ring_slots.specs.cells.Lends.{PassesCells};

    pub(crate) fn empty() -> Self
        ensures { result.xs ≡ replicate N None }
    {
        Cells {
            xs: [const { None }; N],
        }
    }

    /// Puts an item before those of `len` full cells from a place on, each of which moves one up, and returns the one that
    /// was last.
    #[inline]
    pub(crate) fn pass_item_up(&mut self, from: usize, len: usize, item: T) -> T
        requires { IsFullStretch self.old.xs from len }
        ensures { PassesCells self.old.xs self.new.xs from len (passed_up (Some item) (Some result)) }
    {
        let xs = &mut self.xs[..];
        pass_full_up(&mut xs[from..from + len], item)
    }

    /// Puts an item after those of `len` full cells from a place on, each of which moves one down, and returns the one that
    /// was first.
    #[inline]
    pub(crate) fn pass_item_down(&mut self, from: usize, len: usize, item: T) -> T
        requires { IsFullStretch self.old.xs from len }
        ensures { PassesCells self.old.xs self.new.xs from len (passed_down (Some item) (Some result)) }
    {
        let xs = &mut self.xs[..];
        pass_full_down(&mut xs[from..from + len], item)
    }
}
