//! Marks of full slots that only clauses read.
ghost use Rattle.std.specs.Prelude.{◌≡◌, ◌+◌, ◌++◌, Bool, List, drop, false, replicate, slice_set, take};
ghost use Rattle.std.specs.Borrow.{ftrue};

use std::marker::{Model, Send, Sync};

/// Which slots are full: a mark for each of them. They take no bytes, so no code can ask them.
#[derive(Drop)]
pub(crate) struct Marks {
    pub(crate) ghost full: { List Bool },
}

impl Model for Marks {
    ghost also_owns = { λ _. ftrue };
}

unsafe impl Send for Marks {}

unsafe impl Sync for Marks {}

impl Marks {
    /// Returns the marks of `size` empty slots.
    pub(crate) fn none(size: usize) -> Marks
        ensures { result.full ≡ replicate size false }
    {
        Marks {}
    }

    /// Returns the marks once the slot at a place is full, or empty.
    #[inline]
    pub(crate) fn set(&self, place: usize, full: bool) -> Marks
        ensures { result.full ≡ slice_set self.now.full place full }
    {
        Marks {}
    }

    /// Returns the marks once `len` slots from the place `from` on are full, or empty.
    #[inline]
    pub(crate) fn marked(&self, from: usize, len: usize, full: bool) -> Marks
        ensures { result.full ≡ take from self.now.full
            ++ (replicate len full ++ drop (from + len) self.now.full) }
    {
        Marks {}
    }
}
