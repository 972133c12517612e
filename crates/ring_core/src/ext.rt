//! Calls by a dot on any ring.

ghost use Rattle.std.specs.Prelude.{◌≡◌, ◌-◌, ◌*◌, ◌≤◌, [], IfOk, OnErr, OnOk, drop, length, min, take};
ghost use Rattle.std.specs.Range.Bound.{end_index, start_index};
ghost use Rattle.ring_core.specs.Contents.{Counts};
ghost use Rattle.ring_core.specs.Walk.{DrainsInOrder, DrainsInReverse, ReadsInOrder, ReadsInReverse, StartsOver, items_between, items_outside, iterator_to_come};

use crate::double_ended::DoubleEndedRing;
use crate::drain::RingBufferDrainingIterator;
use crate::iter::RingBufferIterator;
use crate::iter_mut::RingBufferMutIterator;
use crate::range::range_within;
use crate::ring::RingBuffer;
use crate::taking::{move_newest, move_oldest, take_between};
use std::alloc::{AllocError, Global};
use std::ops::RangeBounds;

/// The walks over a ring of any type, and calls that stand on the trait alone. Each `RingBuffer` has them.
pub trait RingBufferExt<T: Drop>: RingBuffer<T> {
    /// Returns a walk over the items, oldest first, from either end.
    ///
    /// ```rust
    /// ring.iter().count()
    /// ```
    fn iter(&self) -> RingBufferIterator<'_, T, Self>
        ensures left { iterator_to_come Self.contents result ≡ Self.contents self.now }
        ensures runs { ReadsInOrder Self.contents }
        ensures runs_back { ReadsInReverse Self.contents };

    /// Returns a walk over the items at the indexes in a range, as `2..5` or `3..`, without walking over those before it.
    /// A bound past the length is cut to it, and a range that ends before it starts has no items.
    fn range<X: RangeBounds<usize>>(&self, range: X) -> RingBufferIterator<'_, T, Self>
        requires { X.has_bounds range }
        ensures left { iterator_to_come Self.contents result
            ≡ items_between (X.start_bound range) (X.end_bound range) (Self.contents self.now) }
        ensures runs { ReadsInOrder Self.contents }
        ensures runs_back { ReadsInReverse Self.contents };

    /// Returns a cursor that lends the items for writing, one at a time, from either end.
    fn iter_mut(&mut self) -> RingBufferMutIterator<'_, T, Self>
        ensures same_reference { result.ring.ghost_name ≡ self.entry.ghost_name }
        ensures ring { result.ring.now ≡ self.entry.now }
        ensures starts { StartsOver Self.contents result };

    /// Returns a walk that takes the items out, oldest first, and from either end if the ring is a `DoubleEndedRing`.
    /// Those that it didn't hand out stay.
    ///
    /// ```rust
    /// ring.drain().collect(alloc)
    /// ```
    fn drain(&mut self) -> RingBufferDrainingIterator<'_, T, Self>
        ensures same_reference { result.ring.ghost_name ≡ self.entry.ghost_name }
        ensures ring { result.ring.now ≡ self.entry.now }
        ensures runs { DrainsInOrder Self.contents Self.limit Self.slot_changes }
        ensures runs_back { DrainsInReverse Self.contents Self.limit Self.slot_changes };

    /// Takes out all items, oldest first, in new memory, and leaves the ring empty. Takes O(n). This call is the
    /// library's own: the Rust crate has none like it.
    ///
    /// ```rust
    /// ring.take_all(alloc)
    /// ```
    ///
    /// # Errors
    ///
    /// Where memory was refused. The ring is as it was.
    fn take_all(&mut self, alloc: Global) -> Result<Vec<T>, AllocError>
        ensures taken { IfOk result (λ v. v.items ≡ Self.contents self.old) }
        ensures emptied { OnOk result (Self.contents self.new ≡ []) }
        ensures refused { OnErr result (self.new ≡ self.old) }
        ensures limit { Self.limit self.new ≡ Self.limit self.old }
        ensures changes { Counts Self.limit Self.contents Self.slot_changes self.old self.new 0 };
}

impl<T: Drop, R: RingBuffer<T>> RingBufferExt<T> for R {
    #[inline]
    fn iter(&self) -> RingBufferIterator<'_, T, R> {
        RingBufferIterator::new(self)
    }

    #[inline]
    fn range<X: RangeBounds<usize>>(&self, range: X) -> RingBufferIterator<'_, T, R> {
        RingBufferIterator::range(self, range)
    }

    #[inline]
    fn iter_mut(&mut self) -> RingBufferMutIterator<'_, T, R> {
        RingBufferMutIterator::new(self)
    }

    #[inline]
    fn drain(&mut self) -> RingBufferDrainingIterator<'_, T, R> {
        RingBufferDrainingIterator::new(self)
    }

    #[inline]
    fn take_all(&mut self, alloc: Global) -> Result<Vec<T>, AllocError> {
        let len = self.len();
        let items = Vec::with_capacity(alloc, len)?;
        Ok(move_oldest(self, len, items))
    }
}

/// Calls of any ring that changes at both ends, which take items out of it into new memory. Each `DoubleEndedRing` has
/// them. They are the library's own: the Rust crate has none like them.
pub trait DoubleEndedRingExt<T: Drop>: DoubleEndedRing<T> {
    /// Takes out the items at the indexes in a range, as `2..5` or `3..`, in order, in new memory. A bound past the length
    /// is cut to it, and a range that ends before it starts has no items. Moves the fewer of the items before and after,
    /// each twice: O(n).
    ///
    /// ```rust
    /// ring.drain_range(2..5, alloc)
    /// ```
    ///
    /// # Errors
    ///
    /// Where memory was refused. The ring is as it was.
    fn drain_range<X: RangeBounds<usize>>(
        &mut self,
        range: X,
        alloc: Global,
    ) -> Result<Vec<T>, AllocError>
        requires { X.has_bounds range }
        ensures taken { IfOk result (λ v. v.items
            ≡ items_between (X.start_bound range) (X.end_bound range) (Self.contents self.old)) }
        ensures rest { OnOk result (Self.contents self.new
            ≡ items_outside (X.start_bound range) (X.end_bound range) (Self.contents self.old)) }
        ensures refused { OnErr result (self.new ≡ self.old) }
        ensures limit { Self.limit self.new ≡ Self.limit self.old }
        ensures changes { Counts Self.limit Self.contents Self.slot_changes self.old self.new
            (let len = length (Self.contents self.old) in
            2 * min (start_index (X.start_bound range)) (len - end_index (X.end_bound range) len)) };

    /// Takes out the items from index `at` on, in order, in new memory, and keeps those before it. Takes O(n) in the
    /// items taken out.
    ///
    /// ```rust
    /// queue.split_off(at, alloc)
    /// ```
    ///
    /// # Errors
    ///
    /// Where memory was refused. The ring is as it was.
    fn split_off(&mut self, at: usize, alloc: Global) -> Result<Vec<T>, AllocError>
        requires { at ≤ length (Self.contents self.old) }
        ensures taken { IfOk result (λ v. v.items ≡ drop at (Self.contents self.old)) }
        ensures rest { OnOk result (Self.contents self.new ≡ take at (Self.contents self.old)) }
        ensures refused { OnErr result (self.new ≡ self.old) }
        ensures limit { Self.limit self.new ≡ Self.limit self.old }
        ensures changes { Counts Self.limit Self.contents Self.slot_changes self.old self.new 0 };
}

impl<T: Drop, R: DoubleEndedRing<T>> DoubleEndedRingExt<T> for R {
    #[inline]
    fn drain_range<X: RangeBounds<usize>>(
        &mut self,
        range: X,
        alloc: Global,
    ) -> Result<Vec<T>, AllocError> {
        let range = range_within(&range, self.len());
        take_between(self, range.start, range.end, alloc)
    }

    #[inline]
    fn split_off(&mut self, at: usize, alloc: Global) -> Result<Vec<T>, AllocError> {
        let count = self.len() - at;
        let items = Vec::with_capacity(alloc, count)?;
        Ok(move_newest(self, count, items))
    }
}
