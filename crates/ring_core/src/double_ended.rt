//! The trait of rings that change at both ends and at any index.

ghost use Rattle.std.specs.Prelude.{◌≡◌, ◌+◌, ◌-◌, ◌<◌, ◌≤◌, ◌↔◌, [], ◌∷◌, ◌++◌, IfErr, IfNone, IfOk, IfSome, IsErr, IsOk, IsSome, OnErr, OnOk, OnSome, Some, drop, length, min, slice_get, take};
ghost use Rattle.std.specs.List.{AllZip, insert, remove, swap};
ghost use Rattle.std.specs.Option.{option_to_list};
ghost use Rattle.std.specs.Range.Bound.{end_index, start_index};
ghost use Rattle.ring_core.specs.Contents.{Counts, IsWithin, keep_first, keep_last, past_limit};
ghost use Rattle.ring_core.specs.Walk.{items_outside};

use crate::ring::RingBuffer;
use std::alloc::AllocError;
use std::ops::RangeBounds;

/// A ring buffer that takes items in and gives them out at both ends and at any index. This trait is the library's own: the
/// Rust crate has none like it.
///
/// An index is not taken modulo the length, as a position is. An item that is moved on the way counts as taken out and put
/// in again, by two slot changes.
pub trait DoubleEndedRing<T: Drop>: RingBuffer<T> {
    /// Puts the item first. A ring that is at its limit hands back its newest item, which gave way for it.
    ///
    /// # Errors
    ///
    /// Hands `item` back where memory was refused, which no ring with a limit meets.
    fn push_front(&mut self, item: T) -> Result<Option<T>, T>
        ensures overwrites { IfOk result
            (λ gave. gave ≡ past_limit (Self.limit self.old) (item ∷ Self.contents self.old)) }
        ensures ok { OnOk result (Self.contents self.new
            ≡ keep_first (Self.limit self.old) (item ∷ Self.contents self.old)) }
        ensures err { IfErr result
            (λ back. (back ≡ item) × (Self.contents self.new ≡ Self.contents self.old)) }
        ensures succeeds { IsSome (Self.limit self.old) → IsOk result }
        ensures limit { Self.limit self.new ≡ Self.limit self.old }
        ensures changes { Counts Self.limit Self.contents Self.slot_changes self.old self.new 1 }
        ensures within { IsWithin (Self.contents self.old) (Self.limit self.old) };

    /// Takes out the newest item, if there is one.
    fn pop_back(&mut self) -> Option<T>
        ensures items { Self.contents self.old
            ≡ Self.contents self.new ++ option_to_list result }
        ensures value { result
            ≡ slice_get (Self.contents self.old) (length (Self.contents self.old) - 1) }
        ensures rest { Self.contents self.new
            ≡ take (length (Self.contents self.old) - 1) (Self.contents self.old) }
        ensures limit { Self.limit self.new ≡ Self.limit self.old }
        ensures changes { Counts Self.limit Self.contents Self.slot_changes self.old self.new 0 };

    /// Keeps the oldest items, as many as `len` says, and drops the others. Does nothing to a ring of no more items.
    fn truncate(&mut self, len: usize)
        ensures rest { Self.contents self.new ≡ take len (Self.contents self.old) }
        ensures limit { Self.limit self.new ≡ Self.limit self.old }
        ensures changes { Counts Self.limit Self.contents Self.slot_changes self.old self.new 0 };

    /// Keeps the newest items, as many as `len` says, and drops the others. Does nothing to a ring of no more items.
    fn keep_newest(&mut self, len: usize)
        ensures rest { Self.contents self.new ≡ keep_last (Some len) (Self.contents self.old) }
        ensures limit { Self.limit self.new ≡ Self.limit self.old }
        ensures changes { Counts Self.limit Self.contents Self.slot_changes self.old self.new 0 };

    /// Puts the item last if there is room for it, and overwrites nothing.
    ///
    /// ```rust
    /// queue.try_push(job)
    /// ```
    ///
    /// # Errors
    ///
    /// Hands `item` back if the ring is at its limit or, without a limit, where memory was refused.
    fn try_push(&mut self, item: T) -> Result<(), T>
        ensures ok { OnOk result (Self.contents self.new ≡ Self.contents self.old ++ item ∷ []) }
        ensures err { IfErr result
            (λ back. (back ≡ item) × (Self.contents self.new ≡ Self.contents self.old)) }
        ensures full { IfSome (Self.limit self.old)
            (λ n. IsErr result ↔ (length (Self.contents self.old) ≡ n)) }
        ensures limit { Self.limit self.new ≡ Self.limit self.old }
        ensures changes { Counts Self.limit Self.contents Self.slot_changes self.old self.new 1 };

    /// Puts the item at an index, before the items from there on. At the length it is put last. Moves the fewer of the items
    /// before and after: O(n).
    ///
    /// # Errors
    ///
    /// Hands `item` back if the ring is at its limit or, without a limit, where memory was refused.
    fn insert(&mut self, index: usize, item: T) -> Result<(), T>
        requires { index ≤ length (Self.contents self.old) }
        ensures ok { OnOk result (Self.contents self.new
            ≡ insert (Self.contents self.old) index item) }
        ensures err { IfErr result
            (λ back. (back ≡ item) × (Self.contents self.new ≡ Self.contents self.old)) }
        ensures full { IfSome (Self.limit self.old)
            (λ n. IsErr result ↔ (length (Self.contents self.old) ≡ n)) }
        ensures limit { Self.limit self.new ≡ Self.limit self.old }
        ensures changes { Counts Self.limit Self.contents Self.slot_changes self.old self.new
            (min index (length (Self.contents self.old) - index) + 1) };

    /// Takes out the item at an index, or returns `None` from the length on. Moves the fewer of the items before and after:
    /// O(n).
    fn remove(&mut self, index: usize) -> Option<T>
        ensures value { result ≡ slice_get (Self.contents self.old) index }
        ensures rest { OnSome result (Self.contents self.new
            ≡ remove (Self.contents self.old) index) }
        ensures unchanged { IfNone result (Self.contents self.new ≡ Self.contents self.old) }
        ensures limit { Self.limit self.new ≡ Self.limit self.old }
        ensures changes { Counts Self.limit Self.contents Self.slot_changes self.old self.new
            (min index (length (Self.contents self.old) - 1 - index)) };

    /// Drops the items at the indexes in a range, as `2..5` or `3..`. A bound past the length is cut to it, and a range that
    /// ends before it starts has no items. Moves the fewer of the items before and after, each once: O(n).
    fn remove_range<X: RangeBounds<usize>>(&mut self, range: X)
        requires { X.has_bounds range }
        ensures rest { Self.contents self.new
            ≡ items_outside (X.start_bound range) (X.end_bound range) (Self.contents self.old) }
        ensures limit { Self.limit self.new ≡ Self.limit self.old }
        ensures changes { Counts Self.limit Self.contents Self.slot_changes self.old self.new
            (let len = length (Self.contents self.old) in
            min (start_index (X.start_bound range)) (len - end_index (X.end_bound range) len)) };

    /// Exchanges the items at two indexes below the length.
    fn swap(&mut self, i: usize, j: usize)
        requires first { i < length (Self.contents self.old) }
        requires second { j < length (Self.contents self.old) }
        ensures items { Self.contents self.new ≡ swap (Self.contents self.old) i j }
        ensures limit { Self.limit self.new ≡ Self.limit self.old }
        ensures changes { Counts Self.limit Self.contents Self.slot_changes self.old self.new 2 };

    /// Moves the oldest items after the newest, as many as `count` says, or the others the other way: O(n) in the fewer.
    fn rotate_left(&mut self, count: usize)
        requires { count ≤ length (Self.contents self.old) }
        ensures items { Self.contents self.new
            ≡ drop count (Self.contents self.old) ++ take count (Self.contents self.old) }
        ensures limit { Self.limit self.new ≡ Self.limit self.old }
        ensures changes { Counts Self.limit Self.contents Self.slot_changes self.old self.new
            (min count (length (Self.contents self.old) - count)) };

    /// Moves the newest items before the oldest, as many as `count` says, or the others the other way: O(n) in the fewer.
    fn rotate_right(&mut self, count: usize)
        requires { count ≤ length (Self.contents self.old) }
        ensures items { let others = length (Self.contents self.old) - count in
            Self.contents self.new
            ≡ drop others (Self.contents self.old) ++ take others (Self.contents self.old) }
        ensures limit { Self.limit self.new ≡ Self.limit self.old }
        ensures changes { Counts Self.limit Self.contents Self.slot_changes self.old self.new
            (min count (length (Self.contents self.old) - count)) }
    {
        let others = self.len() - count;
        self.rotate_left(others);
    }

    /// Drops all items of `other`, and pushes clones of the items onto it. Unlike `clone` it makes no second ring. Takes O(n)
    /// in the items of both.
    ///
    /// ```rust
    /// ring.clone_into(kept).unwrap();
    /// ```
    ///
    /// # Errors
    ///
    /// Where a clone was refused or, on a ring without a limit, memory was. Then `other` holds the clones before it alone.
    fn clone_into(&self, other: &mut Self) -> Result<(), AllocError>
    where
        T: Clone,
        requires { IfSome (Self.limit other.old) (λ n. length (Self.contents self.now) ≤ n) }
        ensures clones { AllZip T.is_clone
            (take (length (Self.contents other.new)) (Self.contents self.now))
            (Self.contents other.new) }
        ensures all { OnOk result
            (length (Self.contents other.new) ≡ length (Self.contents self.now)) }
        ensures short { OnErr result
            (length (Self.contents other.new) < length (Self.contents self.now)) }
        ensures succeeds { IsSome (Self.limit other.old) → ((x : T) → T.is_infallible x)
            → IsOk result }
        ensures limit { Self.limit other.new ≡ Self.limit other.old }
        ensures changes { Counts Self.limit Self.contents Self.slot_changes other.old other.new
            (length (Self.contents other.new)) };
}
