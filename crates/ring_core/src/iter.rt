//! Walks that read the items of any ring buffer.

ghost use Rattle.std.specs.Prelude.{◌≡◌, ◌+◌, ◌-◌, ◌<◌, ⊤, true, false, drop, find, position, length, min, IfSome, IsTrue, MatchOption, OnSome, Some, slice_get};
ghost use Rattle.std.specs.Bool.{MatchBool, OnFalse, OnTrue};
ghost use Rattle.std.specs.List.{list_any, list_all};
ghost use Rattle.std.specs.Iterator.{CallableWhile, CallableWhileAt, ChecksAll, ChecksAny, FindsItem, FindsPosition, IsNearerEnd, MakesProgress, YieldsFirstRef, YieldsLastRef, UpTo, at_most, item_count};
ghost use Rattle.std.specs.Iterator.Runs.{AllItemsGive, AnyItemGives, EndsAtFirstPassing, IsFirstToGive, NoItemPasses, SomeRun};
ghost use Rattle.std.specs.Iterator.SizeHint.{IsWithinCount};
ghost use Rattle.std.specs.Option.{option_copied};
ghost use Rattle.ring_core.specs.Walk.{ByTest, ByTestAt, ReadsInOrder, ReadsInReverse, iterator_to_come, items_between};

use crate::range::{end_within, start_within};
use crate::ring::RingBuffer;
use std::alloc::AllocError;
use std::iter::FusedIterator;
use std::marker::PhantomData;
use std::ops::RangeBounds;

/// A walk over the items of a ring, from either end.
#[derive(Drop)]
pub struct RingBufferIterator<'rb, T: 'rb, RB> {
    ring: &'rb RB,
    front: usize,
    back: usize,
    items: PhantomData<T>,
}

impl<'rb, T: Drop, RB: RingBuffer<T>> RingBufferIterator<'rb, T, RB> {
    /// Returns a walk over all items of the ring.
    pub fn new(ring: &'rb RB) -> Self
        ensures left { iterator_to_come RB.contents result ≡ RB.contents ring.now }
        ensures runs { ReadsInOrder RB.contents }
        ensures runs_back { ReadsInReverse RB.contents }
    {
        RingBufferIterator {
            ring,
            front: 0,
            back: ring.len(),
            items: PhantomData,
        }
    }

    /// Returns a walk over the items at the indexes in a range, as `2..5` or `3..`, without walking over those before it.
    /// A bound past the length is cut to it, and a range that ends before it starts has no items.
    pub fn range<X: RangeBounds<usize>>(ring: &'rb RB, range: X) -> Self
        requires { X.has_bounds range }
        ensures left { iterator_to_come RB.contents result
            ≡ items_between (X.start_bound range) (X.end_bound range) (RB.contents ring.now) }
        ensures runs { ReadsInOrder RB.contents }
        ensures runs_back { ReadsInReverse RB.contents }
    {
        let len = ring.len();
        RingBufferIterator {
            ring,
            front: start_within(&range, len),
            back: end_within(&range, len),
            items: PhantomData,
        }
    }

    /// Passes over `n` items and returns the next, or `None` for good if fewer are left. It takes one step, where the
    /// trait's `nth` takes `n + 1`.
    pub fn nth(&mut self, n: usize) -> Option<&'rb T>
        ensures value { option_copied result
            ≡ slice_get (iterator_to_come RB.contents self.old) n }
        ensures left { iterator_to_come RB.contents self.new
            ≡ drop (n + 1) (iterator_to_come RB.contents self.old) }
    {
        if n >= self.len() {
            self.front = self.back;
            return None;
        }
        let at = self.front + n;
        self.front = at + 1;
        self.ring.get(at)
    }

    /// Returns the last item that is left, by one step.
    pub fn last(mut self) -> Option<&'rb T>
        ensures { let left = iterator_to_come RB.contents self.entry in
            option_copied result ≡ slice_get left (length left - 1) }
    {
        self.next_back()
    }

    /// Returns the number of items left, without walking over them.
    pub fn count(self) -> usize
        ensures { result ≡ length (iterator_to_come RB.contents self.entry) }
    {
        self.len()
    }

    /// Returns whether an item that is left passes a test, and stops at the first that does.
    pub fn any<F: FnMut(&'rb T) -> bool>(&mut self, f: F) -> bool
        requires { CallableWhile (YieldsFirstRef (iterator_to_come RB.contents)) F.FnMut false self.old f }
        ensures ran { ChecksAny (YieldsFirstRef (iterator_to_come RB.contents)) F.FnMut self.old f result self.new }
        ensures value { ByTest F.FnMut f (iterator_to_come RB.contents self.old)
            (λ test xs. result ≡ list_any test xs) }
        ensures runs { SomeRun (YieldsFirstRef (iterator_to_come RB.contents)) self.old (λ p. MatchBool result
            (AnyItemGives p F.FnMut f true) (IsTrue p.whole × AllItemsGive p F.FnMut f false)) }
        ensures progress { OnTrue result (IsNearerEnd (λ _. ⊤)
            (item_count (iterator_to_come RB.contents)) self.old self.new) }
    {
        Iterator::any(self, f)
    }

    /// Returns whether each item that is left passes a test, and stops at the first that fails.
    pub fn all<F: FnMut(&'rb T) -> bool>(&mut self, f: F) -> bool
        requires { CallableWhile (YieldsFirstRef (iterator_to_come RB.contents)) F.FnMut true self.old f }
        ensures ran { ChecksAll (YieldsFirstRef (iterator_to_come RB.contents)) F.FnMut self.old f result self.new }
        ensures value { ByTest F.FnMut f (iterator_to_come RB.contents self.old)
            (λ test xs. result ≡ list_all test xs) }
        ensures runs { SomeRun (YieldsFirstRef (iterator_to_come RB.contents)) self.old (λ p. MatchBool result
            (IsTrue p.whole × AllItemsGive p F.FnMut f true) (AnyItemGives p F.FnMut f false)) }
        ensures progress { OnFalse result (IsNearerEnd (λ _. ⊤)
            (item_count (iterator_to_come RB.contents)) self.old self.new) }
    {
        Iterator::all(self, f)
    }

    /// Returns how many items that are left come before the first that passes a test.
    pub fn position<F: FnMut(&'rb T) -> bool>(&mut self, f: F) -> Option<usize>
        requires { CallableWhile (YieldsFirstRef (iterator_to_come RB.contents)) F.FnMut false self.old f }
        ensures ran { FindsPosition (YieldsFirstRef (iterator_to_come RB.contents)) F.FnMut self.old f result self.new }
        ensures value { ByTest F.FnMut f (iterator_to_come RB.contents self.old)
            (λ test xs. result ≡ position test xs) }
        ensures bound { IfSome result (λ i. i < length (iterator_to_come RB.contents self.old)) }
        ensures runs { SomeRun (YieldsFirstRef (iterator_to_come RB.contents)) self.old (λ u. MatchOption result
            (IsTrue u.whole × AllItemsGive u F.FnMut f false)
            (λ i. (u.len ≡ i + 1) × IsFirstToGive u F.FnMut f true false i)) }
        ensures progress { OnSome result (IsNearerEnd (λ _. ⊤)
            (item_count (iterator_to_come RB.contents)) self.old self.new) }
    {
        let _ = self.len();
        Iterator::position(self, f)
    }

    /// Returns the first item that is left and passes a test.
    pub fn find<F: FnMut(&&'rb T) -> bool>(&mut self, f: F) -> Option<&'rb T>
        requires { CallableWhileAt (YieldsFirstRef (iterator_to_come RB.contents)) F.FnMut false self.old f }
        ensures ran { FindsItem (YieldsFirstRef (iterator_to_come RB.contents)) F.FnMut self.old f result self.new }
        ensures value { ByTestAt F.FnMut f (iterator_to_come RB.contents self.old)
            (λ test xs. option_copied result ≡ find test xs) }
        ensures goes { MakesProgress (λ _. ⊤) (item_count (iterator_to_come RB.contents))
            self.old result self.new }
        ensures runs { SomeRun (YieldsFirstRef (iterator_to_come RB.contents)) self.old (λ u. MatchOption result
            (IsTrue u.whole × NoItemPasses u F.FnMut f) (EndsAtFirstPassing u F.FnMut f)) }
    {
        Iterator::find(self, f)
    }
}

impl<'rb, T: Drop, RB: RingBuffer<T>> Iterator for RingBufferIterator<'rb, T, RB> {
    type Item = &'rb T;

    ghost next_gives = { YieldsFirstRef (iterator_to_come RB.contents) };

    ghost remaining = { item_count (iterator_to_come RB.contents) };

    fn next(&mut self) -> Option<&'rb T> {
        let at = self.front;
        // `back` is at most the length, but the struct can't say so: its ring has no bound, and so no length.
        if at >= self.back || at >= self.ring.len() {
            return None;
        }
        self.front = at + 1;
        self.ring.get(at)
    }

    fn size_hint(&self) -> (usize, Option<usize>)
        ensures lower { IsWithinCount result.0
            (at_most (length (iterator_to_come RB.contents self.now))) }
        ensures upper { IfSome result.1
            (UpTo (at_most (length (iterator_to_come RB.contents self.now)))) }
        ensures exact { let left = length (iterator_to_come RB.contents self.now) in
            result ≡ (left, Some left) }
    {
        let left = self.len();
        (left, Some(left))
    }
}

impl<'rb, T: Drop, RB: RingBuffer<T>> DoubleEndedIterator for RingBufferIterator<'rb, T, RB> {
    ghost next_back_gives = { YieldsLastRef (iterator_to_come RB.contents) };

    fn next_back(&mut self) -> Option<&'rb T> {
        let end = self.back.min(self.ring.len());
        if self.front >= end {
            return None;
        }
        self.back = end - 1;
        self.ring.get(end - 1)
    }
}

impl<'rb, T: Drop, RB: RingBuffer<T>> ExactSizeIterator for RingBufferIterator<'rb, T, RB> {
    fn len(&self) -> usize {
        self.back.min(self.ring.len()).saturating_sub(self.front)
    }
}

impl<'rb, T: Drop, RB: RingBuffer<T>> FusedIterator for RingBufferIterator<'rb, T, RB> {}

/// Returns a walk over the same items that are left, without memory.
impl<'rb, T: Drop, RB: RingBuffer<T>> Clone for RingBufferIterator<'rb, T, RB> {
    ghost is_clone = { λ walk made. made ≡ walk };

    ghost is_infallible = { λ _. Unit {0} };

    fn clone(&self) -> Result<Self, AllocError> {
        Ok(RingBufferIterator {
            ring: self.ring,
            front: self.front,
            back: self.back,
            items: PhantomData,
        })
    }
}
