//! A window over a ring, with the least of its items in some order.

ghost use Rattle.std.specs.Prelude.{◌≡◌, ◌+◌, ◌*◌, ◌-◌, ◌<◌, ◌≤◌, ◌↔◌, [], ◌∷◌, ◌++◌, IfErr, IfOk, IfSome, IsNone, IsOk, IsSome, IsTrue, OnOk, Some, drop, length, slice_get};
ghost use Rattle.ringbuffer.specs.Contents.{IsWithin, keep_last, overwritten};
ghost use Rattle.window.specs.MonotonicQueue.{HoldsMonotonicQueue, items_on};
ghost use Rattle.window.specs.Least.{IsFirstGreatest, IsFirstLeast};

use crate::monotonic_queue::{Candidate, PushCounts, forget, rank_all, rank_newest, unranked};
use crate::order::{Ascending, Descending, Order};
use ringbuffer::RingBuffer;
use std::marker::{Model, PhantomData};

/// A ring of items, of which the least in the order `O` is known: to read it takes no comparison, and a push takes two at
/// most on average.
///
/// The window keeps a monotonic queue of candidates: the least item, the least of those after it, and so on up to the newest.
/// Each says how far the next one is ahead and the one before it is behind, in the ring's own slots. A push takes the newest
/// candidates that are above its item off the queue, one comparison each, so the worst push makes as many comparisons as
/// there are items.
///
/// A contract sees a window as its items and the limit of its ring, how many items were pushed onto it, and how often
/// it compared two.
#[derive(Drop)]
pub struct WindowLeast<T: Drop, O: Order<T>, R: RingBuffer<Candidate<T>>> {
    ring: R,
    // How many items go up to the least one and with it; 0 where there is none.
    first: usize,
    counts: PushCounts<O>,
    items: PhantomData<T>,
}

impl<T: Drop, O: Order<T>, R: RingBuffer<Candidate<T>>> Model for WindowLeast<T, O, R> {
    ghost use Rattle.std.specs.Prelude.{◌*◌};
    ghost use Rattle.window.specs.Views.{RankedItems};
    ghost use Rattle.window.specs.MonotonicQueue.{HoldsMonotonicQueue, items_on};

    ghost Value = { RankedItems T };

    ghost view = { λ w. record { contents = items_on (R.contents w.ring); limit = R.limit w.ring; pushed = w.counts.pushed; compared = w.counts.compared } };

    ghost invariant = { λ w. HoldsMonotonicQueue O.cmp (R.contents w.ring) w.first w.counts.compared (2 * w.counts.pushed) };
}

impl<T: Drop, O: Order<T>, R: RingBuffer<Candidate<T>>> WindowLeast<T, O, R> {
    /// Returns a window over what `ring` holds, whose items count as pushed.
    pub fn new(mut ring: R) -> Self
        ensures contents { result.contents ≡ items_on (R.contents ring) }
        ensures limit { result.limit ≡ R.limit ring }
        ensures pushed { result.pushed ≡ length (R.contents ring) }
        ensures compared { result.compared ≤ 2 * result.pushed }
    {
        let (first, counts) = rank_all(&mut ring);
        WindowLeast {
            ring,
            first,
            counts,
            items: PhantomData,
        }
    }

    /// Puts `item` last. A window at its limit hands back its oldest item, which gave way for it.
    ///
    /// # Errors
    ///
    /// Hands `item` back where the ring was refused memory, which no ring with a limit meets. The window is as it was.
    // Inlined, since a call passes what it hands back through memory.
    #[inline(always)]
    pub fn push(&mut self, item: T) -> Result<Option<T>, T>
        ensures overwrites { IfOk result
            (λ old. old ≡ overwritten self.old.limit self.old.contents) }
        ensures ok { OnOk result
            (self.new.contents ≡ keep_last self.old.limit (self.old.contents ++ item ∷ [])) }
        ensures err { IfErr result (λ back. (back ≡ item) × (self.new ≡ self.old)) }
        ensures limit { self.new.limit ≡ self.old.limit }
        ensures succeeds { IsSome self.old.limit → IsOk result }
        ensures pushed { OnOk result (self.new.pushed ≡ self.old.pushed + 1) }
        ensures compared { self.new.compared ≤ 2 * self.new.pushed }
        ensures rises { self.old.compared ≤ self.new.compared }
    {
        // For the proof: the contents are within the limit.
        let _ = self.ring.len();
        match self.ring.push(unranked(item)) {
            Ok(overwritten) => {
                let oldest = forget(&mut self.first, overwritten, &self.counts);
                rank_newest(&mut self.ring, &mut self.first, &mut self.counts);
                Ok(oldest)
            }
            Err(candidate) => Err(candidate.item),
        }
    }

    /// Takes out the oldest item. Does nothing to an empty window.
    pub fn dequeue(&mut self) -> Option<T>
        ensures value { result ≡ slice_get self.old.contents 0 }
        ensures rest { self.new.contents ≡ drop 1 self.old.contents }
        ensures limit { self.new.limit ≡ self.old.limit }
        ensures pushed { self.new.pushed ≡ self.old.pushed }
        ensures compared { self.new.compared ≡ self.old.compared }
    {
        let oldest = self.ring.dequeue();
        forget(&mut self.first, oldest, &self.counts)
    }

    /// Drops all items.
    pub fn clear(&mut self)
        ensures contents { self.new.contents ≡ [] }
        ensures limit { self.new.limit ≡ self.old.limit }
        ensures pushed { self.new.pushed ≡ self.old.pushed }
        ensures compared { self.new.compared ≡ self.old.compared }
    {
        self.ring.clear();
        self.first = 0;
    }

    /// Returns the least item in the window's order, the oldest of those that are equal, or `None` if there is none.
    pub fn least(&self) -> Option<&T>
        ensures none { IsNone result ↔ (self.now.contents ≡ []) }
        ensures least { IfSome result (λ x. IsFirstLeast O.cmp self.now.contents x.now) }
    {
        if self.first == 0 {
            return None;
        }
        let candidate = self.ring.get(self.first - 1)?;
        Some(&candidate.item)
    }

    /// Returns how many items the window holds.
    pub fn len(&self) -> usize
        ensures value { result ≡ length self.now.contents }
        ensures within { IsWithin self.now.contents self.now.limit }
    {
        self.ring.len()
    }

    /// Returns whether the window holds no item.
    pub fn is_empty(&self) -> bool
        ensures { IsTrue result ↔ (self.now.contents ≡ []) }
    {
        self.ring.is_empty()
    }

    /// Returns the ring, which holds the items.
    pub fn ring(&self) -> &R
        ensures contents { items_on (R.contents result.now) ≡ self.now.contents }
        ensures limit { R.limit result.now ≡ self.now.limit }
    {
        &self.ring
    }

    /// Returns the ring without its window.
    pub fn into_ring(self) -> R
        ensures contents { items_on (R.contents result) ≡ self.contents }
        ensures limit { R.limit result ≡ self.limit }
    {
        self.ring
    }
}

/// A window over a ring, with its least item.
pub type WindowMin<T, R> = WindowLeast<T, Ascending, R>;

impl<T: Ord + Drop, R: RingBuffer<Candidate<T>>> WindowLeast<T, Ascending, R> {
    /// Returns the least item, the oldest of those that are equal as `Iterator::min` does, or `None` if there is none.
    pub fn min(&self) -> Option<&T>
        ensures none { IsNone result ↔ (self.now.contents ≡ []) }
        ensures least { IfSome result (λ x. IsFirstLeast T.cmp self.now.contents x.now) }
    {
        self.least()
    }
}

/// A window over a ring, with its greatest item.
pub type WindowMax<T, R> = WindowLeast<T, Descending, R>;

impl<T: Ord + Drop, R: RingBuffer<Candidate<T>>> WindowLeast<T, Descending, R> {
    /// Returns the greatest item, or `None` if there is none. Of those that are equal it is the oldest, where
    /// `Iterator::max` returns the newest.
    pub fn max(&self) -> Option<&T>
        ensures none { IsNone result ↔ (self.now.contents ≡ []) }
        ensures greatest { IfSome result (λ x. IsFirstGreatest T.cmp self.now.contents x.now) }
    {
        self.least()
    }
}
