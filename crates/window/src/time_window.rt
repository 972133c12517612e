//! A window over a ring, of the items that came within a span of time.

ghost use Rattle.std.specs.Prelude.{◌≡◌, ◌-◌, ◌↔◌, [], ◌∷◌, ◌++◌, IfErr, IfOk, IfSome, IsNone, IsOk, IsSome, IsTrue, OnOk, drop, false, length, nat_lt, not, slice_get};
ghost use Rattle.std.specs.Option.{option_copied};
ghost use Rattle.ringbuffer.specs.Contents.{IsWithin, keep_last, overwritten};
ghost use Rattle.ringbuffer.specs.Walk.{ReadsInOrder, ReadsInReverse, iterator_to_come};
ghost use Rattle.window.specs.Times.{without_older};

use ringbuffer::{RingBuffer, RingBufferIterator};
use std::marker::{Model, PhantomData};

/// An item, and the time at which it came, in a unit of the caller's.
#[derive(Clone, Copy, Debug, Default, Drop, PartialEq, Eq)]
pub struct Stamped<T> {
    pub stamp: u64,
    pub item: T,
}

/// A ring of items with stamps. A push drops the oldest items while their stamps are more than the span before the new one;
/// an item that is exactly as old as the span stays. A ring with a limit may lose younger ones too, of which each is handed
/// back.
///
/// Stamps may come out of order: an item that is too old stays behind one that isn't, until that one leaves.
///
/// A contract sees a window as the contents and the limit of its ring, and its span.
#[derive(Drop)]
pub struct WindowTime<T: Drop, R: RingBuffer<Stamped<T>>> {
    ring: R,
    span: u64,
    items: PhantomData<T>,
}

impl<T: Drop, R: RingBuffer<Stamped<T>>> Model for WindowTime<T, R> {
    ghost use Rattle.window.specs.Views.{TimedItems};
    ghost use Rattle.window.specs.declared.time_window.Stamped.{Stamped};

    ghost Value = { TimedItems (Stamped T) };

    ghost view = { λ w. record { contents = R.contents w.ring; limit = R.limit w.ring; span = w.span } };
}

impl<T: Drop, R: RingBuffer<Stamped<T>>> WindowTime<T, R> {
    /// Returns a window over what `ring` holds. None of it leaves before the first push.
    pub fn new(ring: R, span: u64) -> Self
        ensures contents { result.contents ≡ R.contents ring }
        ensures limit { result.limit ≡ R.limit ring }
        ensures span { result.span ≡ span }
    {
        WindowTime {
            ring,
            span,
            items: PhantomData,
        }
    }

    /// Drops the items that are too old at the time `stamp`, as `advance` does, and adds `item` last. A window that is at its
    /// limit even so hands back its oldest item, which gave way for it. Takes O(1) on average, since each item leaves once.
    ///
    /// # Errors
    ///
    /// Hands `item` back where the ring was refused memory, which no ring with a limit meets. The window is as it was.
    pub fn push(&mut self, stamp: u64, item: T) -> Result<Option<Stamped<T>>, T>
        ensures overwrites { IfOk result (λ old. old ≡ overwritten self.old.limit
            (without_older (stamp - self.old.span) self.old.contents)) }
        ensures ok { OnOk result (self.new.contents ≡ keep_last self.old.limit
            (without_older (stamp - self.old.span) self.old.contents
            ++ record { stamp = stamp; item = item } ∷ [])) }
        ensures err { IfErr result (λ back. (back ≡ item) × (self.new ≡ self.old)) }
        ensures limit { self.new.limit ≡ self.old.limit }
        ensures span { self.new.span ≡ self.old.span }
        ensures succeeds { IsSome self.old.limit → IsOk result }
    {
        let time = stamp.saturating_sub(self.span);
        // First the push, so that a refusal leaves all as it was. The new item itself isn't too old.
        match self.ring.push(Stamped { stamp, item }) {
            Ok(overwritten) => {
                // Where the oldest wasn't too old, none behind it leaves.
                if came_since(&overwritten, time) {
                    return Ok(overwritten);
                }
                drop(overwritten);
                let _ = self.drop_older(time);
                Ok(None)
            }
            Err(stamped) => Err(stamped.item),
        }
    }

    /// Drops the oldest items while they came more than the span before `now`, and returns how many. Takes O(n) in these.
    pub fn advance(&mut self, now: u64) -> usize
        ensures value { result ≡ length self.old.contents - length self.new.contents }
        ensures rest { self.new.contents ≡ without_older (now - self.old.span) self.old.contents }
        ensures limit { self.new.limit ≡ self.old.limit }
        ensures span { self.new.span ≡ self.old.span }
    {
        self.drop_older(now.saturating_sub(self.span))
    }

    /// Drops the oldest items while they came before `time`, and returns how many. Takes O(n) in these.
    pub fn drop_older(&mut self, time: u64) -> usize
        ensures value { result ≡ length self.old.contents - length self.new.contents }
        ensures rest { self.new.contents ≡ without_older time self.old.contents }
        ensures limit { self.new.limit ≡ self.old.limit }
        ensures span { self.new.span ≡ self.old.span }
    {
        self.ring.dequeue_while(|x| x.stamp < time)
    }

    /// Takes out the oldest item. Does nothing to an empty window.
    pub fn dequeue(&mut self) -> Option<Stamped<T>>
        ensures value { result ≡ slice_get self.old.contents 0 }
        ensures rest { self.new.contents ≡ drop 1 self.old.contents }
        ensures limit { self.new.limit ≡ self.old.limit }
        ensures span { self.new.span ≡ self.old.span }
    {
        self.ring.dequeue()
    }

    /// Drops all items.
    pub fn clear(&mut self)
        ensures contents { self.new.contents ≡ [] }
        ensures limit { self.new.limit ≡ self.old.limit }
        ensures span { self.new.span ≡ self.old.span }
    {
        self.ring.clear();
    }

    /// Returns an iterator over the items, oldest first, from either end.
    pub fn iter(&self) -> RingBufferIterator<'_, Stamped<T>, R>
        ensures left { iterator_to_come R.contents result ≡ self.now.contents }
        ensures runs { ReadsInOrder R.contents }
        ensures runs_back { ReadsInReverse R.contents }
    {
        RingBufferIterator::new(&self.ring)
    }

    /// Returns the oldest item.
    pub fn oldest(&self) -> Option<&Stamped<T>>
        ensures { option_copied result ≡ slice_get self.now.contents 0 }
    {
        self.ring.front()
    }

    /// Returns the newest item.
    pub fn newest(&self) -> Option<&Stamped<T>>
        ensures { option_copied result
            ≡ slice_get self.now.contents (length self.now.contents - 1) }
    {
        self.ring.back()
    }

    /// Returns how much older than the newest an item may be.
    pub fn span(&self) -> u64
        ensures { result ≡ self.now.span }
    {
        self.span
    }

    /// Returns how many items the window holds.
    pub fn len(&self) -> usize
        ensures value { result ≡ length self.now.contents }
        ensures within { IsWithin self.now.contents self.now.limit }
    {
        self.ring.len()
    }

    /// Returns whether the window holds no item.
    pub fn is_empty(&self) -> bool
        ensures { IsTrue result ↔ (self.now.contents ≡ []) }
    {
        self.ring.is_empty()
    }

    /// Returns the ring, which holds the items.
    pub fn ring(&self) -> &R
        ensures contents { R.contents result.now ≡ self.now.contents }
        ensures limit { R.limit result.now ≡ self.now.limit }
    {
        &self.ring
    }

    /// Returns the ring without its window.
    pub fn into_ring(self) -> R
        ensures contents { R.contents result ≡ self.contents }
        ensures limit { R.limit result ≡ self.limit }
    {
        self.ring
    }
}

/// Returns whether there is an item that came at `time` or later.
fn came_since<T>(overwritten: &Option<Stamped<T>>, time: u64) -> bool
    ensures none { IsNone overwritten.now → result ≡ false }
    ensures some { IfSome overwritten.now (λ x. result ≡ not (nat_lt x.stamp time)) }
{
    match overwritten {
        Some(stamped) => stamped.stamp >= time,
        None => false,
    }
}
