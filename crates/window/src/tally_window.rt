//! A window over a ring, with a tally of its items.

ghost use Rattle.std.specs.Prelude.{◌≡◌, ◌+◌, ◌<◌, ◌↔◌, [], ◌∷◌, ◌++◌, IfErr, IfOk, IsOk, IsSome, IsTrue, OnOk, drop, length, option_to_list, slice_get};
ghost use Rattle.ringbuffer.specs.Contents.{IsWithin, keep_last, overwritten};

use crate::counted::CountedTally;
use crate::tally::Tally;
use ringbuffer::{RingBuffer, RingBufferIterator};
use std::marker::{Model, PhantomData};

/// A ring of items, and their tally, which is kept: to read it takes no walk over the ring.
///
/// A contract sees a window as the contents and the limit of its ring, and how often an item was added to the tally and
/// removed from it.
#[derive(Drop)]
pub struct WindowTally<T: Copy, S: Tally<T>, R: RingBuffer<T>> {
    ring: R,
    counted: CountedTally<S>,
    items: PhantomData<T>,
}

impl<T: Copy, S: Tally<T>, R: RingBuffer<T>> Model for WindowTally<T, S, R> {
    ghost use Rattle.window.specs.Views.{TalliedItems};

    ghost Value = { TalliedItems T };

    ghost view = { λ w. record { contents = R.contents w.ring; limit = R.limit w.ring; added = w.counted.added; removed = w.counted.removed } };

    ghost invariant = { λ w. S.tells w.counted.tally (R.contents w.ring) };
}

impl<T: Copy, S: Tally<T>, R: RingBuffer<T>> WindowTally<T, S, R> {
    /// Returns a window over what `ring` holds.
    pub fn new(ring: R) -> Self
        ensures contents { result.contents ≡ R.contents ring }
        ensures limit { result.limit ≡ R.limit ring }
        ensures added { result.added ≡ length (R.contents ring) }
        ensures removed { result.removed ≡ 0 }
    {
        // For the proof: the contents are within the limit.
        let _ = ring.len();
        let mut counted = CountedTally::none();
        for item in RingBufferIterator::new(&ring) {
            counted.add(item);
        }
        WindowTally {
            ring,
            counted,
            items: PhantomData,
        }
    }

    /// Adds `item` last. A window at its limit hands back its oldest item, which gave way for it.
    ///
    /// # Errors
    ///
    /// Hands `item` back where the ring was refused memory, which no ring with a limit meets. The window, its tally too, is
    /// as it was.
    pub fn push(&mut self, item: T) -> Result<Option<T>, T>
        ensures overwrites { IfOk result
            (λ old. old ≡ overwritten self.old.limit self.old.contents) }
        ensures ok { OnOk result
            (self.new.contents ≡ keep_last self.old.limit (self.old.contents ++ item ∷ [])) }
        ensures err { IfErr result (λ back. (back ≡ item) × (self.new ≡ self.old)) }
        ensures limit { self.new.limit ≡ self.old.limit }
        ensures succeeds { IsSome self.old.limit → IsOk result }
        ensures added { OnOk result (self.new.added ≡ self.old.added + 1) }
        ensures removed { IfOk result
            (λ old. self.new.removed ≡ self.old.removed + length (option_to_list old)) }
    {
        // For the proof: the contents are within the limit.
        let _ = self.ring.len();
        let overwritten = self.ring.push(item)?;
        // For the proof: and so they are after the push.
        let _ = self.ring.len();
        self.counted.slide(&overwritten, &item);
        Ok(overwritten)
    }

    /// Takes out the oldest item. Does nothing to an empty window.
    pub fn dequeue(&mut self) -> Option<T>
        ensures value { result ≡ slice_get self.old.contents 0 }
        ensures rest { self.new.contents ≡ drop 1 self.old.contents }
        ensures limit { self.new.limit ≡ self.old.limit }
        ensures added { self.new.added ≡ self.old.added }
        ensures removed { self.new.removed ≡ self.old.removed + length (option_to_list result) }
    {
        // For the proof: the contents are within the limit.
        let _ = self.ring.len();
        let oldest = self.ring.dequeue();
        self.counted.remove(&oldest);
        oldest
    }

    /// Drops all items.
    pub fn clear(&mut self)
        ensures contents { self.new.contents ≡ [] }
        ensures limit { self.new.limit ≡ self.old.limit }
        ensures added { self.new.added ≡ self.old.added }
        ensures removed { self.new.removed ≡ self.old.removed }
    {
        self.ring.clear();
        self.counted.clear();
    }

    /// Returns the tally of the items.
    pub fn tally(&self) -> &S
        ensures { S.tells result.now self.now.contents }
    {
        self.counted.tally()
    }

    /// Returns how many items the window holds.
    pub fn len(&self) -> usize
        ensures value { result ≡ length self.now.contents }
        ensures within { IsWithin self.now.contents self.now.limit }
    {
        self.ring.len()
    }

    /// Returns whether the window holds no item.
    pub fn is_empty(&self) -> bool
        ensures { IsTrue result ↔ (self.now.contents ≡ []) }
    {
        self.ring.is_empty()
    }

    /// Returns the ring, which holds the items.
    pub fn ring(&self) -> &R
        ensures contents { R.contents result.now ≡ self.now.contents }
        ensures limit { R.limit result.now ≡ self.now.limit }
    {
        &self.ring
    }

    /// Returns the ring without its window.
    pub fn into_ring(self) -> R
        ensures contents { R.contents result ≡ self.contents }
        ensures limit { R.limit result ≡ self.limit }
    {
        self.ring
    }
}
