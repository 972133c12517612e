//! A window over a ring, with the fold of its items, in two stacks.

ghost use Rattle.std.specs.Prelude.{◌≡◌, ◌+◌, ◌-◌, ◌<◌, ◌↔◌, [], ◌∷◌, ◌++◌, IfErr, IfOk, IfSome, IsOk, IsSome, IsTrue, OnOk, drop, length, map, slice_get};
ghost use Rattle.ringbuffer.specs.Contents.{IsWithin, keep_last, overwritten};
ghost use Rattle.window.specs.TwoStacks.{HoldsFolds};

use crate::counted::combined;
use crate::ghost_count::GhostCount;
use crate::keeps_fold::KeepsFold;
use ringbuffer::RingBuffer;
use std::marker::{Model, PhantomData};

/// How many of the oldest items are folded among themselves, the fold of these and that of the others, and how often two
/// values were combined.
#[derive(Drop)]
struct Folds<M> {
    folded: usize,
    older: M,
    newer: M,
    calls: GhostCount,
}

/// A ring of items, and their fold, which two stacks keep: beside each of the oldest items stands the fold of those after it
/// in its stack, and of the others, onto which a push puts its item, one fold is kept.
#[derive(Drop)]
pub struct WindowFolded<M: Drop, K: KeepsFold<M>, R: RingBuffer<K>> {
    ring: R,
    folds: Folds<M>,
    kept: PhantomData<K>,
}

impl<M: Drop, K: KeepsFold<M>, R: RingBuffer<K>> Model for WindowFolded<M, K, R> {
    ghost use Rattle.std.specs.Prelude.{◌-◌, length, map};
    ghost use Rattle.window.specs.Views.{FoldedItems};
    ghost use Rattle.window.specs.TwoStacks.{HoldsFolds};

    ghost Value = { FoldedItems M };

    ghost view = { λ w. record { contents = map K.item_of (R.contents w.ring); limit = R.limit w.ring; calls = w.folds.calls; unfolded = length (R.contents w.ring) - w.folds.folded } };

    ghost invariant = { λ w. HoldsFolds K.item_of K.after_of K.folds_to (R.contents w.ring) w.folds.folded w.folds.older w.folds.newer };
}

impl<M: Drop, K: KeepsFold<M>, R: RingBuffer<K>> WindowFolded<M, K, R> {
    /// Returns a window over what `ring` holds.
    pub fn new(mut ring: R) -> Self
        ensures contents { result.contents ≡ map K.item_of (R.contents ring) }
        ensures limit { result.limit ≡ R.limit ring }
        ensures calls { result.calls + result.unfolded ≡ length (R.contents ring) }
    {
        let mut folds = Folds {
            folded: 0,
            older: K::neutral(),
            newer: K::neutral(),
            calls: GhostCount::zero(),
        };
        fold_all(&mut ring, &mut folds);
        WindowFolded {
            ring,
            folds,
            kept: PhantomData,
        }
    }

    /// Puts `item` last. A window at its limit hands back its oldest item, which gave way for it.
    ///
    /// # Errors
    ///
    /// Hands `item` back where the ring was refused memory, which no ring with a limit meets. The items are as they were, and
    /// so is their fold; two values were combined once, and if no item was folded, perhaps once more for each item.
    pub fn push(&mut self, item: M) -> Result<Option<M>, M>
        ensures overwrites { IfOk result
            (λ old. old ≡ overwritten self.old.limit self.old.contents) }
        ensures ok { OnOk result
            (self.new.contents ≡ keep_last self.old.limit (self.old.contents ++ item ∷ [])) }
        ensures err { IfErr result (λ back. (back ≡ item) × (self.new.contents ≡ self.old.contents)) }
        ensures limit { self.new.limit ≡ self.old.limit }
        ensures succeeds { IsSome self.old.limit → IsOk result }
        ensures calls { OnOk result
            (self.new.calls + self.new.unfolded ≡ self.old.calls + self.old.unfolded + 2) }
        ensures calls_refused { IfErr result (λ _. self.new.calls + self.new.unfolded
            ≡ self.old.calls + self.old.unfolded + 1) }
    {
        self.before_push();
        let newer = combined::<M, K>(&mut self.folds.calls, &self.folds.newer, &item);
        match self.ring.push(K::new(item)) {
            // The cases stand apart, so that what leaves is moved once.
            Ok(Some(oldest)) => {
                self.folds.newer = newer;
                Ok(Some(remove_oldest(&mut self.folds, oldest)))
            }
            Ok(None) => {
                self.folds.newer = newer;
                Ok(None)
            }
            Err(kept) => Err(kept.into_item()),
        }
    }

    /// Takes out the oldest item. Does nothing to an empty window.
    pub fn dequeue(&mut self) -> Option<M>
        ensures value { result ≡ slice_get self.old.contents 0 }
        ensures rest { self.new.contents ≡ drop 1 self.old.contents }
        ensures limit { self.new.limit ≡ self.old.limit }
        ensures calls { self.new.calls + self.new.unfolded ≡ self.old.calls + self.old.unfolded }
    {
        self.before_dequeue();
        let oldest = self.ring.dequeue()?;
        Some(remove_oldest(&mut self.folds, oldest))
    }

    /// Drops all items.
    pub fn clear(&mut self)
        ensures contents { self.new.contents ≡ [] }
        ensures limit { self.new.limit ≡ self.old.limit }
        ensures calls { self.new.calls ≡ self.old.calls }
        ensures unfolded { self.new.unfolded ≡ 0 }
    {
        self.ring.clear();
        self.folds.folded = 0;
        self.folds.older = K::neutral();
        self.folds.newer = K::neutral();
    }

    /// Returns the fold of the items.
    pub(crate) fn kept_fold(&self) -> M
        ensures { K.folds_to self.now.contents result }
    {
        K::combine(&self.folds.older, &self.folds.newer)
    }

    /// Returns how many items the window holds.
    pub fn len(&self) -> usize
        ensures value { result ≡ length self.now.contents }
        ensures within { IsWithin self.now.contents self.now.limit }
    {
        self.ring.len()
    }

    /// Returns whether the window holds no item.
    pub fn is_empty(&self) -> bool
        ensures { IsTrue result ↔ (self.now.contents ≡ []) }
    {
        self.ring.is_empty()
    }

    /// Returns the ring, which holds the items.
    pub fn ring(&self) -> &R
        ensures contents { map K.item_of (R.contents result.now) ≡ self.now.contents }
        ensures limit { R.limit result.now ≡ self.now.limit }
    {
        &self.ring
    }

    /// Returns the ring without its window.
    pub fn into_ring(self) -> R
        ensures contents { map K.item_of (R.contents result) ≡ self.contents }
        ensures limit { R.limit result ≡ self.limit }
    {
        self.ring
    }

    /// Folds all items if none is folded and a push is to overwrite the oldest.
    fn before_push(&mut self)
        ensures contents { self.new.contents ≡ self.old.contents }
        ensures limit { self.new.limit ≡ self.old.limit }
        ensures calls { self.new.calls + self.new.unfolded ≡ self.old.calls + self.old.unfolded }
        ensures folded { IfSome self.new.limit
            (λ n. length self.new.contents ≡ n → self.new.unfolded < n) }
    {
        if self.folds.folded == 0 && self.ring.is_full() {
            fold_all(&mut self.ring, &mut self.folds);
        }
    }

    /// Folds all items if none is folded.
    fn before_dequeue(&mut self)
        ensures contents { self.new.contents ≡ self.old.contents }
        ensures limit { self.new.limit ≡ self.old.limit }
        ensures calls { self.new.calls + self.new.unfolded ≡ self.old.calls + self.old.unfolded }
        ensures folded { 0 < length self.new.contents → self.new.unfolded < length self.new.contents }
    {
        if self.folds.folded == 0 {
            fold_all(&mut self.ring, &mut self.folds);
        }
    }
}

/// Folds all items of `ring`, and writes beside each the fold of those after it.
fn fold_all<M: Drop, K: KeepsFold<M>, R: RingBuffer<K>>(ring: &mut R, folds: &mut Folds<M>)
    ensures holds { HoldsFolds K.item_of K.after_of K.folds_to (R.contents ring.new)
        folds.new.folded folds.new.older folds.new.newer }
    ensures items { map K.item_of (R.contents ring.new) ≡ map K.item_of (R.contents ring.old) }
    ensures limit { R.limit ring.new ≡ R.limit ring.old }
    ensures folded { folds.new.folded ≡ length (R.contents ring.new) }
    ensures calls { folds.new.calls ≡ folds.old.calls + length (R.contents ring.old) }
{
    let mut after = K::neutral();
    let mut at = ring.len();
    while at > 0 {
        at -= 1;
        if let Some(kept) = ring.get_mut(at) {
            kept.set_after(after);
            after = combined::<M, K>(&mut folds.calls, kept.item(), kept.after());
        }
    }
    folds.folded = ring.len();
    folds.older = after;
    folds.newer = K::neutral();
}

/// Removes `oldest` from the items that are folded. Returns its item.
#[inline]
fn remove_oldest<M: Drop, K: KeepsFold<M>>(folds: &mut Folds<M>, oldest: K) -> M
    requires { 0 < folds.old.folded }
    ensures value { result ≡ K.item_of oldest }
    ensures folded { folds.new.folded + 1 ≡ folds.old.folded }
    ensures older { folds.new.older ≡ K.after_of oldest }
    ensures newer { folds.new.newer ≡ folds.old.newer }
    ensures calls { folds.new.calls ≡ folds.old.calls }
{
    folds.folded -= 1;
    oldest.release(&mut folds.older)
}
