//! A window over a ring, with what its items combine to.

ghost use Rattle.std.specs.Prelude.{◌≡◌};
ghost use Rattle.window.specs.Laws.{combined as combined_of};

use crate::keeps_fold::KeepsFold;
use crate::monoid::Monoid;
use crate::two_stacks::WindowFolded;
use ringbuffer::RingBuffer;

/// An item in the ring of a `WindowFold`, and what the window keeps with it.
#[derive(Drop)]
pub struct Kept<M> {
    item: M,
    // What the items after it, up to the last that was folded with it, combine to.
    after: M,
}

impl<M: Monoid> Kept<M> {
    /// Returns `item` as one that no window has folded.
    pub fn new(item: M) -> Self
        ensures { result.item ≡ item }
    {
        Kept {
            item,
            after: M::neutral(),
        }
    }

    /// Returns the item.
    pub fn item(&self) -> &M
        ensures { result.now ≡ self.now.item }
    {
        &self.item
    }
}

impl<M: Monoid> KeepsFold<M> for Kept<M> {
    ghost use Rattle.window.specs.Folds.{CombineTo};

    ghost item_of = { λ k. k.item };

    ghost after_of = { λ k. k.after };

    ghost folds_to = { CombineTo M.valid M.neutral M.op };

    fn new(item: M) -> Self {
        Kept::new(item)
    }

    fn item(&self) -> &M {
        &self.item
    }

    fn after(&self) -> &M {
        &self.after
    }

    fn set_after(&mut self, after: M) {
        self.after = after;
    }

    fn into_item(self) -> M {
        self.item
    }

    fn release(self, after: &mut M) -> M {
        *after = self.after;
        self.item
    }

    fn neutral() -> M {
        M::neutral()
    }

    fn combine(earlier: &M, later: &M) -> M {
        earlier.combine(later)
    }
}

/// A ring of items, and what they combine to, which is kept: to read it takes one call of `combine`, and a push takes two on
/// average.
///
/// A contract sees a window as its items and the limit of its ring, the number of calls of `combine` and that of the items
/// which have yet to be folded with those after them. The two numbers together rise by 2 at a push, by 1 at a push that is
/// refused, and at no other call. A push onto a full window, and a `dequeue`, folds all items where none is folded, so the
/// worst call takes as many calls of `combine` as there are items.
pub type WindowFold<M, R> = WindowFolded<M, Kept<M>, R>;

impl<M: Monoid, R: RingBuffer<Kept<M>>> WindowFolded<M, Kept<M>, R> {
    /// Returns what the items combine to.
    pub fn fold(&self) -> M
        ensures { result ≡ combined_of M.neutral M.op self.now.contents }
    {
        self.kept_fold()
    }
}
