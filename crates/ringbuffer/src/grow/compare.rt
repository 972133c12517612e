//! Equality, order and hash of growable rings, which are those of their items.
ghost use Rattle.std.specs.Cmp.Lexicographic.{lists_agrees, lists_per, lists_po, lists_ties, lists_total, pointwise, slice_cmp, slice_partial_cmp};
ghost use Rattle.std.specs.Hash as fed;
ghost use Rattle.std.specs.Hash.{items_Alike};
ghost use Rattle.std.proofs.lemmas.Cmp.{lists_equiv};

use super::GrowableAllocRingBuffer;
use crate::two_slices::same_in_slices;
use std::cmp::Ordering;
use std::hash::{Hash, Hasher};

impl<T: PartialEq> PartialEq for GrowableAllocRingBuffer<T> {
    ghost eq = { pointwise T.eq };

    ghost laws = { lists_per T.laws };

    fn eq(&self, other: &Self) -> bool {
        self.deque.len() == other.deque.len()
            && same_in_slices(self.deque.as_slices(), other.deque.as_slices())
    }
}

impl<T: Eq> Eq for GrowableAllocRingBuffer<T> {
    ghost laws = { lists_equiv T.Eq.laws };
}

impl<T: PartialOrd> PartialOrd for GrowableAllocRingBuffer<T> {
    ghost partial_cmp = { slice_partial_cmp T.partial_cmp };

    ghost laws = { lists_po T.PartialOrd.laws };

    fn partial_cmp(&self, other: &Self) -> Option<Ordering> {
        self.deque.partial_cmp(&other.deque)
    }
}

impl<T: Ord> Ord for GrowableAllocRingBuffer<T> {
    ghost cmp = { slice_cmp T.cmp };

    ghost total = { lists_total T.total };

    ghost matches_partial_cmp = { lists_agrees T.matches_partial_cmp };

    ghost matches_eq = { lists_ties T.cmp T.matches_eq };

    fn cmp(&self, other: &Self) -> Ordering {
        self.deque.cmp(&other.deque)
    }
}

impl<T: Hash> Hash for GrowableAllocRingBuffer<T> {
    ghost hash_input = { fed.slice T.hash_input };

    ghost respects_eq = { (items_Alike (record { fed = T.respects_eq })).fed };

    fn hash<H: Hasher>(&self, state: &mut H) {
        self.deque.hash(state);
    }
}
