//! Equality, order and hash of rings of a fixed capacity, which are those of their limits and items.
ghost use Rattle.std.specs.Prelude.{◌&&◌, Some, nat_eq, refl};
ghost use Rattle.std.specs.Cmp.{and_per, both_tied, on_per, on_po, partial_equiv_from_equiv, then_agrees, then_po, unsigned_po, unsigned_ties};
ghost use Rattle.std.specs.Cmp.Lexicographic.{lists_agrees, lists_per, lists_po, lists_ties, pointwise, slice_cmp, slice_partial_cmp};
ghost use Rattle.std.specs.Hash as fed;
ghost use Rattle.std.specs.Hash.{items_Alike, on_Alike, second_alike};
ghost use Rattle.std.specs.Ordering.{nat_cmp, ordering_then, partial_ordering_then};
ghost use Rattle.std.proofs.lemmas.Cmp.{and_equiv, lists_equiv, lists_total, nat_cmp_total, nat_eq_equiv, on_equiv, on_total, then_total};

use crate::fixed::FixedRing;
use crate::two_slices::same_in_slices;
use ring_core::RingBuffer;
use ring_slots::RingSlots;
use std::cmp::Ordering;
use std::hash::{Hash, Hasher};

impl<T: PartialEq + Drop, S: RingSlots<T>> PartialEq for FixedRing<T, S> {
    ghost eq = { λ a b. nat_eq (S.limit a.capacity) (S.limit b.capacity) && pointwise T.eq a.items b.items };

    ghost laws = { and_per
        (on_per (λ ring. S.limit ring.capacity) (partial_equiv_from_equiv nat_eq_equiv))
        (on_per (λ ring. ring.items) (lists_per T.laws)) };

    fn eq(&self, other: &Self) -> bool {
        if self.capacity() != other.capacity() || self.len() != other.len() {
            return false;
        }
        match (self.rows(), other.rows()) {
            (Some(a), Some(b)) => same_in_slices(a, b),
            _ => self.common_prefix_len(other) == self.len(),
        }
    }
}

impl<T: Eq + Drop, S: RingSlots<T>> Eq for FixedRing<T, S> {
    ghost laws = { and_equiv
        (on_equiv (λ ring. S.limit ring.capacity) nat_eq_equiv)
        (on_equiv (λ ring. ring.items) (lists_equiv T.Eq.laws)) };
}

/// The ring of the smaller capacity is the lesser. At equal capacities the first place where the items differ decides,
/// and the number of items where there is none. This reads each item up to there.
impl<T: PartialOrd + Drop, S: RingSlots<T>> PartialOrd for FixedRing<T, S> {
    ghost partial_cmp = { λ a b. partial_ordering_then (Some (nat_cmp (S.limit a.capacity) (S.limit b.capacity)))
        (slice_partial_cmp T.partial_cmp a.items b.items) };

    ghost laws = { then_po
        (on_po (λ ring. S.limit ring.capacity) unsigned_po)
        (on_po (λ ring. ring.items) (lists_po T.PartialOrd.laws)) };

    fn partial_cmp(&self, other: &Self) -> Option<Ordering> {
        match self.capacity().cmp(&other.capacity()) {
            Ordering::Equal => self.partial_cmp_items(other),
            decided => Some(decided),
        }
    }
}

/// As `PartialOrd`.
impl<T: Ord + Drop, S: RingSlots<T>> Ord for FixedRing<T, S> {
    ghost cmp = { λ a b. ordering_then (nat_cmp (S.limit a.capacity) (S.limit b.capacity))
        (slice_cmp T.cmp a.items b.items) };

    ghost total = { then_total
        (on_total (λ ring. S.limit ring.capacity) nat_cmp_total)
        (on_total (λ ring. ring.items) (lists_total T.total)) };

    ghost matches_partial_cmp = { then_agrees (λ _ _. refl)
        (λ a b. lists_agrees T.matches_partial_cmp a.items b.items) };

    ghost matches_eq = { λ a b.
        both_tied _ _ (nat_cmp (S.limit a.capacity) (S.limit b.capacity)) (slice_cmp T.cmp a.items b.items)
        (unsigned_ties (S.limit a.capacity) (S.limit b.capacity)) (lists_ties T.cmp T.matches_eq a.items b.items) };

    fn cmp(&self, other: &Self) -> Ordering {
        match self.capacity().cmp(&other.capacity()) {
            Ordering::Equal => self.partial_cmp_items(other).unwrap(),
            decided => decided,
        }
    }
}

/// Feeds the number of items, and then each item. Rings that differ in their capacity alone are fed alike.
impl<T: Hash + Drop, S: RingSlots<T>> Hash for FixedRing<T, S> {
    ghost hash_input = { λ ring. fed.slice T.hash_input ring.items };

    ghost respects_eq = { (second_alike (λ a b. nat_eq (S.limit a.capacity) (S.limit b.capacity))
        (on_Alike (λ ring. ring.items) (items_Alike (record { fed = T.respects_eq })))).fed };

    fn hash<H: Hasher>(&self, state: &mut H) {
        self.hash_by_stretch(state);
    }
}
