//! Walks over the items of rings of a fixed capacity by stretches of slots that lie side by side: up to the last slot,
//! and on from the first. No place is counted round in a loop here.
ghost use Rattle.std.specs.Prelude.{◌≡◌, ◌≤◌, List, fold, length};
ghost use Rattle.std.specs.Cmp.Lexicographic.{pointwise, slice_partial_cmp};
ghost use Rattle.std.specs.Hash as fed;
ghost use Rattle.std.specs.List.{common_prefix_len, flat_map, list_any};
ghost use Rattle.ring_slots.specs.Slots.{HoldsStretch, IsFullStretch};

use crate::few::FEW_COMPARED;
use crate::fixed::FixedRing;
use ring_slots::RingSlots;
use std::cmp::Ordering;
use std::hash::{Hash, Hasher};

impl<T: Drop, S: RingSlots<T>> FixedRing<T, S> {
    /// Returns how many items in front of two rings are equal, place by place.
    pub(crate) fn common_prefix_len(&self, other: &Self) -> usize
    where
        T: PartialEq,
        ensures { result ≡ common_prefix_len T.eq self.now.items other.now.items }
    {
        let len = self.span.len.min(other.span.len);
        if len >= FEW_COMPARED {
            return self.prefix_by_stretch(other);
        }
        for k in 0..len {
            let same = *self.at(k) == *other.at(k);
            if !same {
                return k;
            }
        }
        len
    }

    /// Counts the pairs in front that are equal, stretch by stretch. Each ends where one of the rings goes on at its first slot, or
    /// where the pairs end, so there are three at most. Out of line, so that few items take no step for it.
    #[inline(never)]
    fn prefix_by_stretch(&self, other: &Self) -> usize
    where
        T: PartialEq,
        ensures { result ≡ common_prefix_len T.eq self.now.items other.now.items }
    {
        let len = self.span.len.min(other.span.len);
        let mut equal = 0;
        while equal < len {
            let place = self.slots.place(self.span.start, equal);
            let other_place = other.slots.place(other.span.start, equal);
            let room = self.slots.size() - place;
            let count = room.min(other.slots.size() - other_place).min(len - equal);
            let more = Self::stretch_prefix(&self.slots, place, &other.slots, other_place, count);
            equal += more;
            if more < count {
                return equal;
            }
        }
        len
    }

    /// Returns how many items in front of slots side by side equal those of others, place by place.
    #[inline]
    fn stretch_prefix(slots: &S, from: usize, others: &S, other_from: usize, len: usize) -> usize
    where
        T: PartialEq,
        requires full { IsFullStretch (S.seen slots.now).slots from len }
        requires others_full { IsFullStretch (S.seen others.now).slots other_from len }
        ensures within { result ≤ len }
        ensures value { (xs ys : List T) → HoldsStretch (S.seen slots.now).slots from len xs
            → HoldsStretch (S.seen others.now).slots other_from len ys
            → result ≡ common_prefix_len T.eq xs ys }
    {
        // For the proof: the numbers of slots fit a word.
        let _ = (slots.size(), others.size());
        // Two pairs a turn, since the count of them costs a step a turn.
        for turn in 0..len / 2 {
            let k = 2 * turn;
            let same = *slots.get(from + k) == *others.get(other_from + k);
            if !same {
                return k;
            }
            let next = k + 1;
            let next_same = *slots.get(from + next) == *others.get(other_from + next);
            if !next_same {
                return next;
            }
        }
        if len % 2 == 1 {
            let last = len - 1;
            let last_same = *slots.get(from + last) == *others.get(other_from + last);
            if !last_same {
                return last;
            }
        }
        len
    }

    /// Returns how the items of two rings compare, where they do: as those at the first place where they differ, or as the
    /// numbers of items.
    pub(crate) fn partial_cmp_items(&self, other: &Self) -> Option<Ordering>
    where
        T: PartialOrd,
        ensures { result ≡ slice_partial_cmp T.partial_cmp self.now.items other.now.items }
    {
        let k = self.common_prefix_len(other);
        if k < self.span.len.min(other.span.len) {
            return self.at(k).partial_cmp(other.at(k));
        }
        Some(self.span.len.cmp(&other.span.len))
    }

    /// Returns whether an item equals `x`. Out of line, so that few items take no step for it.
    #[inline(never)]
    pub(crate) fn holds_by_stretch(&self, x: &T) -> bool
    where
        T: PartialEq,
        ensures { result ≡ list_any (λ y. T.eq y x.now) self.now.items }
    {
        let first = self.span.len.min(self.slots.size() - self.span.start);
        Self::stretch_holds(&self.slots, self.span.start, first, x)
            || Self::stretch_holds(&self.slots, 0, self.span.len - first, x)
    }

    /// Returns whether an item of slots side by side equals `x`.
    #[inline]
    fn stretch_holds(slots: &S, from: usize, len: usize, x: &T) -> bool
    where
        T: PartialEq,
        requires { IsFullStretch (S.seen slots.now).slots from len }
        ensures { (ys : List T) → HoldsStretch (S.seen slots.now).slots from len ys
            → result ≡ list_any (λ y. T.eq y x.now) ys }
    {
        // For the proof: the number of slots fits a word.
        let _ = slots.size();
        for k in 0..len {
            if *slots.get(from + k) == *x {
                return true;
            }
        }
        false
    }

    /// Returns whether the items equal those of a slice of as many, place by place.
    pub(crate) fn equals_by_stretch(&self, items: &[T]) -> bool
    where
        T: PartialEq,
        requires { length self.now.items ≡ length items.now }
        ensures { result ≡ pointwise T.eq self.now.items items.now }
    {
        let first = self.span.len.min(self.slots.size() - self.span.start);
        let (before, after) = items.split_at(first);
        Self::stretch_equals(&self.slots, self.span.start, before)
            && Self::stretch_equals(&self.slots, 0, after)
    }

    /// Returns whether the items of slots side by side equal those of a slice, place by place.
    #[inline]
    fn stretch_equals(slots: &S, from: usize, items: &[T]) -> bool
    where
        T: PartialEq,
        requires { IsFullStretch (S.seen slots.now).slots from (length items.now) }
        ensures { (xs : List T) → HoldsStretch (S.seen slots.now).slots from (length items.now) xs
            → result ≡ pointwise T.eq xs items.now }
    {
        // For the proof: the number of slots fits a word.
        let _ = slots.size();
        for k in 0..items.len() {
            let same = *slots.get(from + k) == items[k];
            if !same {
                return false;
            }
        }
        true
    }

    /// Feeds the number of items to a hasher, and then each item.
    pub(crate) fn hash_by_stretch<H: Hasher>(&self, state: &mut H)
    where
        T: Hash,
        ensures { state.new ≡ fold H.write state.old (fed.slice T.hash_input self.now.items) }
    {
        let len = self.span.len;
        let first = len.min(self.slots.size() - self.span.start);
        state.write_usize(len);
        Self::hash_stretch(&self.slots, self.span.start, first, state);
        Self::hash_stretch(&self.slots, 0, len - first, state);
    }

    /// Feeds each item of slots side by side to a hasher.
    #[inline]
    fn hash_stretch<H: Hasher>(slots: &S, from: usize, len: usize, state: &mut H)
    where
        T: Hash,
        requires { IsFullStretch (S.seen slots.now).slots from len }
        ensures { (xs : List T) → HoldsStretch (S.seen slots.now).slots from len xs
            → state.new ≡ fold H.write state.old (flat_map T.hash_input xs) }
    {
        // For the proof: the number of slots fits a word.
        let _ = slots.size();
        for k in 0..len {
            slots.get(from + k).hash(state);
        }
    }
}
