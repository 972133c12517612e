//! The monotonic queue of a window that knows its least: candidates, linked in the slots of the window's ring.

ghost use Rattle.std.specs.Prelude.{◌≡◌, ℕ, ◌+◌, ◌*◌, ◌-◌, ◌<◌, ◌≤◌, [], ◌∷◌, ◌++◌, List, Some, drop, length, slice_get, slice_set};
ghost use Rattle.std.specs.Option.{option_map};
ghost use Rattle.std.specs.Ordering.{is_gt};
ghost use Rattle.window.specs.declared.monotonic_queue.Candidate.{Candidate};
ghost use Rattle.window.specs.MonotonicQueue.{HeldBehind, HoldsMonotonicQueue, IsRanked, Stops, item_on, items_on};

use crate::counted::is_above;
use crate::ghost_count::GhostCount;
use crate::order::Order;
use ringbuffer::RingBuffer;
use std::marker::PhantomData;

/// An item in the ring of a window that knows its least, and what the window keeps with it.
#[derive(Drop)]
pub struct Candidate<T> {
    pub(crate) item: T,
    behind: usize,
    ahead: usize,
}

impl<T> Candidate<T> {
    /// Returns `item` as one that no window has ranked.
    pub fn new(item: T) -> Self
        ensures { result.item ≡ item }
    {
        unranked(item)
    }

    /// Returns the item.
    pub fn item(&self) -> &T
        ensures { result.now ≡ self.now.item }
    {
        &self.item
    }
}

/// Returns `item` as one that no window has ranked, with the links of one that comes right after another.
#[inline]
pub(crate) fn unranked<T>(item: T) -> Candidate<T>
    ensures { result ≡ record { item = item; behind = 1; ahead = 0 } }
{
    Candidate {
        item,
        behind: 1,
        ahead: 0,
    }
}

/// How many items were pushed onto a window, and how often it compared two by this order.
#[derive(Drop)]
pub(crate) struct PushCounts<O> {
    pub(crate) pushed: GhostCount,
    pub(crate) compared: GhostCount,
    order: PhantomData<O>,
}

/// Ranks all items of `ring`, from the newest on. Returns the first place of the queue, and the counts.
pub(crate) fn rank_all<T: Drop, O: Order<T>, R: RingBuffer<Candidate<T>>>(
    ring: &mut R,
) -> (usize, PushCounts<O>)
    ensures holds { HoldsMonotonicQueue O.cmp (R.contents ring.new) result.0 result.1.compared
        (2 * result.1.pushed) }
    ensures pushed { result.1.pushed ≡ length (R.contents ring.old) }
    ensures items { items_on (R.contents ring.new) ≡ items_on (R.contents ring.old) }
    ensures limit { R.limit ring.new ≡ R.limit ring.old }
{
    let mut counts = PushCounts {
        pushed: GhostCount::zero(),
        compared: GhostCount::zero(),
        order: PhantomData,
    };
    let mut first = 0;
    let mut at = ring.len();
    while at > 0 {
        at -= 1;
        first = rank_before(ring, at, first, &mut counts);
    }
    (first, counts)
}

/// Ranks the item at the place `at`, which comes before those that are ranked. The first of these is `first` places ahead, and
/// there is none at 0. Returns the first place with it, counted from 1.
fn rank_before<T: Drop, O: Order<T>, R: RingBuffer<Candidate<T>>>(
    ring: &mut R,
    at: usize,
    first: usize,
    counts: &mut PushCounts<O>,
) -> usize
    requires at { at < length (R.contents ring.old) }
    requires ranked { IsRanked O.cmp (drop (at + 1) (R.contents ring.old)) first
        counts.old.compared (2 * counts.old.pushed) }
    ensures ranked { IsRanked O.cmp (drop at (R.contents ring.new)) result
        counts.new.compared (2 * counts.new.pushed) }
    ensures pushed { counts.new.pushed ≡ counts.old.pushed + 1 }
    ensures items { items_on (R.contents ring.new) ≡ items_on (R.contents ring.old) }
    ensures limit { R.limit ring.new ≡ R.limit ring.old }
{
    // For the proof: the contents are within the limit.
    let _ = ring.len();
    counts.pushed.add_one();
    if first == 0 {
        set_links(ring, at, 1, first);
        return 1;
    }
    if is_above_at(ring, at, at + first, counts) {
        set_behind(ring, at + first, first + 1);
        return first + 1;
    }
    set_links(ring, at, 1, first);
    1
}

/// Removes `oldest`, if an item left, from the queue. Returns its item.
#[inline]
pub(crate) fn forget<T: Drop, O: Order<T>>(
    first: &mut usize,
    oldest: Option<Candidate<T>>,
    counts: &PushCounts<O>,
) -> Option<T>
    requires { (rs : List (Candidate T)) × (compared most : ℕ) × HeldBehind O.cmp oldest rs first.old compared most }
    ensures value { result ≡ option_map item_on oldest }
    ensures holds { (rs : List (Candidate T)) (compared most : ℕ)
        → HeldBehind O.cmp oldest rs first.old compared most
        → HoldsMonotonicQueue O.cmp rs first.new compared most }
{
    let candidate = oldest?;
    *first = first_after(*first, candidate.ahead);
    Some(candidate.item)
}

/// Returns the first place without the oldest item, from which the next candidate is `ahead`.
#[inline]
fn first_after(first: usize, ahead: usize) -> usize
    ensures one { first ≡ 1 → result ≡ ahead }
    ensures more { 1 < first → result ≡ first - 1 }
{
    if first > 1 { first - 1 } else { ahead }
}

/// Ranks the newest item of `ring`, whose links are those of an item that none has ranked. Inlined with the push, which is too large
/// to be by itself.
#[inline(always)]
pub(crate) fn rank_newest<T: Drop, O: Order<T>, R: RingBuffer<Candidate<T>>>(
    ring: &mut R,
    first: &mut usize,
    counts: &mut PushCounts<O>,
)
    requires { (rs : List (Candidate T)) × (r : Candidate T) × (R.contents ring.old ≡ rs ++ r ∷ [])
        × HoldsMonotonicQueue O.cmp rs first.old counts.old.compared (2 * counts.old.pushed)
        × (r.behind ≡ 1) × (r.ahead ≡ 0) }
    ensures holds { HoldsMonotonicQueue O.cmp (R.contents ring.new) first.new counts.new.compared
        (2 * counts.new.pushed) }
    ensures pushed { counts.new.pushed ≡ counts.old.pushed + 1 }
    ensures rises { counts.old.compared ≤ counts.new.compared }
    ensures items { items_on (R.contents ring.new) ≡ items_on (R.contents ring.old) }
    ensures limit { R.limit ring.new ≡ R.limit ring.old }
{
    let len = ring.len();
    let left = find_kept(ring, *first, counts);
    counts.pushed.add_one();
    let far = len - left;
    if left == 0 {
        *first = len;
        set_behind_newest(ring, len - 1, far);
    } else {
        // First the one at which the walk stopped, whose place is still at hand.
        set_ahead(ring, left - 1, far);
        set_behind_newest(ring, len - 1, far);
    }
}

/// Returns how many items go up to the last candidate that isn't above the newest, and with it; 0 where there is none. Only the
/// contract reads `first`.
#[inline]
fn find_kept<T: Drop, O: Order<T>, R: RingBuffer<Candidate<T>>>(
    ring: &R,
    first: usize,
    counts: &mut PushCounts<O>,
) -> usize
    requires { (rs : List (Candidate T)) × (r : Candidate T) × (R.contents ring.now ≡ rs ++ r ∷ [])
        × HoldsMonotonicQueue O.cmp rs first counts.old.compared (2 * counts.old.pushed) }
    ensures stops { Stops O.cmp (R.contents ring.now) first result counts.new.compared
        (2 * counts.new.pushed + 1) }
    ensures pushed { counts.new.pushed ≡ counts.old.pushed }
    ensures rises { counts.old.compared ≤ counts.new.compared }
{
    let len = ring.len();
    let newest = ring.get(len - 1).unwrap();
    let mut left = len - 1;
    while left > 0 {
        let candidate = ring.get(left - 1).unwrap();
        if !is_above::<T, O>(&mut counts.compared, &candidate.item, &newest.item) {
            return left;
        }
        // The queue's first says no less than its place, as no other does.
        if candidate.behind >= left {
            return 0;
        }
        left -= candidate.behind;
    }
    left
}

/// Writes how far the item at the place `at` is behind the candidate before it, and the next one ahead.
#[inline]
fn set_links<T: Drop, R: RingBuffer<Candidate<T>>>(
    ring: &mut R,
    at: usize,
    behind: usize,
    ahead: usize,
)
    requires { at < length (R.contents ring.old) }
    ensures contents { (x : Candidate T) → slice_get (R.contents ring.old) at ≡ Some x
        → R.contents ring.new ≡ slice_set (R.contents ring.old) at (record x { behind = behind; ahead = ahead }) }
    ensures limit { R.limit ring.new ≡ R.limit ring.old }
{
    if let Some(candidate) = ring.get_mut(at) {
        candidate.behind = behind;
        candidate.ahead = ahead;
    }
}

/// Writes how far the item at the place `at` is behind the candidate before it.
fn set_behind<T: Drop, R: RingBuffer<Candidate<T>>>(ring: &mut R, at: usize, behind: usize)
    requires { at < length (R.contents ring.old) }
    ensures contents { (x : Candidate T) → slice_get (R.contents ring.old) at ≡ Some x
        → R.contents ring.new ≡ slice_set (R.contents ring.old) at (record x { behind = behind }) }
    ensures limit { R.limit ring.new ≡ R.limit ring.old }
{
    if let Some(candidate) = ring.get_mut(at) {
        candidate.behind = behind;
    }
}

/// Writes how far the item at the place `at`, which says 1 so far, is behind the candidate before it.
#[inline]
fn set_behind_newest<T: Drop, R: RingBuffer<Candidate<T>>>(ring: &mut R, at: usize, behind: usize)
    requires { at < length (R.contents ring.old) }
    ensures contents { (x : Candidate T) → slice_get (R.contents ring.old) at ≡ Some x → x.behind ≡ 1
        → R.contents ring.new ≡ slice_set (R.contents ring.old) at (record x { behind = behind }) }
    ensures limit { R.limit ring.new ≡ R.limit ring.old }
{
    if behind != 1 {
        set_behind(ring, at, behind);
    }
}

/// Writes how far ahead of the item at the place `at` the next candidate is.
#[inline]
fn set_ahead<T: Drop, R: RingBuffer<Candidate<T>>>(ring: &mut R, at: usize, ahead: usize)
    requires { at < length (R.contents ring.old) }
    ensures contents { (x : Candidate T) → slice_get (R.contents ring.old) at ≡ Some x
        → R.contents ring.new ≡ slice_set (R.contents ring.old) at (record x { ahead = ahead }) }
    ensures limit { R.limit ring.new ≡ R.limit ring.old }
{
    if let Some(candidate) = ring.get_mut(at) {
        candidate.ahead = ahead;
    }
}

/// Returns whether the item at the place `at` is above that at the place `other`, and counts the comparison.
#[inline]
fn is_above_at<T: Drop, O: Order<T>, R: RingBuffer<Candidate<T>>>(
    ring: &R,
    at: usize,
    other: usize,
    counts: &mut PushCounts<O>,
) -> bool
    requires { (at < length (R.contents ring.now)) × (other < length (R.contents ring.now)) }
    ensures value { (x y : Candidate T) → slice_get (R.contents ring.now) at ≡ Some x
        → slice_get (R.contents ring.now) other ≡ Some y → result ≡ is_gt (O.cmp x.item y.item) }
    ensures compared { counts.new.compared ≡ counts.old.compared + 1 }
    ensures pushed { counts.new.pushed ≡ counts.old.pushed }
{
    let x = ring.get(at).unwrap();
    let y = ring.get(other).unwrap();
    is_above::<T, O>(&mut counts.compared, &x.item, &y.item)
}
