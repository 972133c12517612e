//! Searches in a ring whose items are in order.

ghost use Rattle.std.specs.Prelude.{◌≡◌, ◌<◌, ◌≤◌, Bool, IfOk, false, length, slice_get, Some, true};
ghost use Rattle.std.specs.Fn.{ComputesKey};
ghost use Rattle.std.specs.List.{AllWithin, HoldsAt};
ghost use Rattle.std.specs.List.Sorted.{IsBinarySearchResult, IsNonDecreasingBy, IsPartitionPoint, IsPartitionedBy, IsSearchInRange};
ghost use Rattle.std.specs.Ordering.{is_lt, ordering_index};

use crate::ring::RingBuffer;
use std::cmp::Ordering;

/// Returns the item at an index below the length.
fn item_at<T: Drop, R: RingBuffer<T>>(ring: &R, index: usize) -> &T
    requires { index < length (R.contents ring.now) }
    ensures { slice_get (R.contents ring.now) index ≡ Some result.now }
{
    ring.get(index).unwrap()
}

/// Returns the index of the first item for which `is_before` returns `false`, where it returns `true` for those before
/// some index and `false` for all others. It calls `is_before` at most as often as the length has binary digits. This call
/// is the library's own: the Rust crate has none like it.
pub fn partition_point<T: Drop, R: RingBuffer<T>, P: FnMut(&T) -> bool>(
    ring: &R,
    mut is_before: P,
) -> usize
    requires { P.IsAlwaysCallable is_before }
    ensures bound { result ≤ length (R.contents ring.now) }
    ensures partitioned { (p : T → Bool) → ComputesKey P.FnMut p is_before
        → IsPartitionedBy p (R.contents ring.now)
        → IsPartitionPoint (λ y. p y ≡ true) (λ y. p y ≡ false) (R.contents ring.now) result }
{
    let (mut low, mut high) = (0, ring.len());
    while low < high {
        let middle = low + (high - low) / 2;
        if is_before(item_at(ring, middle)) {
            low = middle + 1;
        } else {
            high = middle;
        }
    }
    low
}

/// Searches a ring whose items rise for one that compares equal to `x`, and returns its index: the first one's, where
/// several do. It compares items at most once more than the length has binary digits. This call is the library's own: the
/// Rust crate has none like it.
///
/// # Errors
///
/// The index at which `x` would have to be inserted for the items still to rise, where no item compares equal.
pub fn binary_search<T: Ord + Drop, R: RingBuffer<T>>(ring: &R, x: &T) -> Result<usize, usize>
    ensures bound { IsSearchInRange result (length (R.contents ring.now)) }
    ensures ok { IfOk result (HoldsAt (λ y. T.cmp y x.now ≡ Ordering.Equal) (R.contents ring.now)) }
    ensures position { IsBinarySearchResult (λ y. T.cmp y x.now) (R.contents ring.now) result }
    ensures first { IfOk result (λ i. IsNonDecreasingBy (λ y. ordering_index (T.cmp y x.now)) (R.contents ring.now)
        → AllWithin (λ y. T.cmp y x.now ≡ Ordering.Less) (R.contents ring.now) 0 i) }
{
    let index = partition_point(
        ring,
        |item: &T| -> bool
            ensures { result ≡ is_lt (T.cmp item.now x.entry.now) }
        { item.cmp(x).is_lt() },
    );
    if index < ring.len() && item_at(ring, index).cmp(x).is_eq() {
        Ok(index)
    } else {
        Err(index)
    }
}
