//! The indexes of a range.

ghost use Rattle.std.specs.Prelude.{◌≡◌, ◌-◌, ◌<◌, max, min};
ghost use Rattle.std.specs.Range.Bound.{end_index, start_index};

use std::ops::{Bound, Range, RangeBounds};

/// Returns the first index of a range, or `len` if that is less.
pub(crate) fn start_within<X: RangeBounds<usize>>(range: &X, len: usize) -> usize
    requires { X.has_bounds range.now }
    ensures { result ≡ min (start_index (X.start_bound range.now)) len }
{
    match range.start_bound() {
        Bound::Included(start) => len.min(*start),
        Bound::Excluded(start) => len.min(start.saturating_add(1)),
        Bound::Unbounded => 0,
    }
}

/// Returns the index after the last of a range, or `len` if that is less.
pub(crate) fn end_within<X: RangeBounds<usize>>(range: &X, len: usize) -> usize
    requires { X.has_bounds range.now }
    ensures { result ≡ min (end_index (X.end_bound range.now) len) len }
{
    match range.end_bound() {
        Bound::Included(end) => len.min(end.saturating_add(1)),
        Bound::Excluded(end) => len.min(*end),
        Bound::Unbounded => len,
    }
}

/// Returns the indexes of a range that are below `len`. A bound past `len` is cut to it, and a range that ends before it
/// starts has no indexes.
pub fn range_within<X: RangeBounds<usize>>(range: &X, len: usize) -> Range<usize>
    requires { X.has_bounds range.now }
    ensures start { result.start ≡ min (start_index (X.start_bound range.now)) len }
    ensures end { result.end ≡ max result.start (min (end_index (X.end_bound range.now) len) len) }
{
    let start = start_within(range, len);
    start..end_within(range, len).max(start)
}
