//! Positions on a ring, taken modulo its length.
ghost use Rattle.std.specs.Prelude.{◌≡◌, ◌<◌, MatchOption, Some};
ghost use Rattle.ring_core.specs.Contents.{IsInRange, index_at, index_in_range, signed_index_at};

/// Returns the index that `position` names among `len` items, or `None` if there are none.
#[inline]
pub fn index_at(position: usize, len: usize) -> Option<usize>
    ensures value { MatchOption result (len ≡ 0) (λ k. (k < len) × (k ≡ index_at len position)) }
    ensures in_range { position < len → (result ≡ Some position) × (index_at len position ≡ position) }
{
    if position < len {
        return Some(position);
    }
    if len == 0 {
        return None;
    }
    Some(position % len)
}

/// Returns the index that `position` names among `len` items, or `None` if there are none: -1 names the last item.
#[inline]
pub fn signed_index_at(position: isize, len: usize) -> Option<usize>
    ensures value { MatchOption result (len ≡ 0) (λ k. (k < len) × (k ≡ signed_index_at len position)) }
    ensures in_range { IsInRange len position → (result ≡ Some (index_in_range len position))
        × (signed_index_at len position ≡ index_in_range len position) }
{
    if position >= 0 {
        return index_at(position as usize, len);
    }
    let from_last = index_at(-(position + 1) as usize, len)?;
    Some(len - 1 - from_last)
}
