//! Places counted round a row of slots.
ghost use Rattle.std.specs.Prelude.{◌≡◌, ◌+◌, ◌%◌, ◌^◌, ◌<◌, ◌≤◌, IsTrue};
ghost use Rattle.std.specs.Int.{IsPowerOfTwo};

/// Returns the place `k` after `start`, counted round `size` places. No sum wraps, however large the size.
#[inline]
pub(crate) fn wrapped(start: usize, k: usize, size: usize) -> usize
    requires start { start < size }
    requires count { k ≤ size }
    ensures { result ≡ (start + k) % size }
{
    if is_power_of_two(size) {
        return masked(start, k, size - 1);
    }
    // If twice the size fits in a word, so does the sum. The compiler removes this test where the size is a constant.
    if size <= usize::MAX / 2 {
        let sum = start + k;
        return if sum < size { sum } else { sum - size };
    }
    let room = size - start;
    if k < room { start + k } else { k - room }
}

/// Returns what `wrapped` does, without a branch: where the size is no power of two, as the lesser of two numbers.
#[inline]
pub(crate) fn wrapped_branchless(start: usize, k: usize, size: usize) -> usize
    requires start { start < size }
    requires count { k ≤ size }
    ensures { result ≡ (start + k) % size }
{
    if is_power_of_two(size) || size > usize::MAX / 2 {
        return wrapped(start, k, size);
    }
    let sum = start + k;
    // Below the size the difference wraps to a larger number.
    sum.min(sum.wrapping_sub(size))
}

/// Returns the place after `len` items that begin at `start`, counted round `size` places. At `len == size` this is
/// `start`, so no arithmetic is needed.
#[inline]
pub(crate) fn wrapped_after(start: usize, len: usize, size: usize) -> usize
    requires start { start < size }
    requires len { len ≤ size }
    ensures { result ≡ (start + len) % size }
{
    if len == size {
        start
    } else {
        wrapped(start, len, size)
    }
}

/// Returns the place after a place, counted round `size` places.
#[inline]
pub(crate) fn wrapped_next(place: usize, size: usize) -> usize
    requires { place < size }
    ensures { result ≡ (place + 1) % size }
{
    if is_power_of_two(size) {
        return masked(place, 1, size - 1);
    }
    if place < size - 1 { place + 1 } else { 0 }
}

/// Returns the place `k` after `start`, counted round `mask + 1` places, whose number is a power of two.
#[inline]
pub(crate) fn masked(start: usize, k: usize, mask: usize) -> usize
    requires size { IsPowerOfTwo (mask + 1) }
    requires word { mask + 1 < 2 ^ 64 }
    requires start { start ≤ mask }
    requires count { k ≤ mask + 1 }
    ensures { result ≡ (start + k) % (mask + 1) }
{
    (start + k) & mask
}

/// Returns whether places are found by a mask. The compiler removes this test where the size is a constant. The contract
/// covers `true` only, since a wrong `false` would merely be slower. std's test counts bits, and no lemma of std's leads
/// from that count to `IsPowerOfTwo`.
#[inline]
fn is_power_of_two(size: usize) -> bool
    ensures { IsTrue result → IsPowerOfTwo size }
{
    size <= 1 << (usize::BITS - 1) && size.next_power_of_two() == size
}
