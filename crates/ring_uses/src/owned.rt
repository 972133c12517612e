//! A loop that owns its ring, which costs fewer instructions than one that borrows it.

ghost use Rattle.std.specs.Prelude.{◌≡◌, ◌++◌, Some};
ghost use Rattle.ringbuffer.specs.Contents.{keep_last};

use ringbuffer::{AllocRingBuffer, RingBuffer};

/// Pushes numbers in turn, and returns the ring.
pub fn push_each(mut ring: AllocRingBuffer<u64>, numbers: &[u64]) -> AllocRingBuffer<u64>
    ensures contents { result.items ≡ keep_last (Some ring.capacity) (ring.items ++ numbers.now) }
    ensures capacity { result.capacity ≡ ring.capacity }
{
    // For the proof: the contents are within the limit.
    let _ = ring.len();
    for number in numbers {
        let _ = ring.push(*number);
    }
    ring
}
