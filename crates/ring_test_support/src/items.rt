//! Items that are pushed onto a ring, and that it holds.

use crate::steps::Outcome;
use ringbuffer::RingBuffer;

/// Pushes the items in order. Tells whether none was refused.
pub fn is_pushed<R: RingBuffer<i64>>(ring: &mut R, items: &[i64]) -> bool {
    for item in items {
        if ring.push(*item).is_err() {
            return false;
        }
    }
    true
}

/// Agrees if the ring holds these items and no other, in order.
pub fn held<R: RingBuffer<i64>>(ring: &R, items: &[i64]) -> Outcome {
    if ring.len() != items.len() {
        return Outcome::Counts(ring.len());
    }
    for (i, item) in items.iter().enumerate() {
        let found = ring.get(i).copied();
        if found != Some(*item) {
            return Outcome::Differs(i, found);
        }
    }
    Outcome::Agrees
}
