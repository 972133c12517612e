//! Blocks and sources of more items than a small bound would let through.

use super::{assert_equal, assert_numbers};
use ring_test_support::numbered::{Numbered, block};
use ringbuffer::{GrowableAllocRingBuffer, RingBuffer};
use std::alloc::{AllocError, Global};

/// How many items stand, and how many come by a slice and by a source.
const ROWS: &[(usize, usize)] = &[
    (0, 70_001),
    (1001, 2000),
    (70_000, 16),
    (70_000, 2000),
    (70_000, 70_001),
    (70_001, 70_000),
];

/// Returns a growable ring of the items with the numbers from 0 on.
fn growable<T: Numbered>(
    alloc: Global,
    held: usize,
) -> Result<GrowableAllocRingBuffer<T>, AllocError> {
    let mut ring = GrowableAllocRingBuffer::new(alloc);
    for number in 0..held {
        if ring.push(T::numbered(number)).is_err() {
            return Err(AllocError);
        }
    }
    Ok(ring)
}

#[test]
fn a_growable_ring_takes_many_items(rt: HostRuntime) -> Result<(), AllocError> {
    for (held, count) in ROWS {
        let all = held.saturating_add(*count);
        let items = block::<u64>(rt.alloc(), *held, *count)?;
        let mut by_slice = growable(rt.alloc(), *held)?;
        by_slice.extend_from_slice(items.as_slice())?;
        assert_numbers(&rt, &by_slice, 0, all);
        let mut by_source = growable(rt.alloc(), *held)?;
        by_source.extend(items.iter().copied())?;
        assert_numbers(&rt, &by_source, 0, all);
        assert_equal(&rt, by_slice.to_vec_copied(rt.alloc())?.len(), all);
        assert_equal(&rt, by_slice.to_vec(rt.alloc())?.len(), all);
    }
    Ok(())
}

// Such a source promises its first part alone.
#[test]
fn a_source_may_give_more_than_it_promises(rt: HostRuntime) -> Result<(), AllocError> {
    for (held, promised, more) in [
        (0, 16, 300),
        (15, 20, 1),
        (16, 100, 70_000),
        (70_000, 16, 17),
    ] {
        let first = block::<u64>(rt.alloc(), held, promised)?;
        let second = block::<u64>(rt.alloc(), held.saturating_add(promised), more)?;
        let others = second.iter().filter(|_| true);
        let mut ring = growable(rt.alloc(), held)?;
        ring.extend(first.iter().chain(others).copied())?;
        let all = held.saturating_add(promised).saturating_add(more);
        assert_numbers(&rt, &ring, 0, all);
    }
    Ok(())
}
