//! Calls on items of 16 bytes, each in a loop of its own: beside them the calls on words stay the code that they are alone, since no
//! item of the same size shares a function with them.

use crate::case::Case;
use crate::item::Item;
use crate::ring::Measured;
use ringbuffer::{DoubleEndedRingExt, RingBufferExt, binary_search};
use std::alloc::{AllocError, Global};
use std::hash::{DefaultHasher, Hasher};

/// Makes the call of a case on a ring that is empty, and returns what it found, as a number.
pub fn by<R: Measured<[u64; 2]> + Drop>(
    alloc: Global,
    mut ring: R,
    case: Case<'_>,
) -> Result<u64, AllocError> {
    case.fill(&mut ring);
    let items = case.block::<[u64; 2]>(alloc)?;
    let (ring, items, times) = (&mut ring, items.as_slice(), case.times);
    Ok(match case.call {
        "to_vec_copied" => to_vec_copied(alloc, ring, times),
        "clone" => crate::whole::clone(ring, times),
        "copy_into" => copy_into(ring, times),
        "order" => order(ring, times),
        "hash" => hash(ring, times),
        "binary_search" => search(ring, times),
        "map_each" => map_each(ring, times),
        "turn_contiguous" => turn_contiguous(ring, case.count, times),
        "set_capacity" => set_capacity(ring, case.count, times),
        "dequeue_while_in" => dequeue_while_in(ring, items, times),
        "drain_range_in" => drain_range_in(alloc, ring, items, times),
        "split_off_in" => split_off_in(alloc, ring, items, times),
        "take_all_in" => take_all_in(alloc, ring, items, times),
        _ => 0,
    })
}

#[inline(never)]
pub fn to_vec_copied<T: Item, R: Measured<T>>(alloc: Global, ring: &R, times: u32) -> u64 {
    let mut sum = 0u64;
    for _ in 0..times {
        sum = sum.wrapping_add(ring.copies(alloc) as u64);
    }
    sum
}

// Nothing where the ring has no such call.
#[inline(never)]
pub fn copy_into<T: Item, R: Measured<T> + Drop>(ring: &R, times: u32) -> u64 {
    let Ok(mut other) = ring.clone() else {
        return 0;
    };
    let mut sum = 0u64;
    for _ in 0..times {
        sum ^= ring.copy_onto(&mut other);
    }
    sum
}

#[inline(never)]
pub fn order<T: Item, R: Measured<T> + Drop>(ring: &R, times: u32) -> u64 {
    let Ok(mut other) = ring.clone() else {
        return 0;
    };
    let mut sum = 0u64;
    // The newest item changes between two calls, so that none can be left out.
    for number in 0..times {
        if let Some(newest) = other.back_mut() {
            *newest = T::numbered(u64::from(number));
        }
        sum = sum.wrapping_add(u64::from(*ring < other));
    }
    sum
}

#[inline(never)]
pub fn hash<T: Item, R: Measured<T>>(ring: &R, times: u32) -> u64 {
    let mut state = DefaultHasher::new();
    for _ in 0..times {
        ring.hash(&mut state);
    }
    state.finish()
}

#[inline(never)]
pub fn search<T: Item, R: Measured<T>>(ring: &R, times: u32) -> u64 {
    let mut sum = 0u64;
    for number in 0..times {
        let wanted = T::numbered(u64::from(number).wrapping_mul(0x9E37_79B9_7F4A_7C15) >> 54);
        sum = sum.wrapping_add(binary_search(ring, &wanted).unwrap_or(0) as u64);
    }
    sum
}

#[inline(never)]
pub fn map_each<T: Item, R: Measured<T>>(ring: &mut R, times: u32) -> u64 {
    for number in 0..times {
        ring.map_each(|item| T::numbered(item.number() ^ u64::from(number)));
    }
    0
}

// Nothing where the ring has no such call.
#[inline(never)]
pub fn turn_contiguous<T: Item, R: Measured<T>>(ring: &mut R, count: usize, times: u32) -> u64 {
    let mut sum = 0u64;
    for _ in 0..times {
        if count <= ring.len() {
            ring.rotate_left(count);
        }
        sum ^= ring.contiguous();
    }
    sum
}

// Makes room for `count` more, and gives it back. Nothing where the ring has no such call.
#[inline(never)]
pub fn set_capacity<T: Item, R: Measured<T>>(ring: &mut R, count: usize, times: u32) -> u64 {
    let capacity = ring.capacity();
    for _ in 0..times {
        ring.resize(capacity.saturating_add(count));
        ring.resize(capacity);
    }
    ring.len() as u64
}

// All blocks are numbered from 0, so that as many items pass the test each time.
#[inline(never)]
pub fn dequeue_while_in<T: Item, R: Measured<T>>(ring: &mut R, items: &[T], times: u32) -> u64 {
    let mut sum = 0u64;
    let mut left = items.len();
    for _ in 0..times {
        sum = sum.wrapping_add(ring.dequeue_while(|_| {
            let takes = 0 < left;
            left = left.saturating_sub(1);
            takes
        }) as u64);
        ring.bring(items);
        left = items.len();
    }
    sum
}

#[inline(never)]
pub fn drain_range_in<T: Item, R: Measured<T>>(
    alloc: Global,
    ring: &mut R,
    items: &[T],
    times: u32,
) -> u64 {
    let mut sum = 0u64;
    for _ in 0..times {
        if let Ok(taken) = ring.drain_range(1..=items.len(), alloc) {
            sum = sum.wrapping_add(taken.len() as u64);
        }
        ring.bring(items);
    }
    sum
}

#[inline(never)]
pub fn split_off_in<T: Item, R: Measured<T>>(
    alloc: Global,
    ring: &mut R,
    items: &[T],
    times: u32,
) -> u64 {
    let mut sum = 0u64;
    for _ in 0..times {
        let at = ring.len().saturating_sub(items.len());
        if let Ok(newest) = ring.split_off(at, alloc) {
            sum = sum.wrapping_add(newest.len() as u64);
        }
        ring.bring(items);
    }
    sum
}

#[inline(never)]
pub fn take_all_in<T: Item, R: Measured<T>>(
    alloc: Global,
    ring: &mut R,
    items: &[T],
    times: u32,
) -> u64 {
    let mut sum = 0u64;
    for _ in 0..times {
        if let Ok(taken) = ring.take_all(alloc) {
            sum = sum.wrapping_add(taken.len() as u64);
        }
        ring.bring(items);
    }
    sum
}
