//! The calls that take or give many items, each in a loop of its own.

use crate::item::Item;
use crate::ring::Measured;
use ringbuffer::RingBufferExt;

#[inline(never)]
pub fn fill<T: Item, R: Measured<T>>(ring: &mut R, times: u32) -> u64 {
    for number in 0..times {
        let _ = ring.fill(T::numbered(u64::from(number)));
    }
    0
}

#[inline(never)]
pub fn clear_extend<T: Item, R: Measured<T>>(ring: &mut R, items: &[T], times: u32) -> u64 {
    for _ in 0..times {
        ring.clear();
        ring.bring(items);
    }
    0
}

#[inline(never)]
pub fn extend<T: Item, R: Measured<T>>(ring: &mut R, items: &[T], times: u32) -> u64 {
    let mut output = items.len();
    for _ in 0..times {
        let _ = ring.extend(items.iter().copied());
        output = output.min(ring.len());
    }
    output as u64
}

// A source that promises a half, and gives all.
#[inline(never)]
pub fn extend_more<T: Item, R: Measured<T>>(ring: &mut R, items: &[T], times: u32) -> u64 {
    let (first, second) = items.split_at(items.len() / 2);
    for _ in 0..times {
        let some = second.iter().copied().filter(|item| item.number() != 255);
        let _ = ring.extend(first.iter().copied().chain(some));
    }
    ring.len() as u64
}

// Drops about one item in five, and pushes as many.
#[inline(never)]
pub fn retain_push<T: Item, R: Measured<T>>(ring: &mut R, times: u32) -> u64 {
    let len = ring.len();
    let mut pushed = 0u64;
    for round in 0..times {
        let dropped = u64::from(round) % 8;
        let _ = ring.retain(|item| item.number() % 8 != dropped);
        for _ in ring.len()..len {
            let _ = ring.push(T::numbered(pushed));
            pushed = pushed.wrapping_add(1);
        }
    }
    ring.len() as u64
}

#[inline(never)]
pub fn drain_extend<T: Item, R: Measured<T>>(ring: &mut R, items: &[T], times: u32) -> u64 {
    let mut sum = 0u64;
    for _ in 0..times {
        for item in ring.drain() {
            sum ^= item.number();
        }
        ring.bring(items);
    }
    sum
}

#[inline(never)]
pub fn bring<T: Item, R: Measured<T>>(ring: &mut R, items: &[T], times: u32) -> u64 {
    for _ in 0..times {
        ring.bring(items);
    }
    ring.len() as u64
}

// The trait's call, which generic code has.
#[inline(never)]
pub fn bring_clones<T: Item, R: Measured<T>>(ring: &mut R, items: &[T], times: u32) -> u64 {
    for _ in 0..times {
        let _ = ring.extend_from_slice(items);
    }
    ring.len() as u64
}

#[inline(never)]
pub fn copy<T: Item, R: Measured<T>>(ring: &R, output: &mut [T], times: u32) -> u64 {
    let mut sum = 0u64;
    for _ in 0..times {
        sum = sum.wrapping_add(ring.copy(output) as u64);
    }
    sum
}

#[inline(never)]
pub fn take_in<T: Item, R: Measured<T>>(
    ring: &mut R,
    items: &[T],
    output: &mut [T],
    times: u32,
) -> u64 {
    let mut sum = 0u64;
    for _ in 0..times {
        sum = sum.wrapping_add(ring.take(output) as u64);
        ring.bring(items);
    }
    sum
}

#[inline(never)]
pub fn remove_range_extend<T: Item, R: Measured<T>>(ring: &mut R, items: &[T], times: u32) -> u64 {
    for _ in 0..times {
        ring.remove_range(1..=items.len());
        ring.bring(items);
    }
    ring.len() as u64
}

#[inline(never)]
pub fn truncate_in<T: Item, R: Measured<T>>(
    ring: &mut R,
    items: &[T],
    held: usize,
    times: u32,
) -> u64 {
    for _ in 0..times {
        ring.truncate(held.saturating_sub(items.len()));
        ring.bring(items);
    }
    ring.len() as u64
}

#[inline(never)]
pub fn keep_newest_in<T: Item, R: Measured<T>>(
    ring: &mut R,
    items: &[T],
    held: usize,
    times: u32,
) -> u64 {
    for _ in 0..times {
        ring.keep_newest(held.saturating_sub(items.len()));
        ring.bring(items);
    }
    ring.len() as u64
}

// Pushes move the first item on, so that the ring goes round its slots again.
#[inline(never)]
pub fn bring_contiguous<T: Item, R: Measured<T>>(ring: &mut R, items: &[T], times: u32) -> u64 {
    let mut sum = 0u64;
    for _ in 0..times {
        ring.bring(items);
        sum ^= ring.contiguous();
    }
    sum
}
