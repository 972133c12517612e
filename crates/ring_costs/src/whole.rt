//! The calls that read all items, each in a loop of its own.

use crate::item::Item;
use crate::ring::Measured;
use std::alloc::Global;

/// Returns the number of an item, if there is one.
#[inline]
pub fn found<T: Item>(item: Option<T>) -> u64 {
    item.map_or(0, |item| item.number())
}

#[inline(never)]
pub fn to_vec<T: Item, R: Measured<T>>(alloc: Global, ring: &R, times: u32) -> u64 {
    let mut sum = 0u64;
    for _ in 0..times {
        if let Ok(items) = ring.to_vec(alloc) {
            sum = sum.wrapping_add(items.len() as u64);
        }
    }
    sum
}

#[inline(never)]
pub fn clone<T: Item, R: Measured<T> + Drop>(ring: &R, times: u32) -> u64 {
    let mut sum = 0u64;
    for _ in 0..times {
        if let Ok(other) = ring.clone() {
            sum = sum.wrapping_add(found(other.back().copied()));
        }
    }
    sum
}

#[inline(never)]
pub fn clone_into<T: Item, R: Measured<T> + Drop>(ring: &R, times: u32) -> u64 {
    let Ok(mut other) = ring.clone() else {
        return 0;
    };
    let mut sum = 0u64;
    for _ in 0..times {
        if other.capacity() >= ring.len() {
            sum = sum.wrapping_add(u64::from(ring.clone_into(&mut other).is_ok()));
            sum ^= found(other.back().copied());
        }
    }
    sum
}

#[inline(never)]
pub fn eq<T: Item, R: Measured<T> + Drop>(ring: &R, times: u32) -> u64 {
    let Ok(mut other) = ring.clone() else {
        return 0;
    };
    let mut sum = 0u64;
    // The newest item changes between two calls, so that none can be left out.
    for number in 0..times {
        if let Some(newest) = other.back_mut() {
            *newest = T::numbered(u64::from(number));
        }
        sum = sum.wrapping_add(u64::from(*ring == other));
    }
    sum
}

#[inline(never)]
pub fn eq_slice<T: Item, R: Measured<T>>(alloc: Global, ring: &R, times: u32) -> u64 {
    let Ok(mut items) = ring.to_vec(alloc) else {
        return 0;
    };
    let mut sum = 0u64;
    // The newest item changes between two calls, so that none can be left out.
    for number in 0..times {
        if let Some(newest) = items.last_mut() {
            *newest = T::numbered(u64::from(number));
        }
        sum = sum.wrapping_add(u64::from(ring.eq_slice(&items)));
    }
    sum
}
