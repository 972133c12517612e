//! The calls of every ring, each in a loop of its own.

use crate::blocks::{
    bring, bring_clones, bring_contiguous, clear_extend, copy, drain_extend, extend, extend_more,
    fill, keep_newest_in, remove_range_extend, retain_push, take_in, truncate_in,
};
use crate::case::Case;
use crate::item::Item;
use crate::ring::Measured;
use crate::whole::{clone, clone_into, eq, eq_slice, found, to_vec};
use ringbuffer::{RingBufferIterator, partition_point};
use std::alloc::{AllocError, Global};

/// Makes the call of a case, and returns what it found, as a number.
pub fn repeat<T: Item, R: Measured<T> + Drop>(
    alloc: Global,
    ring: &mut R,
    case: Case<'_>,
) -> Result<u64, AllocError> {
    let times = case.times;
    let items = case.block::<T>(alloc)?;
    let items = items.as_slice();
    let mut output = case.block::<T>(alloc)?;
    let output = output.as_mut_slice();
    Ok(match case.call {
        "push" => push(ring, times),
        "push_dequeue" => push_dequeue(ring, times),
        "push_pop_back" => push_pop_back(ring, times),
        "push_front" => push_front(ring, times),
        "try_push_skip" => try_push_skip(ring, times),
        "get" => get(ring, case.count, times),
        "get_signed" => get_signed(ring, times),
        "get_mut" => get_mut(ring, case.count, times),
        "front_back" => front_back(ring, times),
        "contains" => contains(ring, times),
        "partition_point" => point(ring, times),
        "iter" => iter(ring, times),
        "to_vec" => to_vec(alloc, ring, times),
        "clone" => clone(ring, times),
        "clone_into" => clone_into(ring, times),
        "eq" => eq(ring, times),
        "eq_slice" => eq_slice(alloc, ring, times),
        "fill" => fill(ring, times),
        "clear_extend" => clear_extend(ring, items, times),
        "extend" => extend(ring, items, times),
        "extend_more" => extend_more(ring, items, times),
        "drain_extend" => drain_extend(ring, items, times),
        "retain_push" => retain_push(ring, times),
        "in" => bring(ring, items, times),
        "clones_in" => bring_clones(ring, items, times),
        "in_contiguous" => bring_contiguous(ring, items, times),
        "copy" => copy(ring, output, times),
        "take_in" => take_in(ring, items, output, times),
        "remove_insert" => remove_insert(ring, case.count, times),
        "remove_range_extend" => remove_range_extend(ring, items, times),
        "swap" => swap(ring, case.count, times),
        "rotate_left" => rotate_left(ring, case.count, times),
        "truncate_in" => truncate_in(ring, items, case.held, times),
        "keep_newest_in" => keep_newest_in(ring, items, case.held, times),
        _ => 0,
    })
}

#[inline(never)]
fn push<T: Item, R: Measured<T>>(ring: &mut R, times: u32) -> u64 {
    let mut sum = 0u64;
    for number in 0..times {
        sum ^= found(ring.push(T::numbered(u64::from(number))).unwrap_or(None));
    }
    sum
}

#[inline(never)]
fn push_dequeue<T: Item, R: Measured<T>>(ring: &mut R, times: u32) -> u64 {
    let mut sum = 0u64;
    for number in 0..times {
        let _ = ring.push(T::numbered(u64::from(number)));
        sum ^= found(ring.dequeue());
    }
    sum
}

#[inline(never)]
fn push_pop_back<T: Item, R: Measured<T>>(ring: &mut R, times: u32) -> u64 {
    let mut sum = 0u64;
    for number in 0..times {
        let _ = ring.push(T::numbered(u64::from(number)));
        sum ^= found(ring.pop_back());
    }
    sum
}

#[inline(never)]
fn push_front<T: Item, R: Measured<T>>(ring: &mut R, times: u32) -> u64 {
    let mut sum = 0u64;
    for number in 0..times {
        let old = ring.push_front(T::numbered(u64::from(number)));
        sum ^= found(old.unwrap_or(None));
    }
    sum
}

#[inline(never)]
fn try_push_skip<T: Item, R: Measured<T>>(ring: &mut R, times: u32) -> u64 {
    let mut sum = 0u64;
    for number in 0..times {
        sum ^= u64::from(ring.try_push(T::numbered(u64::from(number))).is_ok());
        ring.skip();
    }
    sum
}

#[inline(never)]
fn get<T: Item, R: Measured<T>>(ring: &R, count: usize, times: u32) -> u64 {
    let mut sum = 0u64;
    for _ in 0..times {
        for index in 0..count {
            sum ^= found(ring.get(index).copied());
        }
    }
    sum
}

#[inline(never)]
fn get_signed<T: Item, R: Measured<T>>(ring: &mut R, times: u32) -> u64 {
    let mut sum = 0u64;
    for number in 0..times {
        if let Some(newest) = ring.get_mut_signed(-1) {
            *newest = T::numbered(u64::from(number));
        }
        sum ^= found(ring.get_signed(-2).copied());
    }
    sum
}

#[inline(never)]
fn get_mut<T: Item, R: Measured<T>>(ring: &mut R, count: usize, times: u32) -> u64 {
    for number in 0..times {
        for index in 0..count {
            if let Some(item) = ring.get_mut(index) {
                *item = T::numbered(u64::from(number));
            }
        }
    }
    0
}

#[inline(never)]
fn front_back<T: Item, R: Measured<T>>(ring: &mut R, times: u32) -> u64 {
    let mut sum = 0u64;
    for number in 0..times {
        if let Some(oldest) = ring.front_mut() {
            *oldest = T::numbered(u64::from(number));
        }
        sum ^= found(ring.front().copied()) ^ found(ring.back().copied());
    }
    sum
}

#[inline(never)]
fn contains<T: Item, R: Measured<T>>(ring: &R, times: u32) -> u64 {
    let mut sum = 0u64;
    for number in 0..times {
        let item = T::numbered(u64::from(number).wrapping_add(1 << 32));
        sum = sum.wrapping_add(u64::from(ring.contains(&item)));
    }
    sum
}

#[inline(never)]
fn point<T: Item, R: Measured<T>>(ring: &R, times: u32) -> u64 {
    let oldest = found(ring.front().copied());
    let mut sum = 0u64;
    for number in 0..times {
        // The bits are mixed twice, so that no branch on what a search finds is foretold.
        let once = u64::from(number).wrapping_mul(0x9E37_79B9_7F4A_7C15);
        let twice = (once ^ (once >> 32)).wrapping_mul(0xD6E8_FEB8_6659_FD93);
        let wanted = oldest.wrapping_add((twice >> 40).wrapping_mul(ring.len() as u64) >> 24);
        let index = partition_point(ring, |item: &T| item.number() < wanted);
        sum = sum.wrapping_add(index as u64);
    }
    sum
}

#[inline(never)]
fn iter<T: Item, R: Measured<T>>(ring: &R, times: u32) -> u64 {
    let mut sum = 0u64;
    for _ in 0..times {
        for item in RingBufferIterator::new(ring) {
            sum = sum.rotate_left(1) ^ item.number();
        }
    }
    sum
}

#[inline(never)]
fn remove_insert<T: Item, R: Measured<T>>(ring: &mut R, index: usize, times: u32) -> u64 {
    let mut sum = 0u64;
    for number in 0..times {
        sum ^= found(ring.remove(index));
        if index <= ring.len() {
            let _ = ring.insert(index, T::numbered(u64::from(number)));
        }
    }
    sum
}

#[inline(never)]
fn swap<T: Item, R: Measured<T>>(ring: &mut R, index: usize, times: u32) -> u64 {
    for _ in 0..times {
        if 0 < ring.len() && index < ring.len() {
            ring.swap(0, index);
        }
    }
    ring.len() as u64
}

#[inline(never)]
fn rotate_left<T: Item, R: Measured<T>>(ring: &mut R, count: usize, times: u32) -> u64 {
    for _ in 0..times {
        if count <= ring.len() {
            ring.rotate_left(count);
        }
    }
    ring.len() as u64
}
