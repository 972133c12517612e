//! `ring_costs (RING ITEM CALL COUNT HELD START TIMES)..`: makes calls over and over, for a counter of instructions.
//!
//! RING holds HELD items, whose first lies START places on, and CALL is made TIMES times, by blocks of COUNT items where it
//! takes blocks. A call that takes out is followed by one that puts in, so that the length is the same each time.
#![tactic(auto)]

mod blocks;
mod bytes;
mod calls;
mod case;
mod item;
mod more;
mod ring;
mod whole;
mod windows;

use case::Case;
use item::Item;
use ring::Measured;
use ringbuffer::{
    AllocRingBuffer, ConstGenericRingBuffer, CopyRingBuffer, GrowableAllocRingBuffer,
};
use std::alloc::{AllocError, Global};
use std::rt::Env;
use std::{env, io};

fn main(rt: HostRuntime) -> io::Result<()> {
    let words: Vec<String> = env::args(&rt)?.skip(1).collect(rt.alloc())?;
    let mut found = 1u64;
    for words in words.as_slice().chunks(7) {
        let [ring, item, call, count, held, start, times] = words else {
            return eprintln!(rt; "usage: ring_costs (RING ITEM CALL COUNT HELD START TIMES)..");
        };
        let Some(case) = Case::of(call.as_str(), count, held, start, times) else {
            return eprintln!(rt; "COUNT, HELD, START and TIMES are numbers");
        };
        mark_case(&mut found);
        found = found.wrapping_add(run(rt.alloc(), ring.as_str(), item.as_str(), case)?);
    }
    mark_case(&mut found);
    println!(rt; "done")
}

/// Stands between two cases, for the counter. What they found goes through it, so that none of it is left out.
#[inline(never)]
fn mark_case(found: &mut u64) {
    *found = found.wrapping_mul(31);
}

/// Makes the calls of a case on a ring of this name, or on a window, and returns what they found, as a number.
fn run(alloc: Global, ring: &str, item: &str, case: Case<'_>) -> Result<u64, AllocError> {
    match (ring, item) {
        ("window", kind) => windows::slide(alloc, kind, case),
        (_, "u8") if bytes::has(case.call) => on_bytes(alloc, ring, case),
        (_, "b16") => of_pairs(alloc, ring, case),
        ("array1000", item) => in_array(alloc, item, case),
        ("copy1000", item) => in_plain_array(alloc, item, case),
        ("heap1000", "u8") => by(alloc, AllocRingBuffer::<u8>::new(alloc, 1000)?, case),
        ("heap1000", "u64") => by(alloc, AllocRingBuffer::<u64>::new(alloc, 1000)?, case),
        ("heap1000", _) => by(alloc, AllocRingBuffer::<[u64; 8]>::new(alloc, 1000)?, case),
        (_, "u8") => by(alloc, GrowableAllocRingBuffer::<u8>::new(alloc), case),
        (_, "b64") => by(alloc, GrowableAllocRingBuffer::<[u64; 8]>::new(alloc), case),
        _ => by(alloc, GrowableAllocRingBuffer::<u64>::new(alloc), case),
    }
}

/// Makes the calls on a ring of items of 16 bytes.
fn of_pairs(alloc: Global, ring: &str, case: Case<'_>) -> Result<u64, AllocError> {
    match ring {
        "array1000" => more::by(alloc, ConstGenericRingBuffer::<[u64; 2], 1000>::new(), case),
        "copy1000" => more::by(alloc, CopyRingBuffer::<[u64; 2], 1000>::new([0; 2]), case),
        "heap1000" => more::by(alloc, AllocRingBuffer::<[u64; 2]>::new(alloc, 1000)?, case),
        _ => more::by(alloc, GrowableAllocRingBuffer::<[u64; 2]>::new(alloc), case),
    }
}

/// Makes the calls on a ring in an array of 1000.
fn in_array(alloc: Global, item: &str, case: Case<'_>) -> Result<u64, AllocError> {
    match item {
        "u8" => by(alloc, ConstGenericRingBuffer::<u8, 1000>::new(), case),
        "u64" => by(alloc, ConstGenericRingBuffer::<u64, 1000>::new(), case),
        _ => by(alloc, ConstGenericRingBuffer::<[u64; 8], 1000>::new(), case),
    }
}

/// Makes the calls on a ring in an array of 1000 plain items.
fn in_plain_array(alloc: Global, item: &str, case: Case<'_>) -> Result<u64, AllocError> {
    match item {
        "u8" => by(alloc, CopyRingBuffer::<u8, 1000>::new(0), case),
        "u64" => by(alloc, CopyRingBuffer::<u64, 1000>::new(0), case),
        _ => by(alloc, CopyRingBuffer::<[u64; 8], 1000>::new([0; 8]), case),
    }
}

/// Makes the calls of `std::io` on a ring of bytes.
fn on_bytes(alloc: Global, ring: &str, case: Case<'_>) -> Result<u64, AllocError> {
    match ring {
        "log_heap1000" => bytes::log(alloc, AllocRingBuffer::<u8>::new(alloc, 1000)?, case),
        "log_copy1000" => bytes::log(alloc, CopyRingBuffer::<u8, 1000>::new(0), case),
        "log_array1000" => bytes::log(alloc, ConstGenericRingBuffer::<u8, 1000>::new(), case),
        "array1000" => bytes::by(alloc, ConstGenericRingBuffer::<u8, 1000>::new(), case),
        "copy1000" => bytes::by(alloc, CopyRingBuffer::<u8, 1000>::new(0), case),
        "heap1000" => bytes::by(alloc, AllocRingBuffer::<u8>::new(alloc, 1000)?, case),
        _ => bytes::by(alloc, GrowableAllocRingBuffer::<u8>::new(alloc), case),
    }
}

/// Makes the calls on a ring that is empty.
fn by<T: Item, R: Measured<T> + Drop>(
    alloc: Global,
    mut ring: R,
    case: Case<'_>,
) -> Result<u64, AllocError> {
    case.fill(&mut ring);
    calls::repeat(alloc, &mut ring, case)
}
