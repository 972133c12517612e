//! A run is a ring, and 1,024 calls of it that a seed draws. What the calls answer, and what the ring holds after every 256 of
//! them, is summed up in a digest, and compared with that of the Rust crate's ring, or of a `VecDeque` where that crate is at
//! fault or lacks the call (`bench/replay`).

mod both_ends;
mod bytes;
mod calls;
mod commands;
mod comparing;
mod copies;
mod digests;
mod items;
mod makers;
mod picking;
mod player;
mod rings;
mod runs;

use items::{Counted, Tally, Values, Wide};
use ringbuffer::{
    AllocRingBuffer, ConstGenericRingBuffer, CopyRingBuffer, GrowableAllocRingBuffer,
};
use runs::{Replays, ReplaysBytes, ReplaysCopies, Run};

/// The capacities of heap rings and of growable rings. Those of arrays are fewer, since each is code of its own: the longest
/// rings hold from none to more items than any choice that lengths make.
const CAPACITIES: &[usize] = &[1, 2, 3, 4, 5, 7, 8, 9, 12, 13, 16, 17, 32, 33, 100, 300];

/// Plays runs on array rings of these capacities.
macro_rules! on_arrays {
    ($rt:expr, $run:ident, $replay:ident, $type:ty, $maker:expr, $($capacity:literal)*) => {$(
        $run = $run.next("ConstGenericRingBuffer", $capacity);
        ConstGenericRingBuffer::<$type, $capacity>::new().$replay($rt, $maker, $run);
    )*};
}

/// Plays runs on rings of plain items of these capacities, which are those of array rings.
macro_rules! replay_plain {
    ($rt:expr, $items:literal, $first:literal, $replay:ident, $type:ty, $($capacity:literal)*) => {
        let mut run = Run::before($first, $items);
        $(
            run = run.next("CopyRingBuffer", $capacity);
            CopyRingBuffer::<$type, $capacity>::default().$replay($rt, Values, run);
        )*
    };
}

/// Plays the runs of a kind of items, on array rings of these capacities.
macro_rules! replay_all {
    ($rt:expr, $items:literal, $first:literal, $replay:ident, $type:ty, $maker:expr, $($capacity:literal)*) => {
        let mut run = Run::before($first, $items);
        on_arrays!($rt, run, $replay, $type, $maker, $($capacity)*);
        for capacity in CAPACITIES {
            assert!($rt; 0 < *capacity);
            run = run.next("AllocRingBuffer", *capacity);
            let ring = AllocRingBuffer::<$type>::new($rt.alloc(), *capacity);
            ring.expect($rt, "memory").$replay($rt, $maker, run);
        }
        for capacity in CAPACITIES {
            run = run.next("GrowableAllocRingBuffer", *capacity);
            let ring = GrowableAllocRingBuffer::<$type>::with_capacity($rt.alloc(), *capacity);
            ring.expect($rt, "memory").$replay($rt, $maker, run);
        }
    };
}

#[test]
fn rings_of_numbers(rt: HostRuntime) {
    replay_all!(&rt, "u64", 0, replay_copies, u64, Values, 1 3 8 13 33 300);
}

#[test]
fn rings_of_nothings(rt: HostRuntime) {
    replay_all!(&rt, "()", 38, replay_copies, (), Values, 1 3 8);
}

#[test]
fn rings_of_wide_items(rt: HostRuntime) {
    replay_all!(&rt, "320 bytes", 73, replay_copies, Wide, Values, 1 3 8 33);
}

#[test]
fn rings_of_counted_items(rt: HostRuntime) {
    let tally = Tally::new();
    replay_all!(&rt, "counted", 109, replay, Counted<'_>, &tally, 1 3 8 13 33);
}

#[test]
fn rings_of_bytes(rt: HostRuntime) {
    replay_all!(&rt, "u8", 146, replay_bytes, u8, Values, 1 8 33 300);
}

#[test]
fn plain_rings_of_numbers(rt: HostRuntime) {
    replay_plain!(&rt, "u64", 0, replay_copies, u64, 1 3 8 13 33 300);
}

#[test]
fn plain_rings_of_nothings(rt: HostRuntime) {
    replay_plain!(&rt, "()", 38, replay_copies, (), 1 3 8);
}

#[test]
fn plain_rings_of_wide_items(rt: HostRuntime) {
    replay_plain!(&rt, "320 bytes", 73, replay_copies, Wide, 1 3 8 33);
}

#[test]
fn plain_rings_of_bytes(rt: HostRuntime) {
    replay_plain!(&rt, "u8", 146, replay_bytes, u8, 1 8 33 300);
}
