//! How large a ring and its items may be, and what memory a ring takes and keeps.

use super::{assert_equal, assert_holds, drought, push_all};
use ringbuffer::{
    AllocRingBuffer, CopyRingBuffer, DoubleEndedRing, GrowableAllocRingBuffer, RingBuffer,
    RingBufferExt,
};
use std::alloc::AllocError;
use std::mem::size_of;
use std::process::Abort;

#[test]
fn more_than_there_can_be_is_refused(rt: HostRuntime) {
    let alloc = rt.alloc();
    for capacity in [(1 << 63) + 1, usize::MAX] {
        assert!(rt; AllocRingBuffer::<u8>::new(alloc, capacity).is_err());
        assert!(rt; AllocRingBuffer::<()>::new(alloc, capacity).is_err());
        assert!(rt; AllocRingBuffer::<u8>::with_capacity(alloc, capacity).is_err());
    }
    assert!(rt; AllocRingBuffer::<u64>::with_capacity_power_of_2(alloc, 63).is_err());
    assert!(rt; AllocRingBuffer::<u64>::new(alloc, 1 << 44).is_err());
    assert!(rt; GrowableAllocRingBuffer::<i64>::with_capacity(alloc, usize::MAX).is_err());
}

// No item is written, so they take addresses and no memory: more than there are addresses for, if none were given back.
#[test]
fn rings_of_a_gibibyte_give_back_their_memory(rt: HostRuntime) -> Result<(), AllocError> {
    for _ in 0..150_000 {
        let ring = AllocRingBuffer::<u64>::new(rt.alloc(), 1 << 27)?;
        assert_equal(&rt, ring.buffer_size(), 1 << 27);
    }
    let mut ring = AllocRingBuffer::<u64>::new(rt.alloc(), 1 << 27)?;
    for _ in 0..75_000 {
        ring.set_capacity(1 << 26)?;
        ring.set_capacity(1 << 27)?;
    }
    Ok(())
}

// A start and a length lie beside the items.
#[test]
fn plain_items_have_no_mark(rt: HostRuntime) {
    let span = size_of::<(usize, usize)>();
    assert_equal(&rt, size_of::<CopyRingBuffer<u8, 64>>(), span + 64);
    assert_equal(&rt, size_of::<CopyRingBuffer<u64, 64>>(), span + 8 * 64);
    assert_equal(&rt, size_of::<CopyRingBuffer<u64, 1>>(), span + 8);
}

/// Capacities of heap rings of items without size, and the slots that they have.
const WITHOUT_SIZE: &[(usize, usize)] = &[
    (5, 8),
    ((1 << 16) + 1, 1 << 17),
    ((1 << 32) + 1, 1 << 33),
    ((1 << 63) - 1, 1 << 63),
    (1 << 63, 1 << 63),
];

#[test]
fn a_ring_of_items_without_size_has_any_capacity_and_no_memory(
    rt: HostRuntime,
) -> Result<(), AllocError> {
    for (capacity, slots) in WITHOUT_SIZE {
        assert!(rt; 0 < *capacity);
        let ring = AllocRingBuffer::<()>::new(rt.alloc(), *capacity)?;
        let found = (ring.capacity(), ring.buffer_size());
        assert_equal(&rt, found, (*capacity, *slots));
    }
    let ring = AllocRingBuffer::<()>::with_capacity_power_of_2(rt.alloc(), 63)?;
    assert_equal(&rt, ring.capacity(), 1 << 63);
    let drought = drought(&rt, 0);
    let made = AllocRingBuffer::<()>::new(rt.alloc(), 5);
    drop(drought);
    let mut ring = made?;
    for _ in 0..7 {
        assert!(rt; ring.push(()).is_ok());
    }
    let found = (ring.len(), ring.capacity(), ring.buffer_size());
    assert_equal(&rt, found, (5, 5, 8));
    for _ in 0..5 {
        assert_equal(&rt, ring.dequeue(), Some(()));
    }
    assert_equal(&rt, ring.dequeue(), None);
    Ok(())
}

/// Asserts that the ring is empty and has this much room, and pushes 1, 2 and 3.
fn assert_emptied(
    rt: &(impl Abort + AllocGlobal),
    ring: &mut GrowableAllocRingBuffer<i64>,
    room: usize,
) {
    assert_equal(rt, (ring.len(), ring.capacity()), (0, room));
    push_all(rt, ring, &[1, 2, 3]);
}

#[test]
fn a_growable_ring_that_is_emptied_keeps_its_room(rt: HostRuntime) -> Result<(), AllocError> {
    let vector = Vec::with_capacity(rt.alloc(), 100)?;
    let room = vector.capacity();
    let mut ring = GrowableAllocRingBuffer::from_vec(rt.alloc(), vector)?;
    assert_emptied(&rt, &mut ring, room);
    ring.clear();
    assert_emptied(&rt, &mut ring, room);
    ring.truncate(0);
    assert_emptied(&rt, &mut ring, room);
    ring.keep_newest(0);
    assert_emptied(&rt, &mut ring, room);
    for _ in ring.drain() {}
    assert_emptied(&rt, &mut ring, room);
    assert_equal(&rt, ring.dequeue_into(&mut [0; 4]), 3);
    assert_emptied(&rt, &mut ring, room);
    for (last, item) in [(2, 3), (1, 2), (0, 1)] {
        assert_equal(&rt, ring.remove(last), Some(item));
    }
    assert_emptied(&rt, &mut ring, room);
    Ok(())
}
