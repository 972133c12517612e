//! The room of growable rings: how it grows, and that it stays.

use super::{assert_equal, assert_numbers};
use ring_test_support::numbered::block;
use ringbuffer::{DoubleEndedRing, GrowableAllocRingBuffer, RingBuffer, retain};
use std::alloc::AllocError;
use std::io::BufRead;

// As a deque's, room grows to twice what it was: some 80,000 items need it to grow 14 times from 8 on.
#[test]
fn room_grows_by_doubling(rt: HostRuntime) -> Result<(), AllocError> {
    let mut ring = GrowableAllocRingBuffer::<u64>::new(rt.alloc());
    let (mut growths, mut held, mut room) = (0usize, 0usize, 0usize);
    for _ in 0..10_000 {
        let items = block::<u64>(rt.alloc(), held, 8)?;
        ring.extend_from_slice(items.as_slice())?;
        held = held.saturating_add(8);
        if ring.capacity() != room {
            assert!(&rt; ring.capacity() <= room.saturating_mul(2).max(held));
            room = ring.capacity();
            growths = growths.saturating_add(1);
        }
    }
    assert!(&rt; growths <= 15);
    assert_numbers(&rt, &ring, 0, 80_000);
    Ok(())
}

#[test]
fn an_extension_takes_no_more_room_than_twice(rt: HostRuntime) -> Result<(), AllocError> {
    for (room, count) in [(0, 16), (100, 101), (1000, 1001), (1000, 70_000)] {
        let items = block::<u64>(rt.alloc(), 0, count)?;
        let most = count.max(2usize.saturating_mul(room));
        let mut by_slice = GrowableAllocRingBuffer::<u64>::with_capacity(rt.alloc(), room)?;
        by_slice.extend_from_slice(items.as_slice())?;
        assert!(&rt; by_slice.capacity() >= count && by_slice.capacity() <= most);
        let mut by_source = GrowableAllocRingBuffer::<u64>::with_capacity(rt.alloc(), room)?;
        by_source.extend(items.iter().copied())?;
        assert!(&rt; by_source.capacity() >= count && by_source.capacity() <= most);
    }
    Ok(())
}

#[test]
fn room_stays_where_items_leave(rt: HostRuntime) -> Result<(), AllocError> {
    let mut ring = GrowableAllocRingBuffer::<u64>::new(rt.alloc());
    ring.extend_from_slice(block(rt.alloc(), 0, 5000)?.as_slice())?;
    let room = ring.capacity();
    let _ = ring.pop_back();
    let _ = ring.dequeue();
    ring.keep_newest(3500);
    ring.truncate(3000);
    ring.remove_range(100..200);
    ring.remove_range(2000..);
    assert_equal(&rt, ring.capacity(), room);
    assert_equal(&rt, retain(&mut ring, |item| *item % 2 == 0), Ok(()));
    assert_equal(&rt, ring.retain(|item| *item % 4 == 0), Ok(()));
    let _ = ring.dequeue_while(|item| *item < 2000);
    assert_equal(&rt, ring.capacity(), room);
    let mut output = block(rt.alloc(), 0, 100)?;
    let _ = ring.dequeue_into(output.as_mut_slice());
    ring.clear();
    assert_equal(&rt, ring.capacity(), room);
    ring.extend_from_slice(block(rt.alloc(), 0, 20)?.as_slice())?;
    let _ = ring.remove(19);
    assert!(rt; 5 <= ring.len());
    ring.rotate_left(5);
    ring.make_contiguous().reverse();
    assert_equal(&rt, ring.capacity(), room);
    Ok(())
}

// A conversion of a vector or a deque lays nothing anew, and a push in front makes no more room than one behind.
#[test]
fn room_is_taken_over_and_grows_in_front(rt: HostRuntime) -> Result<(), AllocError> {
    let mut items = Vec::with_capacity(rt.alloc(), 100)?;
    items.extend_from_slice(block::<u64>(rt.alloc(), 0, 60)?.as_slice())?;
    let room = items.capacity();
    let ring = GrowableAllocRingBuffer::from(items);
    assert_equal(&rt, ring.capacity(), room);
    let mut deque = ring.into_deque();
    for number in [1, 0] {
        let _ = deque.pop_back();
        deque.push_front(number)?;
    }
    let ring = GrowableAllocRingBuffer::from(deque);
    let (first, second) = ring.as_slices();
    assert_equal(&rt, (first.len(), second.len()), (2, 58));
    assert_equal(&rt, ring.capacity(), room);
    let mut front = GrowableAllocRingBuffer::<u64>::with_capacity(rt.alloc(), 4)?;
    let mut back = GrowableAllocRingBuffer::<u64>::with_capacity(rt.alloc(), 4)?;
    for number in 0..40 {
        assert!(&rt; front.push_front(number).is_ok() && back.push(number).is_ok());
        assert_equal(&rt, front.capacity(), back.capacity());
    }
    Ok(())
}

#[test]
fn an_empty_ring_uses_its_room(rt: HostRuntime) -> Result<(), AllocError> {
    for count in [1, 15, 16, 17, 1000] {
        let items = block::<u64>(rt.alloc(), 0, count)?;
        let mut ring = GrowableAllocRingBuffer::<u64>::with_capacity(rt.alloc(), 1000)?;
        let room = ring.capacity();
        ring.extend_from_slice(items.as_slice())?;
        assert_equal(&rt, ring.capacity(), room);
        ring.clear();
        ring.extend(items.iter().copied())?;
        assert_equal(&rt, ring.capacity(), room);
        assert_numbers(&rt, &ring, 0, count);
    }
    Ok(())
}

#[test]
fn clones_go_into_the_room_of_another_ring(rt: HostRuntime) -> Result<(), AllocError> {
    let mut ring = GrowableAllocRingBuffer::<u64>::with_capacity(rt.alloc(), 100)?;
    for number in 0..150 {
        let _ = ring.push(number);
        if number < 60 {
            ring.skip();
        }
    }
    // The items go round the end of their memory, and the other ring's begin at each place of its own.
    let (first, second) = ring.as_slices();
    assert_equal(&rt, (first.len(), second.len()), (40, 50));
    for room in [89, 90, 91, 200] {
        for start in [0, 1, 50] {
            let mut other = GrowableAllocRingBuffer::<u64>::with_capacity(rt.alloc(), room)?;
            for number in 0..start {
                let _ = other.push(number);
                other.skip();
            }
            let _ = other.push(7);
            DoubleEndedRing::clone_into(&ring, &mut other)?;
            assert_equal(&rt, other == ring, true);
            // A deque that begins at its memory's first place grows by twice, and else to what is asked for.
            let most = match (room, start) {
                (89, 0) => 178,
                (89, _) => 90,
                _ => room,
            };
            assert_equal(&rt, other.capacity(), most);
        }
    }
    Ok(())
}

#[test]
fn room_stays_where_bytes_are_lent(rt: HostRuntime) -> Result<(), AllocError> {
    let mut ring = GrowableAllocRingBuffer::<u8>::with_capacity(rt.alloc(), 1000)?;
    ring.extend_from_slice(block(rt.alloc(), 0, 600)?.as_slice())?;
    let room = ring.capacity();
    let lent = ring.fill_buf().map_or(0, |bytes| bytes.len());
    assert_equal(&rt, lent, 600);
    assert_equal(&rt, ring.capacity(), room);
    ring.consume(500);
    assert_equal(&rt, ring.capacity(), room);
    Ok(())
}
