//! Blocks of items into growable rings and out of them, on both sides of each choice that lengths and sizes make there.

use super::assert_equal;
use ring_test_support::numbered::{Numbered, block};
use ringbuffer::{DoubleEndedRing, GrowableAllocRingBuffer, RingBuffer};
use std::alloc::AllocError;
use std::io::BufRead;
use std::process::Abort;

macro_rules! rows {
    ($($held:literal $count:literal),*) => {
        &[$(($held, $count)),*]
    };
}

/// How many items a ring holds, and how many come or go: few or not, as many as it holds or not, and more or fewer than half
/// of what it holds.
const ROWS: &[(usize, usize)] = rows!(
    0 7, 0 8, 0 15, 0 16, 7 8, 8 7, 15 15, 15 16, 16 15, 16 16, 17 16, 31 31, 32 31, 32 32, 32 33, 33 32, 62 32,
    63 32, 64 32, 64 33, 64 63, 300 7, 300 8, 300 31, 300 32, 300 149, 300 150, 300 151, 300 181, 300 299, 300 300
);

/// How a ring came about: it began with room for so many items, and as many pushes and dequeues as `start` says.
#[derive(Clone, Copy)]
struct Shape {
    capacity: usize,
    start: usize,
    held: usize,
}

/// Returns the shapes of rings whose items begin in the first slot, in the middle, seven slots before the end, which they go
/// round, and as many before it as `count` says, or one fewer.
fn shapes(capacity: usize, held: usize, count: usize) -> [Shape; 5] {
    [
        0,
        capacity / 2,
        capacity.saturating_sub(7),
        capacity.saturating_sub(count),
        capacity.saturating_sub(count.saturating_sub(1)),
    ]
    .map(|start| Shape {
        capacity,
        start,
        held,
    })
}

/// Returns a ring of the items with the numbers from 0 on.
fn ring_of<T: Numbered>(
    rt: &(impl Abort + AllocGlobal),
    shape: Shape,
) -> Result<GrowableAllocRingBuffer<T>, AllocError> {
    let mut ring = GrowableAllocRingBuffer::with_capacity(rt.alloc(), shape.capacity)?;
    for _ in 0..shape.start {
        assert_equal(rt, ring.push(T::numbered(0)), Ok(None));
        assert_equal(rt, ring.dequeue(), Some(T::numbered(0)));
    }
    for number in 0..shape.held {
        assert_equal(rt, ring.push(T::numbered(number)), Ok(None));
    }
    Ok(ring)
}

/// Brings `count` items to rings, by a slice and by a source. They lie as where they came to a deque.
fn assert_brings<T: Numbered>(
    rt: &(impl Abort + AllocGlobal),
    shape: Shape,
    count: usize,
) -> Result<(), AllocError> {
    let items = block::<T>(rt.alloc(), shape.held, count)?;
    for at_once in [true, false] {
        let mut ring = ring_of(rt, shape)?;
        if at_once {
            ring.extend_from_slice(items.as_slice())?;
        } else {
            ring.extend(items.iter().copied())?;
        }
        let grown = grown_of(rt, shape, items.as_slice(), at_once)?;
        assert_equal(rt, ring.as_slices(), grown.as_slices());
        assert_equal(rt, ring.capacity(), grown.capacity());
    }
    Ok(())
}

/// Returns a ring out of which its deque's `drain` has taken the items at the indexes from `from` up to `to`.
fn drained_of<T: Numbered>(
    rt: &(impl Abort + AllocGlobal),
    shape: Shape,
    from: usize,
    to: usize,
) -> Result<GrowableAllocRingBuffer<T>, AllocError> {
    let mut ring = ring_of(rt, shape)?;
    let deque = ring.as_mut();
    let to = to.min(deque.len());
    deque.drain(from.min(to)..to);
    Ok(ring)
}

/// Finds the same items in both rings, and in as many slices. Brings one more to each than there is room for: they then lie
/// alike too, and have asked for as much memory.
fn assert_lie_alike<T: Numbered>(
    rt: &(impl Abort + AllocGlobal),
    mut ring: GrowableAllocRingBuffer<T>,
    mut drained: GrowableAllocRingBuffer<T>,
) -> Result<(), AllocError> {
    assert_equal(rt, ring.as_slices(), drained.as_slices());
    let room = ring.capacity().saturating_sub(ring.len());
    let more = block::<T>(rt.alloc(), 1000, room.saturating_add(1))?;
    ring.extend_from_slice(more.as_slice())?;
    drained.extend_from_slice(more.as_slice())?;
    assert_equal(rt, ring.as_slices(), drained.as_slices());
    assert_equal(rt, ring.capacity(), drained.capacity());
    Ok(())
}

/// Returns a ring to which items came as they come to a deque, in room that was reserved for all of them at once or for none, or
/// to a vector of its memory where they are many, and at least as many as it held.
fn grown_of<T: Numbered>(
    rt: &(impl Abort + AllocGlobal),
    shape: Shape,
    items: &[T],
    at_once: bool,
) -> Result<GrowableAllocRingBuffer<T>, AllocError> {
    let mut ring = ring_of(rt, shape)?;
    if items.len() >= 16 && items.len() >= shape.held {
        let mut vec = ring.into_deque().into_vec();
        vec.extend_from_slice(items)?;
        return GrowableAllocRingBuffer::from_vec(rt.alloc(), vec);
    }
    let deque = ring.as_mut();
    if at_once {
        deque.reserve(items.len())?;
    }
    for item in items {
        assert!(rt; deque.push_back(*item).is_ok());
    }
    Ok(ring)
}

/// Brings and takes the items of each row, where the ring has no room for them and where it has. What a block leaves lies as
/// what is popped does.
fn assert_all_blocks<T: Numbered>(rt: &(impl Abort + AllocGlobal)) -> Result<(), AllocError> {
    for (held, count) in ROWS {
        for capacity in [*held, held.saturating_add(*count)] {
            for shape in shapes(capacity, *held, *count) {
                assert_brings::<T>(rt, shape, *count)?;
                let mut ring = ring_of::<T>(rt, shape)?;
                let mut output = block::<T>(rt.alloc(), 0, *count)?;
                ring.dequeue_into(output.as_mut_slice());
                assert_lie_alike(rt, ring, drained_of(rt, shape, 0, *count)?)?;
            }
        }
    }
    Ok(())
}

/// Removes the items of each row: the oldest, some in the middle, and the newest. What is kept of the newest lies as where the
/// others were popped.
fn assert_all_removals<T: Numbered>(rt: &(impl Abort + AllocGlobal)) -> Result<(), AllocError> {
    for (held, count) in ROWS {
        let last = held.saturating_sub(*count);
        for shape in shapes(*held, *held, *count) {
            for from in [0, 1, last / 2, last.saturating_sub(1), last] {
                let to = from.saturating_add(*count);
                let mut ring = ring_of::<T>(rt, shape)?;
                ring.remove_range(from..to);
                assert_lie_alike(rt, ring, drained_of(rt, shape, from, to)?)?;
            }
            let mut ring = ring_of::<T>(rt, shape)?;
            ring.keep_newest(last);
            assert_lie_alike(rt, ring, drained_of(rt, shape, 0, *count)?)?;
        }
    }
    Ok(())
}

/// Does to rings of bytes, of words, of large items and of those without bytes what blocks do.
macro_rules! for_each_item {
    ($rt:expr, $test:ident) => {
        $test::<u8>($rt)?;
        $test::<u64>($rt)?;
        $test::<[u8; 17]>($rt)?;
        $test::<()>($rt)?;
    };
}

#[test]
fn blocks_come_and_go(rt: HostRuntime) -> Result<(), AllocError> {
    for_each_item!(&rt, assert_all_blocks);
    for_each_item!(&rt, assert_all_removals);
    Ok(())
}

#[test]
fn consumed_bytes_go_as_popped_ones(rt: HostRuntime) -> Result<(), AllocError> {
    for (held, count) in ROWS {
        for capacity in [*held, held.saturating_add(*count)] {
            for shape in shapes(capacity, *held, *count) {
                let mut ring = ring_of::<u8>(&rt, shape)?;
                ring.consume(*count);
                assert_lie_alike(&rt, ring, drained_of(&rt, shape, 0, *count)?)?;
            }
        }
    }
    Ok(())
}
