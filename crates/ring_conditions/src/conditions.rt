//! Callers that meet the conditions of the makers and of the indexes. Their contracts promise nothing, so that an edit
//! which breaks a condition is refused for that alone.

use ringbuffer::{AllocRingBuffer, ConstGenericRingBuffer, RingBuffer};
use std::alloc::{AllocError, Global};

/// Makes an array ring of the least capacity.
pub fn least_array() -> ConstGenericRingBuffer<u8, 1> {
    ConstGenericRingBuffer::<u8, 1>::new()
}

/// Makes an array ring of the least capacity, with `item` out of an array.
pub fn least_array_of_an_array(item: u8) -> ConstGenericRingBuffer<u8, 1> {
    ConstGenericRingBuffer::<u8, 1>::from_array([Some(item)])
}

/// Makes an array ring of the least capacity, with the last character of `text`.
pub fn last_character(text: &str) -> ConstGenericRingBuffer<char, 1> {
    ConstGenericRingBuffer::<char, 1>::from_text(text)
}

/// Makes a heap ring of the least capacity.
pub fn least_on_the_heap(alloc: Global) -> Result<AllocRingBuffer<u8>, AllocError> {
    AllocRingBuffer::new(alloc, 1)
}

/// Makes a heap ring of the greatest capacity that is a power of two.
pub fn greatest_on_the_heap(alloc: Global) -> Result<AllocRingBuffer<u8>, AllocError> {
    AllocRingBuffer::with_capacity_power_of_2(alloc, 63)
}

/// Makes a heap ring with the items of a source that isn't empty.
pub fn on_the_heap_from_a_text(alloc: Global) -> Result<AllocRingBuffer<char>, AllocError> {
    AllocRingBuffer::from_text(alloc, "a")
}

/// Returns the item at position `index` of a ring that holds `item` alone.
pub fn index_of_any_size(item: u8, index: usize) -> u8 {
    let mut ring = ConstGenericRingBuffer::<u8, 2>::new();
    let _ = ring.push(item);
    ring[index]
}
