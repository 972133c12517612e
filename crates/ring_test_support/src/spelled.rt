//! Rings that are made of the characters of a text.

use ringbuffer::{AllocRingBuffer, ConstGenericRingBuffer, GrowableAllocRingBuffer, RingBuffer};
use std::alloc::{AllocError, Global};

/// A ring that can be made of the characters of a text.
pub trait Spelled: RingBuffer<char> {
    /// Makes a ring of a text that is lent, and isn't empty.
    fn of_text(alloc: Global, text: &str) -> Result<Self, AllocError>;

    /// Makes a ring of a text that is handed over, and isn't empty.
    fn of_string(alloc: Global, text: String) -> Result<Self, AllocError>;
}

impl<const CAP: usize> Spelled for ConstGenericRingBuffer<char, CAP> {
    fn of_text(_: Global, text: &str) -> Result<Self, AllocError> {
        if CAP == 0 {
            return Err(AllocError);
        }
        Ok(ConstGenericRingBuffer::from_text(text))
    }

    fn of_string(_: Global, text: String) -> Result<Self, AllocError> {
        if CAP == 0 {
            return Err(AllocError);
        }
        Ok(ConstGenericRingBuffer::from_string(text))
    }
}

impl Spelled for AllocRingBuffer<char> {
    fn of_text(alloc: Global, text: &str) -> Result<Self, AllocError> {
        if text.is_empty() {
            return Err(AllocError);
        }
        AllocRingBuffer::from_text(alloc, text)
    }

    fn of_string(alloc: Global, text: String) -> Result<Self, AllocError> {
        if text.is_empty() {
            return Err(AllocError);
        }
        AllocRingBuffer::from_string(alloc, text)
    }
}

impl Spelled for GrowableAllocRingBuffer<char> {
    fn of_text(alloc: Global, text: &str) -> Result<Self, AllocError> {
        GrowableAllocRingBuffer::from_text(alloc, text)
    }

    fn of_string(alloc: Global, text: String) -> Result<Self, AllocError> {
        GrowableAllocRingBuffer::from_string(alloc, text)
    }
}
